//! A reflector that keeps a journal: what it is asked for, and what is put and printed of a journal before its session goes on.
ghost use Rattle.std.specs.Prelude.{◌≡◌, ◌++◌, Err, IfOk, OnOk, string_bytes};
ghost use Rattle.std.specs.Option.{option_copied, option_map};
ghost use Rattle.command_outcome.specs.Outcome.{optional_put, steps_of};
ghost use Rattle.session_journal.specs.Journal.{NoJournal, OtherSession, read_journal};
ghost use Rattle.session_log.specs.Stored.{IsStored, lent_kept, plain_stored, stored_spelling};
ghost use Rattle.session_journal.specs.Reading.{read_place};
ghost use Rattle.session_journal.specs.declared.reading.JournalFault.TheVariants as JournalFault;
ghost use Rattle.command_reflect.specs.ReflectedSteps.{log_name};
ghost use Rattle.command_reflect.specs.KeptSteps.{GoesOnFrom, all_zero, going_on_steps, kept_place, torn_line, torn_name, torn_puts};

use crate::reflection::LogPlace;
use command_outcome::{Outcome, Put, Puts};
use command_words::ServingSpan;
use session_journal::{JournalFault, Read, read_journal, what_is_read_may_be_opened};
use session_log::{Kept, LentKept, Stored, encode_stored};
use std::alloc::Global;
use tea_base::{Blob, SessionId, Text, WantOfMemory};
use text_lines::spell_numbers;

/// The reflection of a session whose journal is kept.
#[derive(Drop)]
pub struct Keeping {
    /// The id of the session.
    pub id: SessionId,
    /// The address at which its reflector listens.
    pub address: Text,
    /// How long it serves.
    pub span: ServingSpan,
    /// The file of the journal.
    pub journal: Text,
    /// The log of the session that goes on, where there is no journal yet.
    pub from: Option<Text>,
    /// What the journal is founded with, once that is known. Then there was none.
    pub opening: Option<Stored>,
    /// Where the session is put, before its reflector listens and in the end.
    pub log: Option<LogPlace>,
}

/// A journal that was read, and goes on.
#[derive(Drop)]
pub struct GoingOn {
    /// What is put and printed before it goes on.
    pub outcome: Outcome,
    /// The session that it tells.
    pub stored: Stored,
    /// The check that its next record follows.
    pub check: [u8; 8],
    /// How many of its bytes stay.
    pub good: u64,
    /// The bytes after these.
    pub torn: Blob,
}

/// Whether all bytes are 0.
fn all_zero(bytes: &[u8]) -> bool
    ensures { result ≡ all_zero bytes.now }
{
    for byte in bytes {
        if *byte != 0 {
            return false;
        }
    }
    true
}

/// The name under which a torn end is put.
fn torn_name(alloc: Global, journal: &Text) -> Result<Text, WantOfMemory>
    ensures { IfOk result (λ name. name ≡ torn_name journal.now) }
{
    let mut name = String::from_str(alloc, journal.as_str())?;
    name.push_str(".torn")?;
    Text::copy(alloc, name.as_str())
}

/// Adds a torn end to the files that are put, if it is one.
fn put_torn(
    alloc: Global,
    files: &mut Puts,
    journal: &Text,
    torn: &[u8],
) -> Result<(), WantOfMemory>
    ensures { OnOk result (files.new ≡ files.old ++ torn_puts journal.now torn.now) }
{
    if all_zero(torn) {
        return Ok(());
    }
    let name = torn_name(alloc, journal)?;
    let bytes = Blob::copy(alloc, torn)?;
    files.push(Put { name, bytes })
}

/// What is kept, borrowed.
fn lent_kept(kept: &Option<Kept>) -> Option<LentKept<'_>>
    ensures { option_map lent_kept result ≡ kept.now }
{
    match kept {
        None => None,
        Some(kept) => Some(LentKept {
            time: kept.time,
            bytes: kept.bytes.bytes(),
        }),
    }
}

/// Adds the session to the files that are put, if there is a name for it.
fn put_log(
    alloc: Global,
    files: &mut Puts,
    log: Option<&LogPlace>,
    stored: &Stored,
) -> Result<(), WantOfMemory>
    requires { IsStored (plain_stored stored.now) }
    ensures { OnOk result (files.new
        ≡ files.old ++ optional_put (log_name (option_copied log.entry)) (stored_spelling (plain_stored stored.now))) }
{
    let Some(log) = log else {
        return Ok(());
    };
    let name = log.name.try_clone()?;
    let bytes = encode_stored(alloc, &stored.log, stored.horizon, lent_kept(&stored.kept))?;
    files.push(Put { name, bytes })
}

/// The line of a torn end, if it is one.
fn torn_line(alloc: Global, torn: &[u8]) -> Result<String, WantOfMemory>
    ensures { IfOk result (λ line. string_bytes line ≡ torn_line torn.now) }
{
    if all_zero(torn) {
        return Ok(String::new(alloc));
    }
    let mut line = spell_numbers(alloc, "torn", &[torn.len() as u64])?;
    line.push_str("\n")?;
    Ok(line)
}

/// What is put and printed before a journal goes on: its torn end, if it has one, and the session, if there is a name for it.
fn outcome_of(
    alloc: Global,
    keeping: &Keeping,
    stored: &Stored,
    torn: &[u8],
) -> Result<Outcome, WantOfMemory>
    requires { IsStored (plain_stored stored.now) }
    ensures { IfOk result (λ outcome. steps_of outcome.files outcome.text
        ≡ going_on_steps keeping.now.journal (log_name keeping.now.log) (plain_stored stored.now) torn.now) }
{
    let mut files = Puts::new(alloc);
    put_torn(alloc, &mut files, &keeping.journal, torn)?;
    put_log(alloc, &mut files, keeping.log.as_ref(), stored)?;
    let line = torn_line(alloc, torn)?;
    Ok(Outcome {
        files,
        text: Blob::from_vec(line.into_bytes()),
    })
}

/// What was read, with what is put and printed before it goes on.
fn going_on(alloc: Global, keeping: &Keeping, read: Read<'_>) -> Result<GoingOn, WantOfMemory>
    requires { IsStored (plain_stored read.stored) }
    ensures place { IfOk result (λ going. kept_place going ≡ read_place read.entry) }
    ensures good { IfOk result (λ going. going.good ≡ read.entry.good) }
    ensures steps { IfOk result (λ going. steps_of going.outcome.files going.outcome.text
        ≡ going_on_steps keeping.now.journal (log_name keeping.now.log)
        (plain_stored read.entry.stored) read.entry.torn.now) }
{
    let Read {
        stored,
        check,
        good,
        torn,
    } = read;
    let outcome = outcome_of(alloc, keeping, &stored, torn)?;
    let torn = Blob::copy(alloc, torn)?;
    Ok(GoingOn {
        outcome,
        stored,
        check,
        good,
        torn,
    })
}

/// What comes of the bytes of a journal: they are read as this session's, or they are none of it.
pub fn read_kept(alloc: Global, keeping: &Keeping, bytes: &[u8]) -> Result<GoingOn, JournalFault>
    ensures read { IfOk result (λ going. GoesOnFrom keeping.now bytes.now going) }
    ensures none { result ≡ Err JournalFault.NoJournal → read_journal keeping.now.id.0 bytes.now ≡ NoJournal }
    ensures other { result ≡ Err JournalFault.OtherSession → read_journal keeping.now.id.0 bytes.now ≡ OtherSession }
{
    what_is_read_may_be_opened(); // for the prover
    let read = read_journal(alloc, &keeping.id, bytes)?;
    Ok(going_on(alloc, keeping, read)?)
}
