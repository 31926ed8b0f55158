//! Reading a journal.
ghost use Rattle.std.specs.Prelude.{◌≡◌, ◌+◌, ◌-◌, IfOk, Ok, Err, true, false, length, nat_lt};
ghost use Rattle.std.specs.Option.{IfSome, option_map};
ghost use Rattle.tea_base.specs.Limits.{time_limit};
ghost use Rattle.session_log.specs.Tally.{TellsLog};
ghost use Rattle.session_log.specs.Stored.{plain_stored};
ghost use Rattle.session_journal.specs.Lent.{lent_change};
ghost use Rattle.session_journal.specs.State.{after_change, may_come, founded};
ghost use Rattle.session_journal.specs.Journal.{header_at, first_check, read_records, read_journal, NoJournal, OtherSession, Goes};
ghost use Rattle.session_journal.specs.Reading.{place_of, read_place};
ghost use Rattle.session_journal.specs.declared.change.Change.TheVariants.{Came};
ghost use Rattle.entry_fields.specs.Lent.{lent_what};

use crate::change::LentChange;
use crate::check::check_of;
use crate::records::record_at;
use byte_fields::{after_mark, bytes_at};
use session_log::{Kept, LentLogEntry, Log, Stored, Tally, append, learn, may_follow, no_entries};
use std::alloc::Global;
use tea_base::{Blob, MOST_SNAPSHOT, SessionId, TIME_LIMIT, WantOfMemory};

/// Why no journal was read.
#[derive(Clone, Copy, Debug, PartialEq, Eq)]
pub enum JournalFault {
    /// The bytes do not begin with a whole header.
    NoJournal,
    /// The journal is that of another session.
    OtherSession,
    WantOfMemory,
}

impl From<WantOfMemory> for JournalFault {
    ghost use Rattle.session_journal.specs.declared.reading.JournalFault.TheVariants as faults;

    ghost from_gives = { λ _ fault. fault ≡ faults.WantOfMemory };

    fn from(_error: WantOfMemory) -> Self {
        JournalFault::WantOfMemory
    }
}

/// What a journal is read as.
#[derive(Drop)]
pub struct Read<'a> {
    /// The session.
    pub stored: Stored,
    /// The check that the next record follows.
    pub check: [u8; 8],
    /// How many bytes are the header and the records that were read.
    pub good: u64,
    /// The bytes after these, which are no record that may come.
    pub torn: &'a [u8],
}

/// Whether there is time left for the Exit of each view that is here.
fn has_room(horizon: u64, views_here: u32) -> bool
    ensures { result ≡ nat_lt (horizon + views_here) time_limit }
{
    horizon.saturating_add(u64::from(views_here)) < TIME_LIMIT
}

/// Takes an entry, and tells whether it may come. If not, nothing more is read.
fn take_entry(
    stored: &mut Stored,
    tally: &mut Tally,
    entry: LentLogEntry<'_>,
) -> Result<bool, WantOfMemory>
    requires { TellsLog tally.old stored.old.log.entries }
    ensures may { IfOk result (λ took. took
        ≡ may_come (plain_stored stored.old) (Came entry.entry.time entry.entry.view (lent_what entry.entry.what))) }
    ensures took { result ≡ Ok true
        → plain_stored stored.new ≡ after_change (plain_stored stored.old)
        (Came entry.entry.time entry.entry.view (lent_what entry.entry.what)) }
    ensures told { result ≡ Ok true → TellsLog tally.new stored.new.log.entries }
    ensures left { result ≡ Ok false → plain_stored stored.new ≡ plain_stored stored.old }
{
    if !may_follow(tally, &stored.log, &entry) {
        return Ok(false);
    }
    learn(tally, &stored.log, &entry)?;
    let horizon = stored.horizon.max(entry.time);
    if !has_room(horizon, tally.views_here) {
        return Ok(false);
    }
    append(&mut stored.log, &entry)?;
    stored.horizon = horizon;
    Ok(true)
}

/// Takes a change, and tells whether it may come. If not, nothing more is read.
fn take(
    alloc: Global,
    stored: &mut Stored,
    tally: &mut Tally,
    change: LentChange<'_>,
) -> Result<bool, WantOfMemory>
    requires { TellsLog tally.old stored.old.log.entries }
    ensures may { IfOk result (λ took. took ≡ may_come (plain_stored stored.old) (lent_change change.entry)) }
    ensures took { result ≡ Ok true
        → plain_stored stored.new ≡ after_change (plain_stored stored.old) (lent_change change.entry) }
    ensures told { result ≡ Ok true → TellsLog tally.new stored.new.log.entries }
    ensures left { result ≡ Ok false → plain_stored stored.new ≡ plain_stored stored.old }
{
    match change {
        LentChange::Came { time, view, what } => take_entry(
            stored,
            tally,
            LentLogEntry { time, view, what },
        ),
        LentChange::Reached { time } => {
            if time <= stored.horizon || !has_room(time, tally.views_here) {
                return Ok(false);
            }
            stored.horizon = time;
            Ok(true)
        }
        LentChange::Kept { time, bytes } => {
            if time > stored.horizon
                || bytes.len() > MOST_SNAPSHOT
                || !has_room(stored.horizon, tally.views_here)
            {
                return Ok(false);
            }
            let bytes = Blob::copy(alloc, bytes)?;
            stored.kept = Some(Kept { time, bytes });
            Ok(true)
        }
    }
}

/// A session without records. Takes no memory.
fn no_records(alloc: Global) -> Stored
    ensures { plain_stored result ≡ founded }
{
    Stored {
        log: Log::new(alloc),
        horizon: 0,
        kept: None,
    }
}

/// What is read, of so many bytes.
fn read_of<'a>(stored: Stored, check: [u8; 8], all: u64, torn: &'a [u8]) -> Read<'a>
    ensures read { read_place result ≡ place_of stored check torn.now }
    ensures good { result.good ≡ all - length torn.now }
{
    let good = all.saturating_sub(torn.len() as u64);
    Read {
        stored,
        check,
        good,
        torn,
    }
}

/// The records after a check, in the last bytes of so many.
fn read_records(
    alloc: Global,
    first: [u8; 8],
    all: u64,
    bytes: &[u8],
) -> Result<Read<'_>, WantOfMemory>
    ensures read { IfOk result (λ read. read_place read ≡ read_records first bytes.now) }
    ensures good { IfOk result (λ read. read.good ≡ all - length read.torn.now) }
{
    let mut stored = no_records(alloc);
    let mut tally = no_entries(alloc);
    let mut check = first;
    let mut rest = bytes;
    for _ in 0..bytes.len() {
        let Some((change, frame)) = record_at(&check, rest) else {
            return Ok(read_of(stored, check, all, rest));
        };
        let took = take(alloc, &mut stored, &mut tally, change)?;
        if !took {
            return Ok(read_of(stored, check, all, rest));
        }
        check = frame.check;
        rest = frame.rest;
    }
    Ok(read_of(stored, check, all, rest))
}

/// The check that the first record follows: that of the header after nothing. Takes no memory.
pub fn first_check(id: &SessionId) -> [u8; 8]
    ensures { result ≡ first_check id.now.0 }
{
    check_of(&[], b"TEALOG03", &id.0)
}

/// The id that a journal names, and what comes after the header.
fn header_at(bytes: &[u8]) -> Option<(&[u8], &[u8])>
    ensures read { option_map (λ x. (x.0.now, x.1.now)) result ≡ header_at 32 bytes.now }
    ensures len { IfSome result (λ x. length x.0.now ≡ 32) }
{
    let named = after_mark(bytes, b"TEALOG03")?;
    bytes_at(named, 32)
}

/// The id of 32 bytes.
fn id_of(bytes: &[u8]) -> SessionId
    requires { length bytes.now ≡ 32 }
    ensures { result.0 ≡ bytes.now }
{
    let mut id = [0; 32];
    id.copy_from_slice(bytes);
    SessionId(id)
}

/// The session that a journal names. `None` comes exactly where the bytes do not begin with a whole header. Takes no memory.
pub fn session_of(bytes: &[u8]) -> Option<SessionId>
    ensures { option_map (λ id. id.0) result ≡ option_map (λ x. x.0) (header_at 32 bytes.now) }
{
    let (named, _) = header_at(bytes)?;
    Some(id_of(named))
}

/// The session of this id as its journal tells it: its records from the front on, as long as each is whole, has the right
/// check and may come. `NoJournal` comes exactly where the bytes do not begin with a whole header, and `OtherSession` exactly
/// where they begin with the header of another session. Memory is taken only as records come.
#[tactic(auto, unfolding(crate::specs::Journal::read_journal))]
pub fn read_journal<'a>(
    alloc: Global,
    id: &SessionId,
    bytes: &'a [u8],
) -> Result<Read<'a>, JournalFault>
    ensures read { IfOk result (λ read. read_journal id.now.0 bytes.now ≡ Goes (read_place read)) }
    ensures good { IfOk result (λ read. read.good ≡ length bytes.now - length read.torn.now) }
    ensures none { result ≡ Err JournalFault.NoJournal → read_journal id.now.0 bytes.now ≡ NoJournal }
    ensures other { result ≡ Err JournalFault.OtherSession → read_journal id.now.0 bytes.now ≡ OtherSession }
{
    let (named, rest) = header_at(bytes).ok_or(JournalFault::NoJournal)?;
    if named != id.0.as_slice() {
        return Err(JournalFault::OtherSession);
    }
    let read = read_records(alloc, first_check(id), bytes.len() as u64, rest)?;
    Ok(read)
}
