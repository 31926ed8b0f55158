//! Reading the entries of a log from their bytes.
ghost use Rattle.std.specs.Prelude.{◌≡◌, [], IfOk, OnOk, OnErr};
ghost use Rattle.std.specs.Option.{IfSome, option_map};
ghost use Rattle.tea_base.specs.Legal.{MayFollow};
ghost use Rattle.byte_fields.specs.Fields.{Decodes, items_at, list_at};
ghost use Rattle.session_log.specs.LogState.{with_next};
ghost use Rattle.entry_fields.specs.Lent.{lent_what};
ghost use Rattle.session_log.specs.Lent.{lent_entry};
ghost use Rattle.session_log.specs.Reading.{entry_after};
ghost use Rattle.session_log.specs.Tally.{TellsLog};

use crate::lent::{LentLogEntry, entry_at};
use crate::log::Log;
use crate::tally::{Tally, learn, may_follow, no_entries};
use byte_fields::u32_at;
use entry_fields::LentWhat;
use std::alloc::Global;
use tea_base::{WantOfMemory, What};

/// Why no stored session was read.
#[derive(Clone, Copy, Debug, PartialEq, Eq)]
pub enum LogFault {
    /// No stored session has this spelling.
    BadLog,
    WantOfMemory,
}

impl From<WantOfMemory> for LogFault {
    ghost use Rattle.session_log.specs.declared.reading.LogFault.TheVariants as faults;

    ghost from_gives = { λ _ fault. fault ≡ faults.WantOfMemory };

    fn from(_error: WantOfMemory) -> Self {
        LogFault::WantOfMemory
    }
}

/// The next entry, where the log may go on with it.
#[tactic(auto, unfolding(crate::specs::Reading::entry_after))]
fn next_of<'a>(log: &Log, tally: &Tally, bytes: &'a [u8]) -> Option<(LentLogEntry<'a>, &'a [u8])>
    requires { TellsLog tally.now log.now.entries }
    ensures read { option_map (λ x. (lent_entry log.now.entries x.0, x.1.now)) result ≡
        entry_after log.now.entries bytes.now }
    ensures follows { IfSome result (λ x.
        MayFollow log.now.entries (lent_entry log.now.entries x.0)) }
{
    let (entry, rest) = entry_at(bytes)?;
    if !may_follow(tally, log, &entry) {
        return None;
    }
    Some((entry, rest))
}

/// Appends an entry that the log may go on with. Without memory the entries are as they were.
pub fn append(log: &mut Log, entry: &LentLogEntry<'_>) -> Result<(), WantOfMemory>
    requires { MayFollow log.old.entries (lent_entry log.old.entries entry.now) }
    ensures ok { OnOk result (log.new.entries ≡
        with_next log.old.entries entry.now.time entry.now.view (lent_what entry.now.what)) }
    ensures err { OnErr result (log.new.entries ≡ log.old.entries) }
{
    match &entry.what {
        LentWhat::Join => {
            log.reserve(1, 0)?;
            log.push(entry.time, entry.view, &What::Join);
        }
        LentWhat::Exit => {
            log.reserve(1, 0)?;
            log.push(entry.time, entry.view, &What::Exit);
        }
        LentWhat::Event { number, payload } => {
            log.reserve(1, payload.len() as u64)?;
            log.push_event(entry.time, entry.view, *number, payload);
        }
    }
    Ok(())
}

/// So many entries, from the first one on, what is told of them, and the bytes after them.
fn entries_of(alloc: Global, count: u32, bytes: &[u8]) -> Result<(Log, Tally, &[u8]), LogFault>
    ensures read { Decodes LogFault.BadLog (λ x. (x.0.entries, x.2.now)) result
        (items_at entry_after [] count bytes.now) }
    ensures told { IfOk result (λ x. TellsLog x.1 x.0.entries) }
{
    let mut log = Log::new(alloc);
    let mut tally = no_entries(alloc);
    let mut rest = bytes;
    for _ in 0..count {
        let (entry, after) = next_of(&log, &tally, rest).ok_or(LogFault::BadLog)?;
        learn(&mut tally, &log, &entry)?;
        append(&mut log, &entry)?;
        rest = after;
    }
    Ok((log, tally, rest))
}

/// The entries behind how many there are, what is told of them, and the bytes after them.
pub fn entries_at(alloc: Global, bytes: &[u8]) -> Result<(Log, Tally, &[u8]), LogFault>
    ensures read { Decodes LogFault.BadLog (λ x. (x.0.entries, x.2.now)) result
        (list_at entry_after bytes.now) }
    ensures told { IfOk result (λ x. TellsLog x.1 x.0.entries) }
{
    let (count, rest) = u32_at(bytes).ok_or(LogFault::BadLog)?;
    entries_of(alloc, count, rest)
}
