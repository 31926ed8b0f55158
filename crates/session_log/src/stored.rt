//! A session as it is stored, so that it can go on.
ghost use Rattle.std.specs.Option.{option_map};
ghost use Rattle.std.specs.Prelude.{◌≡◌, ◌≢◌, ◌&&◌, not, IfOk, Err};
ghost use Rattle.byte_fields.specs.Fields.{Decodes, whole};
ghost use Rattle.session_log.specs.Tally.{TellsLog};
ghost use Rattle.session_log.specs.Stored.{PlainStored, lent_kept, plain_of, plain_stored, IsStored, is_log_alone, stored_spelling};
ghost use Rattle.session_log.specs.StoredReading.{may_be_kept, may_be_stored, kept_of_mark, kept_at, alone_at, told_at, stored_of_mark, stored_at};

use crate::log::Log;
use crate::reading::{LogFault, entries_at};
use crate::tally::Tally;
use byte_fields::{blob_at, bytes_at, u8_at, u64_at};
use std::alloc::Global;
use tea_base::{Blob, MOST_SNAPSHOT, TIME_LIMIT, WantOfMemory};

/// A snapshot that a session keeps.
#[derive(Debug, Drop)]
pub struct Kept {
    /// Its TeaTime, in microseconds.
    pub time: u64,
    /// Its spelling, which is not read here.
    pub bytes: Blob,
}

/// What a session leaves for one that goes on from it. In what `decode_stored` gives no entry of the log
/// is later than the horizon. The horizon and the number of views that are here are together below 2^53.
/// What is kept has a time of at most the horizon, and at most 4,194,304 bytes.
#[derive(Drop)]
pub struct Stored {
    /// What was stamped.
    pub log: Log,
    /// The TeaTime up to which nothing more is stamped, in microseconds.
    pub horizon: u64,
    /// The snapshot that joining views start from, if one is kept.
    pub kept: Option<Kept>,
}

/// The same, its bytes borrowed.
#[derive(Clone, Copy, Debug)]
pub struct LentKept<'a> {
    /// Its TeaTime, in microseconds.
    pub time: u64,
    /// Its spelling.
    pub bytes: &'a [u8],
}

/// What is kept, borrowed.
fn lent(kept: &Option<Kept>) -> Option<LentKept<'_>>
    ensures { option_map lent_kept result ≡ kept.now }
{
    match kept {
        None => None,
        Some(kept) => Some(LentKept {
            time: kept.time,
            bytes: kept.bytes.bytes(),
        }),
    }
}

/// Whether the log tells all that is stored.
pub fn is_log_alone(log: &Log, horizon: u64, kept: Option<LentKept<'_>>) -> bool
    ensures { result ≡ is_log_alone
        (plain_of log.now.entries horizon (option_map lent_kept kept.entry)) }
{
    match kept {
        None => horizon == log.last_time(),
        Some(_) => false,
    }
}

/// What is kept, in memory of its own.
fn held_at(alloc: Global, bytes: &[u8]) -> Result<(Option<Kept>, &[u8]), LogFault>
    ensures { Decodes LogFault.BadLog (λ x. (x.0, x.1.now)) result (kept_of_mark 1 bytes.now) }
{
    let (time, rest) = u64_at(bytes).ok_or(LogFault::BadLog)?;
    let (field, rest) = blob_at(rest).ok_or(LogFault::BadLog)?;
    let kept = Kept {
        time,
        bytes: Blob::copy(alloc, field)?,
    };
    Ok((Some(kept), rest))
}

/// What is kept, or that nothing is.
#[tactic(auto, unfolding(crate::specs::StoredReading::kept_at))]
fn kept_at(alloc: Global, bytes: &[u8]) -> Result<(Option<Kept>, &[u8]), LogFault>
    ensures { Decodes LogFault.BadLog (λ x. (x.0, x.1.now)) result (kept_at bytes.now) }
{
    let (mark, rest) = u8_at(bytes).ok_or(LogFault::BadLog)?;
    match mark {
        0 => Ok((None, rest)),
        1 => held_at(alloc, rest),
        _ => Err(LogFault::BadLog),
    }
}

/// Whether what is kept is in bounds.
fn may_be_kept(horizon: u64, kept: &Option<Kept>) -> bool
    ensures { result ≡ may_be_kept horizon kept.now }
{
    match kept {
        None => true,
        Some(kept) => kept.time <= horizon && kept.bytes.len() <= MOST_SNAPSHOT,
    }
}

/// Whether the times and what is kept are in bounds.
fn may_be_stored(stored: &Stored, tally: &Tally) -> bool
    requires { TellsLog tally.now stored.now.log.entries }
    ensures { result ≡ may_be_stored (plain_stored stored.now) }
{
    tally.time <= stored.horizon
        && stored.horizon.saturating_add(u64::from(tally.views_here)) < TIME_LIMIT
        && may_be_kept(stored.horizon, &stored.kept)
}

/// A log that tells all.
#[tactic(auto, unfolding(crate::specs::StoredReading::alone_at))]
fn alone_at(alloc: Global, bytes: &[u8]) -> Result<(Stored, &[u8]), LogFault>
    ensures { Decodes LogFault.BadLog (λ x. (plain_stored x.0, x.1.now)) result (alone_at bytes.now) }
{
    let (log, tally, rest) = entries_at(alloc, bytes)?;
    let horizon = log.last_time();
    let stored = Stored {
        log,
        horizon,
        kept: None,
    };
    if !may_be_stored(&stored, &tally) {
        return Err(LogFault::BadLog);
    }
    Ok((stored, rest))
}

/// The horizon, what is kept and the log, where the log does not tell all.
#[tactic(auto, unfolding(crate::specs::StoredReading::told_at))]
fn told_at(alloc: Global, bytes: &[u8]) -> Result<(Stored, &[u8]), LogFault>
    ensures { Decodes LogFault.BadLog (λ x. (plain_stored x.0, x.1.now)) result (told_at bytes.now) }
{
    let (horizon, rest) = u64_at(bytes).ok_or(LogFault::BadLog)?;
    let (kept, rest) = kept_at(alloc, rest)?;
    let (log, tally, rest) = entries_at(alloc, rest)?;
    let stored = Stored { log, horizon, kept };
    if !tells_more(&stored, &tally) {
        return Err(LogFault::BadLog);
    }
    Ok((stored, rest))
}

/// Whether all is in bounds, and the log alone does not tell it.
fn tells_more(stored: &Stored, tally: &Tally) -> bool
    requires { TellsLog tally.now stored.now.log.entries }
    ensures { result ≡ (not (is_log_alone (plain_stored stored.now)) && may_be_stored (plain_stored stored.now)) }
{
    !is_log_alone(&stored.log, stored.horizon, lent(&stored.kept)) && may_be_stored(stored, tally)
}

/// What a mark says to read.
fn stored_of_mark<'a>(
    alloc: Global,
    mark: &[u8],
    bytes: &'a [u8],
) -> Result<(Stored, &'a [u8]), LogFault>
    ensures { Decodes LogFault.BadLog (λ x. (plain_stored x.0, x.1.now)) result
        (stored_of_mark mark.now bytes.now) }
{
    if mark == b"TEALOG01".as_slice() {
        return alone_at(alloc, bytes);
    }
    if mark == b"TEALOG02".as_slice() {
        return told_at(alloc, bytes);
    }
    Err(LogFault::BadLog)
}

/// What is spelled by all of the bytes.
#[tactic(auto, unfolding(crate::specs::StoredReading::stored_at))]
fn read_stored(alloc: Global, bytes: &[u8]) -> Result<Stored, LogFault>
    ensures { Decodes LogFault.BadLog (λ stored. plain_stored stored) result (whole stored_at bytes.now) }
{
    let (mark, rest) = bytes_at(bytes, 8).ok_or(LogFault::BadLog)?;
    let (stored, rest) = stored_of_mark(alloc, mark, rest)?;
    if !rest.is_empty() {
        return Err(LogFault::BadLog);
    }
    Ok(stored)
}

/// The stored session that the bytes spell, as `encode_stored` writes it. `BadLog` comes exactly
/// where no stored session has this spelling: it comes too where bytes follow the last entry, and
/// where the bytes begin with `TEALOG02` and the log alone tells all. No count and no length is
/// trusted, so memory is taken only as entries and bytes come.
pub fn decode_stored(alloc: Global, bytes: &[u8]) -> Result<Stored, LogFault>
    // What is read is a stored session.
    ensures sound { IfOk result (λ stored. IsStored (plain_stored stored)) }
    // What is read is spelled so.
    ensures spelled { IfOk result (λ stored. bytes.now ≡ stored_spelling (plain_stored stored)) }
    // No stored session has a spelling that is refused.
    ensures bad { result ≡ Err LogFault.BadLog →
        (stored : PlainStored) → IsStored stored → bytes.now ≢ stored_spelling stored }
    // What is spelled so is read, unless memory runs out.
    ensures only { (stored : PlainStored) → IsStored stored → bytes.now ≡ stored_spelling stored →
        IfOk result (λ read. plain_stored read ≡ stored) }
{
    read_stored(alloc, bytes)
}
