//! Writing a stored session as bytes.
ghost use Rattle.std.specs.Prelude.{◌≡◌, ◌≤◌, ℕ, [], length, IfOk, Some};
ghost use Rattle.std.specs.Option.{IfSome, option_map};
ghost use Rattle.tea_base.specs.Limits.{most_snapshot};
ghost use Rattle.session_log.specs.Room.{Fills, room_for};
ghost use Rattle.session_log.specs.Spelling.{log_spelling};
ghost use Rattle.session_log.specs.Stored.{lent_kept, plain_of, IsStored, kept_spelling, full_spelling, stored_spelling};

use crate::filling::Filling;
use crate::log::{Log, write_log};
use crate::stored::{LentKept, is_log_alone};
use std::alloc::Global;
use tea_base::{Blob, WantOfMemory};

/// Writes what is kept.
#[tactic(auto, unfolding(crate::specs::Stored::kept_spelling))]
fn put_held(out: &mut Filling, kept: LentKept<'_>)
    requires short { length kept.bytes.now ≤ most_snapshot }
    requires room { length (kept_spelling (Some (lent_kept kept))) ≤ out.old.spare }
    ensures { Fills out.old out.new (kept_spelling (Some (lent_kept kept.entry))) }
{
    out.put_u8(1);
    out.put_u64(kept.time);
    out.put_u32(kept.bytes.len() as u32);
    out.put_bytes(kept.bytes);
}

/// Writes what is kept, or that nothing is.
#[tactic(auto, unfolding(crate::specs::Stored::kept_spelling))]
fn put_kept(out: &mut Filling, kept: Option<LentKept<'_>>)
    requires short { IfSome kept (λ k. length k.bytes.now ≤ most_snapshot) }
    requires room { length (kept_spelling (option_map lent_kept kept)) ≤ out.old.spare }
    ensures { Fills out.old out.new (kept_spelling (option_map lent_kept kept.entry)) }
{
    match kept {
        None => out.put_u8(0),
        Some(kept) => put_held(out, kept),
    }
}

/// Writes a log that tells all.
fn write_alone(out: &mut Filling, log: &Log)
    requires { length (log_spelling log.now.entries) ≤ out.old.spare }
    ensures { Fills out.old out.new (log_spelling log.now.entries) }
{
    out.put_bytes(b"TEALOG01");
    write_log(out, log);
}

/// Writes a log that does not tell all, the horizon and what is kept.
fn write_full(out: &mut Filling, log: &Log, horizon: u64, kept: Option<LentKept<'_>>)
    requires short { IfSome kept (λ k. length k.bytes.now ≤ most_snapshot) }
    requires room { length (full_spelling (plain_of log.now.entries horizon (option_map lent_kept kept)))
        ≤ out.old.spare }
    ensures { Fills out.old out.new
        (full_spelling (plain_of log.now.entries horizon (option_map lent_kept kept.entry))) }
{
    out.put_bytes(b"TEALOG02");
    out.put_u64(horizon);
    put_kept(out, kept);
    write_log(out, log);
}

/// The bytes of a stored session, in memory that was taken for them.
pub fn write_stored(mut out: Filling, log: &Log, horizon: u64, kept: Option<LentKept<'_>>) -> Blob
    requires sound { IsStored (plain_of log.now.entries horizon (option_map lent_kept kept)) }
    requires empty { out.bytes ≡ [] }
    requires room { room_for (plain_of log.now.entries horizon (option_map lent_kept kept)) ≤ out.spare }
    ensures { result ≡
        stored_spelling (plain_of log.now.entries horizon (option_map lent_kept kept.entry)) }
{
    if is_log_alone(log, horizon, kept) {
        write_alone(&mut out, log);
        return out.done();
    }
    write_full(&mut out, log, horizon, kept);
    out.done()
}

/// How much memory is taken for a stored session.
fn room_for(log: &Log, kept: Option<LentKept<'_>>) -> usize
    requires { IfSome kept (λ k. length k.bytes.now ≤ most_snapshot) }
    ensures { (horizon : ℕ) → result ≡
        room_for (plain_of log.now.entries horizon (option_map lent_kept kept.entry)) }
{
    let kept = match kept {
        None => 0,
        Some(kept) => kept.bytes.len(),
    };
    33 + kept + 21 * log.len() as usize + log.bytes() as usize
}

/// The bytes of a stored session, in memory of their own. It asks for one that keeps the bounds of
/// [`Stored`](crate::Stored). Where the horizon is the time of the last entry, or 0 of an empty log, and nothing is
/// kept, the bytes are `TEALOG01` and the entries. Else they are `TEALOG02`, the horizon in eight
/// bytes, a byte 0 where nothing is kept and else 1 with the time in eight bytes, the length in four
/// and the bytes, and then the entries. The entries are how many there are, in four bytes, and each
/// but for its seq. Fails for want of memory alone. [`Room`](crate::Room) writes the same without that.
pub fn encode_stored(
    alloc: Global,
    log: &Log,
    horizon: u64,
    kept: Option<LentKept<'_>>,
) -> Result<Blob, WantOfMemory>
    requires { IsStored (plain_of log.now.entries horizon (option_map lent_kept kept)) }
    ensures { IfOk result (λ bytes. bytes ≡
        stored_spelling (plain_of log.now.entries horizon (option_map lent_kept kept.entry))) }
{
    let out = Filling::new(alloc, room_for(log, kept))?;
    Ok(write_stored(out, log, horizon, kept))
}
