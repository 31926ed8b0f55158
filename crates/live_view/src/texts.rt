//! The lines that a view prints behind what it was told.
ghost use Rattle.std.specs.Prelude.{◌≡◌, [], ◌∷◌, codes, IfOk, string_bytes};
ghost use Rattle.view_shell.specs.ViewText.{numbers_line as line_of_numbers, rejoined_line, settled_line, snap_refused_line, snapped_line, reached_time_line, vote_missed_line, voted_line};

use std::alloc::Global;
use tea_base::WantOfMemory;
use view_shell::numbers_line;

/// The time that was waited for.
pub fn time_text(alloc: Global, time: u64) -> Result<String, WantOfMemory>
    ensures { IfOk result (λ text. string_bytes text ≡ reached_time_line time) }
{
    numbers_line(alloc, "time", &[time])
}

/// Each event is acknowledged, so many.
pub fn settled_text(alloc: Global, count: u32) -> Result<String, WantOfMemory>
    ensures { IfOk result (λ text. string_bytes text ≡ settled_line count) }
{
    numbers_line(alloc, "settled", &[u64::from(count)])
}

/// A snapshot of this time is kept.
pub fn snapped_text(alloc: Global, time: u64) -> Result<String, WantOfMemory>
    ensures { IfOk result (λ text. string_bytes text ≡ snapped_line time) }
{
    numbers_line(alloc, "snapped", &[time])
}

/// It is refused.
pub fn refused_text(alloc: Global, code: u8, kept: u64) -> Result<String, WantOfMemory>
    ensures { IfOk result (λ text. string_bytes text ≡ snap_refused_line code kept) }
{
    numbers_line(alloc, "snap-refused", &[u64::from(code), kept])
}

/// The view has joined again, by this entry, and goes on behind so many entries.
pub fn rejoined_text(alloc: Global, joined: u32, from: u32) -> Result<String, WantOfMemory>
    ensures { IfOk result (λ text. string_bytes text ≡ rejoined_line joined from) }
{
    numbers_line(alloc, "rejoined", &[u64::from(joined), u64::from(from)])
}

/// The view voted on this entry, by its event of this number.
pub fn voted_text(alloc: Global, at: u32, number: u32) -> Result<String, WantOfMemory>
    ensures { IfOk result (λ text. string_bytes text ≡ voted_line at number) }
{
    numbers_line(alloc, "voted", &[u64::from(at), u64::from(number)])
}

/// It had so many entries, and so came too late to vote.
pub fn vote_missed_text(alloc: Global, seen: u32) -> Result<String, WantOfMemory>
    ensures { IfOk result (λ text. string_bytes text ≡ vote_missed_line seen) }
{
    numbers_line(alloc, "vote-missed", &[u64::from(seen)])
}

/// The line of this number is none.
pub fn bad_line_text(alloc: Global, number: u64) -> Result<String, WantOfMemory>
    ensures { IfOk result (λ text. string_bytes text ≡ line_of_numbers (codes "bad-line") (number ∷ [])) }
{
    numbers_line(alloc, "bad-line", &[number])
}
