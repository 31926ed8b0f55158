//! The lines of the faults that a world counts.
ghost use Rattle.std.specs.Prelude.{◌≡◌, ◌<◌, ◌++◌, [], IfOk, OnOk, string_bytes, slice_index_or};
ghost use Rattle.world_lines.specs.WorldLines.{fault_part, fault_parts, fault_words};

use crate::words::{push_number, push_word};
use std::alloc::Global;
use tea_base::WantOfMemory;

/// The kind of fault that has its count at a place.
pub fn fault_word(place: usize) -> &'static str
    requires { place < 14 }
    ensures { result.now ≡ slice_index_or fault_words place [] }
{
    match place {
        0 => "overflow",
        1 => "zero-divisor",
        2 => "bad-kind",
        3 => "bad-index",
        4 => "no-object",
        5 => "no-method",
        6 => "arity",
        7 => "fuel",
        8 => "depth",
        9 => "size",
        10 => "instant",
        11 => "time",
        12 => "full",
        _ => "bad-event",
    }
}

/// The line of a kind of fault that was counted so often, and nothing for one that was not.
fn fault_part(alloc: Global, kind: &str, count: u64) -> Result<String, WantOfMemory>
    ensures { IfOk result (λ line. string_bytes line ≡ fault_part kind.now count) }
{
    if count == 0 {
        return Ok(String::new(alloc));
    }
    let mut line = String::from_str(alloc, "fault")?;
    push_word(&mut line, kind)?;
    push_number(&mut line, count)?;
    line.push_str("\n")?;
    Ok(line)
}

/// The lines of the kinds of faults that were counted, in their order.
pub fn fault_lines(alloc: Global, counts: &[u64; 14]) -> Result<String, WantOfMemory>
    ensures { IfOk result (λ text. string_bytes text ≡ fault_parts fault_words counts.now) }
{
    let mut text = String::new(alloc);
    for place in 0..14 {
        text.push_str(fault_part(alloc, fault_word(place), counts[place])?.as_str())?;
    }
    Ok(text)
}
