//! Reading values from their spelling.
ghost use Rattle.std.specs.Prelude.{◌≡◌, ◌≢◌, ◌+◌, ◌/◌, [], IfOk, Err, length, encode_utf8_all};
ghost use Rattle.std.specs.Str.{chars};
ghost use Rattle.byte_fields.specs.Fields.{Decodes, whole, items_at, text_at as text_field_at};
ghost use Rattle.model_value.specs.Plain.{PlainValue, InBounds, weight, weight_of_all, values_weight, text_weight};
ghost use Rattle.model_value.specs.Reading.{value_at, value_of_kind, items_in, bounded_at, weighed_at};
ghost use Rattle.model_value.specs.Spelling.{value_spelling, IsValue};
ghost use Rattle.model_value.specs.View.{plain, plains, plain_values};

use crate::fault::ValueFault;
use crate::measure::{MOST_DEPTH, MOST_WEIGHT};
use crate::value::Value;
use byte_fields::{text_at, u8_at, u32_at, u64_at};
use std::alloc::Global;
use tea_base::{Text, push};

/// The value that the bytes spell, as [`encode`](crate::encode) writes it, in memory of its own.
///
/// `BadValue` comes exactly where no value in bounds has this spelling: it comes too where bytes follow the value. No
/// count is trusted, so memory is taken only as items come. Reading stops where the value would be heavier, or lists
/// nest deeper, than in a value in bounds.
pub fn decode(alloc: Global, bytes: &[u8]) -> Result<Value, ValueFault>
    // What is read is in bounds, and spelled so.
    ensures spelled { IfOk result (λ value. bytes.now ≡ value_spelling (plain value)) }
    ensures bounds { IfOk result (λ value. InBounds (plain value)) }
    // No value in bounds has a spelling that is refused.
    ensures bad { result ≡ Err ValueFault.BadValue → (value : PlainValue) → IsValue value → InBounds value
        → bytes.now ≢ value_spelling value }
    // What is spelled so is read, unless memory runs out.
    ensures only { (value : PlainValue) → IsValue value → InBounds value → bytes.now ≡ value_spelling value
        → IfOk result (λ read. plain read ≡ value) }
{
    read_all(alloc, bytes)
}

fn read_all(alloc: Global, bytes: &[u8]) -> Result<Value, ValueFault>
    ensures { Decodes ValueFault.BadValue plain result (whole bounded_at bytes.now) }
{
    let (value, rest) = bounded_at(alloc, bytes)?;
    if !rest.is_empty() {
        return Err(ValueFault::BadValue);
    }
    Ok(value)
}

/// The value in bounds at the front, in memory of its own, and the bytes behind it.
///
/// `BadValue` comes exactly where the bytes begin with no such value, as [`decode`] reads it.
pub fn bounded_at(alloc: Global, bytes: &[u8]) -> Result<(Value, &[u8]), ValueFault>
    ensures { Decodes ValueFault.BadValue (λ x. (plain x.0, x.1.now)) result (bounded_at bytes.now) }
{
    let (value, _left, rest) = value_in(alloc, MOST_DEPTH, MOST_WEIGHT, bytes)?;
    Ok((value, rest))
}

// Each reader below gives what its bytes begin with if that weighs no more than the room, what its weight leaves of the
// room, and the bytes behind it. It stops where the room is used up. Lists nest at most `levels` deep.

#[cycle(value_in)]
#[tactic(auto, using(crate::proofs::Weighing::by_room))]
fn value_in(
    alloc: Global,
    levels: u32,
    room: u32,
    bytes: &[u8],
) -> Result<(Value, u32, &[u8]), ValueFault>
    ensures { Decodes ValueFault.BadValue (λ x. ((plain x.0, x.1), x.2.now)) result
        (weighed_at weight room (value_at levels) bytes.now) }
{
    // Each value weighs at least 1.
    if room == 0 {
        return Err(ValueFault::BadValue);
    }
    let (kind, rest) = u8_at(bytes).ok_or(ValueFault::BadValue)?;
    value_of_kind(alloc, levels, room - 1, kind, rest)
}

/// What the byte for a kind says of the bytes behind it. The room has the 1 that each value weighs already taken off.
#[cycle(value_in)]
fn value_of_kind(
    alloc: Global,
    levels: u32,
    room: u32,
    kind: u8,
    bytes: &[u8],
) -> Result<(Value, u32, &[u8]), ValueFault>
    ensures { Decodes ValueFault.BadValue (λ x. ((plain x.0, x.1), x.2.now)) result
        (weighed_at weight (room + 1) (value_of_kind (items_in levels) kind) bytes.now) }
{
    match kind {
        0 => Ok((Value::Nil, room, bytes)),
        1 => Ok((Value::Bool(false), room, bytes)),
        2 => Ok((Value::Bool(true), room, bytes)),
        3 => {
            let (word, rest) = u64_at(bytes).ok_or(ValueFault::BadValue)?;
            Ok((Value::Int(word.cast_signed()), room, rest))
        }
        4 => {
            let (text, left, rest) = text_in(alloc, room, bytes)?;
            Ok((Value::Text(text), left, rest))
        }
        5 => {
            let (object, rest) = u32_at(bytes).ok_or(ValueFault::BadValue)?;
            Ok((Value::Ref(object), room, rest))
        }
        6 => {
            let (items, left, rest) = items_in(alloc, levels, room, bytes)?;
            Ok((Value::List(items), left, rest))
        }
        _ => Err(ValueFault::BadValue),
    }
}

/// A text, of which 1 of the weight is already taken off the room.
fn text_in(alloc: Global, room: u32, bytes: &[u8]) -> Result<(Text, u32, &[u8]), ValueFault>
    ensures { Decodes ValueFault.BadValue (λ x. ((x.0, x.1), x.2.now)) result
        (weighed_at text_weight (room + 1) text_field_at bytes.now) }
{
    let (text, rest) = text_at(bytes).ok_or(ValueFault::BadValue)?;
    let blocks = blocks(text);
    if (room as usize) < blocks {
        return Err(ValueFault::BadValue);
    }
    Ok((Text::copy(alloc, text)?, room - blocks as u32, rest))
}

/// How many times 16 bytes of UTF-8 are begun in a text.
fn blocks(text: &str) -> usize
    ensures { result ≡ (length (encode_utf8_all (chars text.now)) + 15) / 16 }
{
    text.len().div_ceil(16)
}

/// The items of a list, which is itself counted among the levels.
#[cycle(value_in)]
#[tactic(auto, using(crate::proofs::Weighing::by_room))]
fn items_in(
    alloc: Global,
    levels: u32,
    room: u32,
    bytes: &[u8],
) -> Result<(Vec<Value>, u32, &[u8]), ValueFault>
    ensures { Decodes ValueFault.BadValue (λ x. ((plains x.0.items, x.1), x.2.now)) result
        (weighed_at weight_of_all room (items_in levels) bytes.now) }
{
    if levels == 0 {
        return Err(ValueFault::BadValue);
    }
    let (count, rest) = u32_at(bytes).ok_or(ValueFault::BadValue)?;
    items_of(alloc, levels - 1, room, count, rest)
}

/// So many values.
#[cycle(value_in)]
fn items_of(
    alloc: Global,
    levels: u32,
    room: u32,
    count: u32,
    bytes: &[u8],
) -> Result<(Vec<Value>, u32, &[u8]), ValueFault>
    ensures { Decodes ValueFault.BadValue (λ x. ((plain_values x.0.items, x.1), x.2.now)) result
        (weighed_at values_weight room (items_at (λ _. value_at levels) [] count) bytes.now) }
{
    let mut items = Vec::new(alloc);
    let mut left = room;
    let mut rest = bytes;
    for _ in 0..count {
        let (item, behind, after) = value_in(alloc, levels, left, rest)?;
        push(&mut items, item)?;
        left = behind;
        rest = after;
    }
    Ok((items, left, rest))
}

/// A text field, in memory of its own, and the bytes behind it: a length of four bytes, and so many bytes of UTF-8 (RFC
/// 3629).
///
/// `BadValue` comes exactly where the bytes begin with no such field.
pub fn owned_text_at(alloc: Global, bytes: &[u8]) -> Result<(Text, &[u8]), ValueFault>
    ensures { Decodes ValueFault.BadValue (λ x. (x.0, x.1.now)) result (text_field_at bytes.now) }
{
    let (text, rest) = text_at(bytes).ok_or(ValueFault::BadValue)?;
    Ok((Text::copy(alloc, text)?, rest))
}
