//! The weight and the depth of values, and their bounds.
ghost use Rattle.std.specs.Prelude.{◌≡◌, ◌↔◌, ◌^◌, ◌<◌, IsTrue};
ghost use Rattle.model_value.specs.Plain.{weight as weight_of, weight_of_all, AreWeighable, depth as depth_of, greatest_depth, values_weight as weight_of_values, text_weight as weight_of_text, InBounds, AllInBounds, TextFits, LeavesRoom};
ghost use Rattle.model_value.specs.Room.{IsRoomBehind};
ghost use Rattle.model_value.specs.View.{plain, plains, plain_values};

use crate::value::{Value, Values};
use tea_base::Text;

/// The greatest weight of a value in bounds.
pub const MOST_WEIGHT: u32 = 4096;

/// The greatest depth of a value in bounds.
pub const MOST_DEPTH: u32 = 32;

/// The weight of a value: 1 of Nil, Bool, Int or Ref, 1 and one more for each 16 bytes of UTF-8 begun of a Text, and 1
/// and the weights of its items of a List. The weight has to be below 2^32.
#[cycle(weight)]
pub fn weight(value: &Value) -> u32
    requires { weight_of (plain value.now) < 2 ^ 32 }
    ensures { result ≡ weight_of (plain value.now) }
{
    match value {
        Value::Nil | Value::Bool(_) | Value::Int(_) | Value::Ref(_) => 1,
        Value::Text(text) => 1 + text.bytes().len().div_ceil(16) as u32,
        Value::List(items) => 1 + weight_all(items),
    }
}

#[cycle(weight)]
fn weight_all(items: &[Value]) -> u32
    requires { weight_of_all (plains items.now) < 2 ^ 32 }
    ensures { result ≡ weight_of_all (plains items.now) }
{
    let mut sum = 0;
    for item in items {
        sum += weight(item);
    }
    sum
}

/// The weight of a text as the value that it is: 1, and one more for each 16 bytes of UTF-8 begun.
pub fn text_weight(text: &Text) -> u64
    ensures weight { result ≡ weight_of_text text.now }
    ensures bound { result < 2 ^ 61 }
{
    1 + text.bytes().len().div_ceil(16) as u64
}

/// The weight of values together. They have to be fewer than 2^32, and the weight of each below 2^32.
pub fn values_weight(values: &[Value]) -> u64
    requires { AreWeighable (plain_values values.now) }
    ensures { result ≡ weight_of_values (plain_values values.now) }
{
    let mut sum = 0;
    for value in values {
        sum += u64::from(weight(value));
    }
    sum
}

/// How deep lists nest in a value: 1 more than its deepest item of a List, 1 of the empty List, and 0 of any other
/// value. The depth has to be below 2^32.
#[cycle(depth)]
pub fn depth(value: &Value) -> u32
    requires { depth_of (plain value.now) < 2 ^ 32 }
    ensures { result ≡ depth_of (plain value.now) }
{
    match value {
        Value::List(items) => 1 + depth_all(items),
        _ => 0,
    }
}

#[cycle(depth)]
fn depth_all(items: &[Value]) -> u32
    requires { greatest_depth (plains items.now) < 2 ^ 32 }
    ensures { result ≡ greatest_depth (plains items.now) }
{
    let mut most: u32 = 0;
    for item in items {
        most = most.max(depth(item));
    }
    most
}

/// Whether a value has a weight of at most [`MOST_WEIGHT`] and a depth of at most [`MOST_DEPTH`]. Any value may be
/// asked about.
pub fn in_bounds(value: &Value) -> bool
    ensures { IsTrue result ↔ InBounds (plain value.now) }
{
    room_behind(value, MOST_WEIGHT as usize, MOST_DEPTH).is_some()
}

/// What a value's weight leaves of the room, or None where the weight is greater or lists nest deeper than the levels.
#[cycle(room_behind)]
fn room_behind(value: &Value, room: usize, levels: u32) -> Option<usize>
    ensures { LeavesRoom result room (weight_of (plain value.now)) levels (depth_of (plain value.now)) }
{
    match value {
        Value::Nil | Value::Bool(_) | Value::Int(_) | Value::Ref(_) => room.checked_sub(1),
        Value::Text(text) => room.checked_sub(1 + text.bytes().len().div_ceil(16)),
        Value::List(items) => {
            room_behind_all(items, room.checked_sub(1)?, levels.checked_sub(1)?)
        }
    }
}

#[cycle(room_behind)]
fn room_behind_all(items: &[Value], room: usize, levels: u32) -> Option<usize>
    ensures { LeavesRoom result room (weight_of_all (plains items.now)) levels (greatest_depth (plains items.now)) }
{
    let mut left = room;
    for item in items {
        left = room_behind(item, left, levels)?;
    }
    Some(left)
}

/// Whether each value is in bounds.
pub fn are_in_bounds(values: &[Value]) -> bool
    ensures { IsTrue result ↔ AllInBounds (plain_values values.now) }
{
    for value in values {
        if !in_bounds(value) {
            return false;
        }
    }
    true
}

/// Whether a text weighs no more than a value in bounds.
pub fn text_fits(text: &Text) -> bool
    ensures { IsTrue result ↔ TextFits text.now }
{
    1 + text.bytes().len().div_ceil(16) <= MOST_WEIGHT as usize
}

/// What a text's weight leaves of the room, or None where it is greater. A text weighs as the value that it is.
pub fn room_behind_text(text: &Text, room: u32) -> Option<u32>
    ensures { IsRoomBehind result room (weight_of_text text.now) }
{
    let left = (room as usize).checked_sub(1 + text.bytes().len().div_ceil(16))?;
    Some(left as u32)
}

/// What a value's weight leaves of the room, or None where it is greater. Any value may be asked about.
#[tactic(auto, using(crate::proofs::Totals::by_weight))]
pub fn room_behind_value(value: &Value, room: u32) -> Option<u32>
    ensures { IsRoomBehind result room (weight_of (plain value.now)) }
{
    // Lists nest no deeper than their weight.
    let left = room_behind(value, room as usize, room)?;
    Some(left as u32)
}

/// What the weights of values leave of the room, or None where they are greater together.
#[tactic(auto, using(crate::proofs::Totals::by_weight))]
pub fn room_behind_values(values: &Values, room: u32) -> Option<u32>
    ensures { IsRoomBehind result room (weight_of_values (plain_values values.now)) }
{
    // Lists nest no deeper than their weight.
    let left = room_behind_all(values.as_slice(), room as usize, room)?;
    Some(left as u32)
}
