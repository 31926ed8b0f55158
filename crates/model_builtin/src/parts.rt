//! Lengths, items and parts of texts and lists.
ghost use Rattle.std.specs.Prelude.{◌≡◌, ℕ, pos, negsuc, [], ◌∷◌, ◌++◌, IfOk, MatchOption};
ghost use Rattle.model_value.specs.Plain.{int, text as text_tree};
ghost use Rattle.model_value.specs.View.{plain, plain_values};
ghost use Rattle.model_builtin.specs.Answer.{Applies};
ghost use Rattle.model_builtin.specs.Builtins.{value, part_reply, item_at, with_item, part_between, list_value, length_of, at as at_of, push as push_of, concat as concat_of, put as put_of, slice as slice_of};

use crate::fault::BuiltinStop;
use crate::texts::{characters, copy_part, count, join};
use model_value::{Value, copy, copy_all};
use std::alloc::Global;
use tea_base::{Text, WantOfMemory};

/// How many characters a text has, or items a list.
pub fn length(x: &Value) -> Result<Value, BuiltinStop>
    ensures { Applies result (length_of (plain x.now)) }
{
    match x {
        Value::Text(text) => number(count(characters(text))),
        Value::List(items) => number(items.len()),
        _ => Err(BuiltinStop::BadKind),
    }
}

/// A length as a number. No memory holds 2^63 characters or items, so a greater length is memory that is wanting.
fn number(length: usize) -> Result<Value, BuiltinStop>
    ensures { Applies result (value (int (pos length))) }
{
    match i64::try_from(length) {
        Ok(number) => Ok(Value::Int(number)),
        Err(_) => Err(BuiltinStop::WantOfMemory),
    }
}

/// The character at a place of a text, as a text, or the item at a place of a list.
pub fn at(alloc: Global, x: &Value, place: &Value) -> Result<Value, BuiltinStop>
    ensures { Applies result (at_of (plain x.now) (plain place.now)) }
{
    match (x, place) {
        (Value::Text(text), Value::Int(i)) => character_at(alloc, text, *i),
        (Value::List(items), Value::Int(i)) => item_at(alloc, items, *i),
        _ => Err(BuiltinStop::BadKind),
    }
}

fn character_at(alloc: Global, text: &Text, place: i64) -> Result<Value, BuiltinStop>
    ensures { Applies result (part_reply (λ c. text_tree (c ∷ [])) (item_at text.now place)) }
{
    let length = count(characters(text));
    match natural(place) {
        Some(i) if i < length => { Ok(Value::Text(copy_part(alloc, text, i, i + 1)?)) }
        _ => Err(BuiltinStop::BadIndex),
    }
}

fn item_at(alloc: Global, items: &[Value], place: i64) -> Result<Value, BuiltinStop>
    ensures { Applies result (part_reply (λ x. x) (item_at (plain_values items.now) place)) }
{
    match natural(place) {
        Some(i) if i < items.len() => Ok(copy(alloc, &items[i])?),
        _ => Err(BuiltinStop::BadIndex),
    }
}

/// The list with another value at a place.
pub fn put(alloc: Global, x: &Value, place: &Value, item: &Value) -> Result<Value, BuiltinStop>
    ensures { Applies result (put_of (plain x.now) (plain place.now) (plain item.now)) }
{
    match (x, place) {
        (Value::List(items), Value::Int(i)) => put_item(alloc, items, *i, item),
        _ => Err(BuiltinStop::BadKind),
    }
}

fn put_item(alloc: Global, items: &[Value], place: i64, item: &Value) -> Result<Value, BuiltinStop>
    ensures { Applies result (part_reply list_value (with_item (plain_values items.now) place (plain item.now))) }
{
    match natural(place) {
        Some(i) if i < items.len() => {
            let mut new = copy_all(alloc, items)?;
            new[i] = copy(alloc, item)?;
            Ok(Value::List(new))
        }
        _ => Err(BuiltinStop::BadIndex),
    }
}

/// The list with one more value behind its items.
pub fn push(alloc: Global, x: &Value, item: &Value) -> Result<Value, BuiltinStop>
    ensures { Applies result (push_of (plain x.now) (plain item.now)) }
{
    match x {
        Value::List(items) => {
            let mut new = copy_all(alloc, items)?;
            tea_base::push(&mut new, copy(alloc, item)?)?;
            Ok(Value::List(new))
        }
        _ => Err(BuiltinStop::BadKind),
    }
}

/// The part of a text or a list from one place to before another.
pub fn slice(alloc: Global, x: &Value, from: &Value, to: &Value) -> Result<Value, BuiltinStop>
    ensures { Applies result (slice_of (plain x.now) (plain from.now) (plain to.now)) }
{
    match (x, from, to) {
        (Value::Text(text), Value::Int(i), Value::Int(j)) => text_part(alloc, text, *i, *j),
        (Value::List(items), Value::Int(i), Value::Int(j)) => list_part(alloc, items, *i, *j),
        _ => Err(BuiltinStop::BadKind),
    }
}

fn text_part(alloc: Global, text: &Text, from: i64, to: i64) -> Result<Value, BuiltinStop>
    ensures { Applies result (part_reply text_tree (part_between text.now from to)) }
{
    match (natural(from), natural(to)) {
        (Some(i), Some(j)) if i <= j && j <= count(characters(text)) => {
            Ok(Value::Text(copy_part(alloc, text, i, j)?))
        }
        _ => Err(BuiltinStop::BadIndex),
    }
}

fn list_part(alloc: Global, items: &[Value], from: i64, to: i64) -> Result<Value, BuiltinStop>
    ensures { Applies result (part_reply list_value (part_between (plain_values items.now) from to)) }
{
    match (natural(from), natural(to)) {
        (Some(i), Some(j)) if i <= j && j <= items.len() => {
            Ok(Value::List(copy_all(alloc, &items[i..j])?))
        }
        _ => Err(BuiltinStop::BadIndex),
    }
}

/// Two texts or two lists, one behind the other.
pub fn concat(alloc: Global, x: &Value, y: &Value) -> Result<Value, BuiltinStop>
    ensures { Applies result (concat_of (plain x.now) (plain y.now)) }
{
    match (x, y) {
        (Value::Text(a), Value::Text(b)) => Ok(Value::Text(join(alloc, a, b)?)),
        (Value::List(a), Value::List(b)) => join_lists(alloc, a, b),
        _ => Err(BuiltinStop::BadKind),
    }
}

fn join_lists(alloc: Global, first: &[Value], second: &[Value]) -> Result<Value, BuiltinStop>
    ensures { Applies result (value (list_value (plain_values first.now ++ plain_values second.now))) }
{
    Ok(Value::List(copy_both(alloc, first, second)?))
}

/// The same values in memory of their own, the second ones behind the first.
fn copy_both(alloc: Global, first: &[Value], second: &[Value]) -> Result<Vec<Value>, WantOfMemory>
    ensures { IfOk result (λ both. plain_values both.items ≡ plain_values first.now ++ plain_values second.now) }
{
    let mut both = copy_all(alloc, first)?;
    both.append(&mut copy_all(alloc, second)?)?;
    Ok(both)
}

/// A number that is not below 0.
fn natural(number: i64) -> Option<usize>
    ensures { MatchOption result ((n : ℕ) × (number ≡ negsuc n)) (λ n. number ≡ pos n) }
{
    usize::try_from(number).ok()
}
