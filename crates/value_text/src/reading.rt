//! From texts to the values that have them.
ghost use Rattle.std.specs.Prelude.{◌≡◌, ◌≢◌, ◌≤◌, [], length, IfOk, Err};
ghost use Rattle.std.specs.Option.{option_map};
ghost use Rattle.byte_fields.specs.Fields.{Decodes, made_at};
ghost use Rattle.model_value.specs.Plain.{PlainValue, text, list, InBounds};
ghost use Rattle.model_value.specs.Spelling.{IsValue};
ghost use Rattle.model_value.specs.View.{plain, plains, plain_values};
ghost use Rattle.model_tokens.specs.Reader.{literal_text_at};
ghost use Rattle.text_lines.specs.Lines.{number_of_word};
ghost use Rattle.value_text.specs.Answer.{ReadsValue};
ghost use Rattle.value_text.specs.Reading.{goes_on_word, numeral_of_word, value_of_word, word_at, value_text_at, text_items_at, nested_items, value_of_text};
ghost use Rattle.value_text.specs.ValueText.{value_text};
ghost use Rattle.std.specs.List.{prefix_len};

use model_tokens::{TokenFault, read_literal};
use model_value::{MOST_DEPTH, Value, ValueFault, in_bounds};
use std::alloc::Global;
use tea_base::push;
use text_lines::number;

/// The value that has this text, as [`print_value`](crate::print_value) prints it, in memory of its own.
///
/// `BadValue` comes exactly where no value in bounds has this text, unless memory runs out before that is known: it
/// comes too where bytes follow the text of a value. Lists that nest deeper than in a value in bounds are not read.
pub fn read_value(alloc: Global, text: &[u8]) -> Result<Value, ValueFault>
    // What is read is a value in bounds, and this is its text.
    ensures read { IfOk result (λ value. IsValue (plain value) × InBounds (plain value)
        × (text.now ≡ value_text (plain value))) }
    // No value in bounds has a text that is refused.
    ensures bad { result ≡ Err ValueFault.BadValue → (value : PlainValue) → IsValue value → InBounds value
        → text.now ≢ value_text value }
    // The value that has this text is read, unless memory runs out.
    ensures only { (value : PlainValue) → IsValue value → InBounds value → text.now ≡ value_text value
        → IfOk result (λ read. plain read ≡ value) }
    // All this as one equation.
    ensures reads { ReadsValue result (value_of_text text.now) }
{
    read_whole(alloc, text)
}

fn read_whole(alloc: Global, text: &[u8]) -> Result<Value, ValueFault>
    ensures { Decodes ValueFault.BadValue plain result (value_of_text text.now) }
{
    let (value, rest) = value_text_at(alloc, MOST_DEPTH, text)?;
    if !in_bounds(&value) || !rest.is_empty() {
        return Err(ValueFault::BadValue);
    }
    Ok(value)
}

/// The value at the front, in which lists nest at most `levels` deep, and the bytes behind it.
#[cycle(value_text_at)]
#[tactic(auto, using(crate::proofs::Rows::by_row))]
fn value_text_at<'a>(
    alloc: Global,
    levels: u32,
    bytes: &'a [u8],
) -> Result<(Value, &'a [u8]), ValueFault>
    ensures { Decodes ValueFault.BadValue (λ x. (plain x.0, x.1.now)) result (value_text_at levels bytes.now) }
{
    let Some((first, behind)) = bytes.split_first() else {
        return Err(ValueFault::BadValue);
    };
    match *first {
        b'"' => text_literal(alloc, behind),
        b'[' => list_value_at(alloc, levels, behind),
        _ => word_at(bytes),
    }
}

/// The list behind a `[`, and the bytes behind the list.
#[cycle(value_text_at)]
fn list_value_at<'a>(
    alloc: Global,
    levels: u32,
    bytes: &'a [u8],
) -> Result<(Value, &'a [u8]), ValueFault>
    ensures { Decodes ValueFault.BadValue (λ x. (plain x.0, x.1.now)) result
        (made_at list (nested_items levels) bytes.now) }
{
    let (items, rest) = nested_items(alloc, levels, bytes)?;
    Ok((Value::List(items), rest))
}

/// The items of a list, which is itself counted among the levels, and the bytes behind the `]` that ends them.
#[cycle(value_text_at)]
#[tactic(auto, using(crate::proofs::Rows::by_row))]
fn nested_items<'a>(
    alloc: Global,
    levels: u32,
    bytes: &'a [u8],
) -> Result<(Vec<Value>, &'a [u8]), ValueFault>
    ensures { Decodes ValueFault.BadValue (λ x. (plains x.0.items, x.1.now)) result (nested_items levels bytes.now) }
{
    if levels == 0 {
        return Err(ValueFault::BadValue);
    }
    let Some((first, behind)) = bytes.split_first() else {
        return Err(ValueFault::BadValue);
    };
    if *first == b']' {
        return Ok((Vec::new(alloc), behind));
    }
    text_items_at(alloc, levels - 1, bytes)
}

/// One item or more, and the bytes behind the `]` that ends them.
#[cycle(value_text_at)]
fn text_items_at<'a>(
    alloc: Global,
    levels: u32,
    bytes: &'a [u8],
) -> Result<(Vec<Value>, &'a [u8]), ValueFault>
    ensures { Decodes ValueFault.BadValue (λ x. (plain_values x.0.items, x.1.now)) result
        (text_items_at (value_text_at levels) [] (length bytes.now) bytes.now) }
{
    let mut items = Vec::new(alloc);
    let mut rest = bytes;
    // Each item has a byte or more.
    for _ in 0..bytes.len() {
        let (item, behind) = value_text_at(alloc, levels, rest)?;
        push(&mut items, item)?;
        let Some((first, after)) = behind.split_first() else {
            return Err(ValueFault::BadValue);
        };
        match *first {
            b']' => return Ok((items, after)),
            b',' => rest = after,
            _ => return Err(ValueFault::BadValue),
        }
    }
    Err(ValueFault::BadValue)
}

/// The text whose literal stands there, all but its first quote, and the bytes behind the literal.
fn text_literal<'a>(alloc: Global, bytes: &'a [u8]) -> Result<(Value, &'a [u8]), ValueFault>
    ensures { Decodes ValueFault.BadValue (λ x. (plain x.0, x.1.now)) result (made_at text literal_text_at bytes.now) }
{
    match read_literal(alloc, bytes) {
        Ok((literal, rest)) => Ok((Value::Text(literal), rest)),
        Err(TokenFault::NoToken) => Err(ValueFault::BadValue),
        Err(TokenFault::WantOfMemory) => Err(ValueFault::WantOfMemory),
    }
}

/// The value of the word at the front, and the bytes behind the word.
fn word_at<'a>(bytes: &'a [u8]) -> Result<(Value, &'a [u8]), ValueFault>
    ensures { Decodes ValueFault.BadValue (λ x. (plain x.0, x.1.now)) result (word_at bytes.now) }
{
    let (word, rest) = bytes.split_at(word_length(bytes));
    match value_of_word(word) {
        Some(value) => Ok((value, rest)),
        None => Err(ValueFault::BadValue),
    }
}

/// How many bytes stand before the first `,` or `]`.
fn word_length(bytes: &[u8]) -> usize
    ensures length { result ≡ prefix_len goes_on_word bytes.now }
    ensures within { result ≤ length bytes.now }
{
    bytes
        .iter()
        .position(|byte| *byte == b',' || *byte == b']')
        .unwrap_or(bytes.len())
}

/// The value whose text is this word.
fn value_of_word(word: &[u8]) -> Option<Value>
    ensures { option_map plain result ≡ value_of_word word.now }
{
    match word {
        b"nil" => Some(Value::Nil),
        b"false" => Some(Value::Bool(false)),
        b"true" => Some(Value::Bool(true)),
        _ => numeral_of_word(word),
    }
}

/// The object or the number that a word names.
fn numeral_of_word(word: &[u8]) -> Option<Value>
    ensures { option_map plain result ≡ numeral_of_word word.now }
{
    match word.split_first()? {
        (b'#', digits) => Some(Value::Ref(number_of(digits, 0, u32::MAX.into())? as u32)),
        (b'-', digits) => {
            let magnitude = number_of(digits, 1, 1 << 63)?;
            // The least number has a magnitude that no `i64` holds.
            Some(Value::Int(-1 - (magnitude - 1) as i64))
        }
        _ => Some(Value::Int(number_of(word, 0, i64::MAX as u64)? as i64)),
    }
}

/// The number from `low` to `high` that these bytes spell in decimal, without a sign or leading zeros.
fn number_of(digits: &[u8], low: u64, high: u64) -> Option<u64>
    ensures { result ≡ number_of_word low high digits.now }
{
    match str::from_utf8(digits) {
        Ok(digits) => number(digits, low, high),
        Err(_) => None,
    }
}
