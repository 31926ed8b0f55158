//! Hints on JSON that is no value.
use crate::place::{Source, Span, push_hint};
use serde_json::Value as Json;
use std::alloc::Global;
use std::str;
use tea_base::WantOfMemory;

/// Where the line of a number from 1, and a column in it, are in a text.
fn place_of(text: &[u8], line: usize, column: usize) -> usize {
    let mut start: usize = 0;
    let mut number: usize = 1;
    for (place, byte) in text.iter().enumerate() {
        if number >= line {
            break;
        }
        if *byte == b'\n' {
            number = number.saturating_add(1);
            start = place.saturating_add(1);
        }
    }
    start
        .saturating_add(column.saturating_sub(1))
        .min(text.len())
}

/// A part of a JSON text that is no part of a value, and what it has to be.
fn odd_part(text: &[u8]) -> Option<(Span, &'static str)> {
    let mut is_inside = false;
    let mut is_escaped = false;
    let mut number: Option<usize> = None;
    for (place, byte) in text.iter().enumerate() {
        let is_quote = *byte == b'"' && !is_escaped;
        is_escaped = is_inside && *byte == b'\\' && !is_escaped;
        is_inside = is_inside != is_quote;
        if is_inside {
            continue;
        }
        let is_of_number = byte.is_ascii_digit() || *byte == b'-';
        if is_of_number && number.is_none() {
            number = Some(place);
        }
        match (byte, number) {
            (b'{', _) => return Some((
                Span::new(place, 1),
                "an object is no value: write a list, as [\"a\",1]",
            )),
            (b'.' | b'e' | b'E', Some(begin)) => {
                let len = place.saturating_sub(begin).saturating_add(1);
                return Some((
                    Span::new(begin, len),
                    "a number is whole, without a point or an exponent",
                ));
            }
            _ => {}
        }
        if !is_of_number {
            number = None;
        }
    }
    None
}

/// A hint on a text that is no JSON of a value.
pub fn json_hint(alloc: Global, source: Source<'_, '_>) -> Result<String, WantOfMemory> {
    let text = source.text;
    let mut out = String::new(alloc);
    if let Err(error) = str::from_utf8(text) {
        push_hint(
            alloc,
            &mut out,
            source,
            Span::new(error.valid_up_to(), 1),
            "a byte that is not UTF-8",
        )?;
        return Ok(out);
    }
    match Json::from_slice(alloc, text) {
        Err(error) => {
            if error.is_memory() {
                return Err(WantOfMemory);
            }
            let span = Span::new(place_of(text, error.line(), error.column()), 1);
            let message = if error.is_eof() {
                "JSON ends too early here: a bracket or a quote is not closed"
            } else {
                "JSON cannot go on so here: a value is null, true, false, a number, a text between two `\"`, or a list of these with a `,` between two"
            };
            push_hint(alloc, &mut out, source, span, message)?;
        }
        Ok(_data) => {
            let whole = (
                Span::new(0, text.len()),
                "the value is out of bounds: a number is from -2^63 to 2^63 - 1 and not -0, the weight at most 4,096 and the depth 32",
            );
            let (span, message) = odd_part(text).unwrap_or(whole);
            push_hint(alloc, &mut out, source, span, message)?;
        }
    }
    Ok(out)
}
