//! Places in a text, in bytes from its start. That they are the right ones is tested.
ghost use Rattle.std.specs.Prelude.{◌≤◌, length};

use crate::bytes::{ByteKind, begins, digits_length, name_length};
use crate::literals::spelled_byte;
use crate::names::LONGEST_NAME;
use crate::numbers::number;
use crate::symbols::other;
use std::str;

/// Where the token of this number, from 0, begins; the length of the text where it has fewer.
pub fn place_of_token(text: &[u8], number: usize) -> u32
    ensures { result ≤ length text.now }
{
    let mut place = 0;
    let mut before: usize = 0;
    for _piece in 0..text.len() {
        let rest = from(text, place);
        if begins_token(rest) {
            if before == number {
                break;
            }
            before = before.saturating_add(1);
        }
        place = piece_length(rest).saturating_add(place);
    }
    within(text, place)
}

/// Where a text goes wrong that is divided into no tokens: the first byte that no token can begin or go on with, or the
/// start of a number that is too large or of a name that is too long.
pub fn place_of_fault(text: &[u8]) -> u32
    ensures { result ≤ length text.now }
{
    let mut place = 0;
    for _piece in 0..text.len() {
        let rest = from(text, place);
        if let Some(inside) = piece_fault(rest) {
            return within(text, inside.saturating_add(place));
        }
        place = piece_length(rest).saturating_add(place);
    }
    within(text, text.len())
}

fn from(text: &[u8], place: usize) -> &[u8] {
    text.get(place..).unwrap_or_default()
}

/// A place as a number, or the end where it would lie behind the text.
fn within(text: &[u8], place: usize) -> u32
    ensures { result ≤ length text.now }
{
    u32::try_from(place.min(text.len())).unwrap_or(0)
}

fn begins_token(text: &[u8]) -> bool {
    match text.first() {
        Some(byte) => begins(*byte) != ByteKind::Blank && !text.starts_with(b"//"),
        None => false,
    }
}

/// How many bytes the piece at the front has.
fn piece_length(text: &[u8]) -> usize {
    let Some((first, behind)) = text.split_first() else {
        return 0;
    };
    match begins(*first) {
        ByteKind::Blank => 1,
        ByteKind::Digit if *first == b'0' => 1,
        ByteKind::Digit => digits_length(text),
        ByteKind::Letter => name_length(text),
        ByteKind::Quote => literal_length(behind).saturating_add(2),
        ByteKind::Other => match other(text) {
            Ok((_, rest)) => text.len().saturating_sub(rest.len()),
            Err(_) => 1,
        },
    }
}

/// Where the piece at the front goes wrong, if it does.
fn piece_fault(text: &[u8]) -> Option<usize> {
    let (first, behind) = text.split_first()?;
    match begins(*first) {
        ByteKind::Blank => None,
        ByteKind::Digit => number(text).err().map(|_| 0),
        ByteKind::Letter if name_length(text) > LONGEST_NAME => Some(0),
        ByteKind::Letter => None,
        ByteKind::Quote => literal_fault(behind).map(|place| place.saturating_add(1)),
        ByteKind::Other => other(text).err().map(|_| symbol_fault(*first)),
    }
}

/// `&` and `|` begin a symbol, and alone are none.
fn symbol_fault(first: u8) -> usize {
    match first {
        b'&' | b'|' => 1,
        _ => 0,
    }
}

/// How many bytes from behind the first quote are the spelling of characters.
fn literal_length(text: &[u8]) -> usize {
    let mut length = 0;
    for _character in 0..text.len() {
        match spelled_byte(from(text, length)) {
            Some((_, more)) => length = more.saturating_add(1).saturating_add(length),
            None => break,
        }
    }
    length
}

/// Where a text literal goes wrong, from behind its first quote, if it does.
fn literal_fault(text: &[u8]) -> Option<usize> {
    let length = literal_length(text);
    let spelled = text.get(..length).unwrap_or_default();
    if let Some(place) = character_fault(spelled) {
        return Some(place);
    }
    match from(text, length).split_first() {
        Some((b'"', _)) => None,
        Some((b'\\', behind)) => Some(
            escape_fault(behind)
                .saturating_add(length)
                .saturating_add(1),
        ),
        _ => Some(length),
    }
}

/// Where bytes go wrong as UTF-8, if they do.
fn character_fault(bytes: &[u8]) -> Option<usize> {
    let error = str::from_utf8(bytes).err()?;
    let start = error.valid_up_to();
    let begun = matches!(bytes.get(start), Some(0xc2..=0xf4));
    match error.error_len() {
        None => Some(bytes.len()),
        Some(length) if begun => Some(start.saturating_add(length)),
        Some(_) => Some(start),
    }
}

/// Where an escape goes wrong, from behind its backslash.
fn escape_fault(text: &[u8]) -> usize {
    match text.split_first() {
        Some((b'x', digits)) => match digits.first() {
            Some(b'0' | b'1' | b'7') => 2,
            _ => 1,
        },
        _ => 0,
    }
}
