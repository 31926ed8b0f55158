//! Places in a text: their line and column, and the line itself with a mark under a word.
use std::alloc::{AllocError, Global};
use std::str;
use tea_base::WantOfMemory;

/// How many characters of a long line are shown.
const MOST_SHOWN: usize = 100;

/// How many characters of a long line are shown before the mark.
const SHOWN_BEFORE: usize = 60;

/// How many characters a mark has at most.
const MOST_MARKED: usize = 40;

/// A file: its name and its bytes.
#[derive(Clone, Copy)]
pub struct Source<'f, 't> {
    pub file: &'f str,
    pub text: &'t [u8],
}

/// A part of a text, in bytes.
#[derive(Clone, Copy, Debug, PartialEq, Eq)]
pub struct Span {
    pub at: usize,
    pub len: usize,
}

impl Span {
    /// The part that begins at a place and has so many bytes.
    pub fn new(at: usize, len: usize) -> Span {
        Span { at, len }
    }

    /// Where it ends.
    pub fn end(self) -> usize {
        self.at.saturating_add(self.len)
    }
}

/// A line of a text: its number from 1, and where it begins and ends.
#[derive(Clone, Copy)]
struct Line {
    number: usize,
    start: usize,
    end: usize,
}

/// The bytes of a part of a text, none where it lies outside.
pub fn part(text: &[u8], span: Span) -> &[u8] {
    text.get(span.at..span.end()).unwrap_or_default()
}

/// The line in which a place is.
fn line_at(text: &[u8], at: usize) -> Line {
    let mut number: usize = 1;
    let mut start: usize = 0;
    let mut end = text.len();
    for (place, byte) in text.iter().enumerate() {
        if *byte == b'\n' {
            if place >= at {
                end = place;
                break;
            }
            number = number.saturating_add(1);
            start = place.saturating_add(1);
        }
    }
    Line { number, start, end }
}

/// How many characters bytes have. Bytes that are no UTF-8 count one each.
fn characters(bytes: &[u8]) -> usize {
    match str::from_utf8(bytes) {
        Ok(text) => text.chars().count(),
        Err(_) => bytes.len(),
    }
}

/// Whether a character moves the others of its line, or reaches the terminal as an order: a control, or a mark that turns the direction.
fn is_order(character: char) -> bool {
    character.is_control()
        || matches!(character, '\u{200e}' | '\u{200f}' | '\u{202a}'..='\u{202e}' | '\u{2066}'..='\u{2069}')
}

/// Adds a character as it is shown: an order as a blank.
fn push_shown(out: &mut String, character: char) -> Result<(), AllocError> {
    if is_order(character) {
        out.push(' ')
    } else {
        out.push(character)
    }
}

/// A text of lines with a blank in the place of each order, so that no word of a file reaches the terminal as one.
pub fn shown(alloc: Global, text: &str) -> Result<String, WantOfMemory> {
    let mut out = String::new(alloc);
    for character in text.chars() {
        if character == '\n' {
            out.push(character)?;
        } else {
            push_shown(&mut out, character)?;
        }
    }
    Ok(out)
}

/// Adds the characters of a line from one of them on, up to so many.
fn push_characters(
    out: &mut String,
    line: &[u8],
    first: usize,
    most: usize,
) -> Result<(), WantOfMemory> {
    match str::from_utf8(line) {
        Ok(text) => {
            for (place, character) in text.chars().enumerate() {
                if place >= first && place.saturating_sub(first) < most {
                    push_shown(out, character)?;
                }
            }
        }
        Err(_) => {
            for (place, byte) in line.iter().enumerate() {
                if place >= first && place.saturating_sub(first) < most {
                    out.push(if byte.is_ascii_graphic() || *byte == b' ' {
                        *byte as char
                    } else {
                        '?'
                    })?;
                }
            }
        }
    }
    Ok(())
}

/// Adds a character so many times.
fn push_times(out: &mut String, character: char, times: usize) -> Result<(), WantOfMemory> {
    for _ in 0..times {
        out.push(character)?;
    }
    Ok(())
}

/// Adds the line in which a part of a text is, after a label, and under it the mark under that part.
pub fn push_marked(
    out: &mut String,
    text: &[u8],
    span: Span,
    label: &str,
) -> Result<(), WantOfMemory> {
    let line = line_at(text, span.at);
    let shown = part(
        text,
        Span::new(line.start, line.end.saturating_sub(line.start)),
    );
    let column = column_of(text, line, span.at);
    let first = if characters(shown) <= MOST_SHOWN {
        0
    } else {
        column.saturating_sub(SHOWN_BEFORE)
    };
    out.push_str(label)?;
    push_characters(out, shown, first, MOST_SHOWN)?;
    out.push_str("\n")?;
    push_times(out, ' ', label.len())?;
    push_times(out, ' ', column.saturating_sub(1).saturating_sub(first))?;
    push_times(out, '^', marked(text, line, span))?;
    out.push_str("\n")?;
    Ok(())
}

/// The column of a place in its line, from 1, in characters.
fn column_of(text: &[u8], line: Line, at: usize) -> usize {
    let front = part(text, Span::new(line.start, at.saturating_sub(line.start)));
    characters(front).saturating_add(1)
}

/// How many characters the mark under a part has: at least one, and none after its line.
fn marked(text: &[u8], line: Line, span: Span) -> usize {
    let end = span.end().min(line.end);
    let word = part(text, Span::new(span.at, end.saturating_sub(span.at)));
    characters(word).max(1).min(MOST_MARKED)
}

/// Adds a hint at a part of a file's text: the file, the line, the column and what is wrong, and then the line with a mark.
pub fn push_hint(
    alloc: Global,
    out: &mut String,
    source: Source<'_, '_>,
    span: Span,
    message: &str,
) -> Result<(), WantOfMemory> {
    let Source { file, text } = source;
    let line = line_at(text, span.at);
    let (number, column) = (line.number, column_of(text, line, span.at));
    write!(out, "{file}:{number}:{column}: {message}\n")?;
    let label = format!(in alloc; "  {number} | ")?;
    push_marked(out, text, span, label.as_str())
}
