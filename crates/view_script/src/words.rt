//! From lines to words.
ghost use Rattle.std.specs.Prelude.{◌≡◌, ◌≤◌, ◌∷◌, [], ◌++◌, map, drop, length, IfOk, OnOk};
ghost use Rattle.view_script.specs.Words.{next_place as place_behind, divides as divides_words, part_length as length_of_part, filled_parts, script_words_of};
ghost use Rattle.text_lines.specs.Lines.{ends_in_space as begins_or_ends_in_space};

use std::alloc::Global;
use tea_base::{WantOfMemory, push};

/// Where a walk over a line stands.
#[derive(Clone, Copy, Debug, PartialEq, Eq)]
enum Place {
    /// Outside of any text literal.
    Outside,
    /// In a text literal.
    Inside,
    /// Behind a backslash in a text literal.
    Escaped,
}

/// Where it stands behind a byte.
fn next_place(place: Place, byte: u8) -> Place
    ensures { result ≡ place_behind place byte }
{
    match (place, byte) {
        (Place::Outside, b'"') => Place::Inside,
        (Place::Outside, _) => Place::Outside,
        (Place::Inside, b'"') => Place::Outside,
        (Place::Inside, b'\\') => Place::Escaped,
        (Place::Inside, _) => Place::Inside,
        (Place::Escaped, _) => Place::Inside,
    }
}

/// Whether a byte divides words: it is a space outside of any text literal.
fn divides(place: Place, byte: u8) -> bool
    ensures { result ≡ divides_words place byte }
{
    place == Place::Outside && byte == b' '
}

/// How many bytes stand before the first that divides words.
fn part_length(line: &[u8]) -> usize
    ensures length { result ≡ length_of_part Place.Outside line.now }
    ensures bound { result ≤ length line.now }
{
    let mut place = Place::Outside;
    for (i, byte) in line.iter().enumerate() {
        if divides(place, *byte) {
            return i;
        }
        place = next_place(place, *byte);
    }
    line.len()
}

/// Whether a line begins or ends with a space.
fn ends_in_space(line: &[u8]) -> bool
    ensures { result ≡ begins_or_ends_in_space line.now }
{
    line.first() == Some(&b' ') || line.last() == Some(&b' ')
}

/// What stands behind the first byte, if there is one.
fn behind_first(bytes: &[u8]) -> &[u8]
    ensures { result.now ≡ drop 1 bytes.now }
{
    match bytes.split_first() {
        Some((_first, rest)) => rest,
        None => bytes,
    }
}

/// Adds a part of a line to its words, if the part is not empty.
fn push_part<'a>(words: &mut Vec<&'a [u8]>, part: &'a [u8]) -> Result<(), WantOfMemory>
    ensures { OnOk result (map (λ word. word.now) words.new.items ≡ map (λ word. word.now) words.old.items
        ++ filled_parts (part.now ∷ [])) }
{
    if !part.is_empty() {
        push(words, part)?;
    }
    Ok(())
}

/// The words of a line, divided by one or more spaces outside of text literals. A line that begins or ends with a space
/// has none.
pub fn split_words<'a>(alloc: Global, line: &'a [u8]) -> Result<Vec<&'a [u8]>, WantOfMemory>
    ensures { IfOk result (λ found. map (λ word. word.now) found.items ≡ script_words_of line.now) }
{
    let mut words = Vec::new(alloc);
    if ends_in_space(line) {
        return Ok(words);
    }
    let mut rest = line;
    while !rest.is_empty() {
        let (part, behind) = rest.split_at(part_length(rest));
        push_part(&mut words, part)?;
        rest = behind_first(behind);
    }
    Ok(words)
}
