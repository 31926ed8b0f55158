//! From text to lines, words and numbers. A text is seen as its UTF-8.
ghost use Rattle.std.specs.Prelude.{◌≡◌, ℕ, ◌≤◌, ◌<◌, ◌^◌, map, ◌==◌, None, IfOk, IfSome, IfNone, IsTrue, ◌↔◌};
ghost use Rattle.std.specs.Fmt.{decimal};
ghost use Rattle.std.specs.Str.Lines.{lines};
ghost use Rattle.std.specs.List.{slice_split};
ghost use Rattle.tea_base.specs.Limits.{time_limit};
ghost use Rattle.text_lines.specs.Lines.{words_of, ends_in_space, spelled_by, number_of_word, time_of_word, is_skipped, IsPlain};

use std::alloc::{AllocError, Global};
use tea_base::{TIME_LIMIT, WantOfMemory};

/// The latest TeaTime that is named, in microseconds.
const LAST_TIME: u64 = TIME_LIMIT - 1;

/// The lines of a text. LF ends a line; it may be missing after the last one, and one CR before it is dropped.
pub fn split_lines<'a>(alloc: Global, text: &'a str) -> Result<Vec<&'a str>, WantOfMemory>
    ensures { IfOk result (λ found. map (λ line. line.now) found.items ≡ lines text.now) }
{
    Ok(collect_lines(alloc, text)?)
}

fn collect_lines<'a>(alloc: Global, text: &'a str) -> Result<Vec<&'a str>, AllocError>
    ensures { IfOk result (λ found. map (λ line. line.now) found.items ≡ lines text.now) }
{
    text.lines().collect(alloc)
}

/// Whether a line is empty or begins with `#`.
pub fn is_skipped(line: &[u8]) -> bool
    ensures { result ≡ is_skipped line.now }
{
    match line {
        [] => true,
        [first, ..] => *first == b'#',
    }
}

/// The pieces of a line between its spaces, some of them empty.
fn split_spaces<'a>(alloc: Global, line: &'a str) -> Result<Vec<&'a str>, AllocError>
    ensures { IfOk result (λ found. map (λ word. word.now) found.items ≡ slice_split (λ byte. byte == 32) line.now) }
{
    line.split(' ').collect(alloc)
}

/// Whether a line begins or ends with a space.
fn ends_in_space(line: &[u8]) -> bool
    ensures { result ≡ ends_in_space line.now }
{
    line.first() == Some(&b' ') || line.last() == Some(&b' ')
}

/// The words of a line, divided by one or more spaces. A line that begins or ends with a space has none.
pub fn split_words<'a>(alloc: Global, line: &'a str) -> Result<Vec<&'a str>, WantOfMemory>
    ensures { IfOk result (λ found. map (λ word. word.now) found.items ≡ words_of line.now) }
{
    let mut words = Vec::new(alloc);
    if ends_in_space(line.as_bytes()) {
        return Ok(words);
    }
    let pieces = split_spaces(alloc, line)?;
    for piece in &pieces {
        if !piece.is_empty() {
            words.push(*piece)?;
        }
    }
    Ok(words)
}

/// Whether a word is not empty, has no plus, and no zero before its last digit.
fn is_plain(word: &[u8]) -> bool
    ensures { IsTrue result ↔ IsPlain word.now }
{
    match word {
        [] => false,
        [b'+', ..] => false,
        [b'0', _, ..] => false,
        _ => true,
    }
}

/// The number that a word spells in decimal, without a sign or leading zeros.
fn decimal_number(word: &str) -> Option<u64>
    ensures read { result ≡ spelled_by word.now }
    ensures found { IfSome result (λ n. (word.now ≡ decimal n) × (n < 2 ^ 64)) }
    ensures none { IfNone result ((n : ℕ) → n < 2 ^ 64 → word.now ≡ decimal n → ⊥) }
{
    if !is_plain(word.as_bytes()) {
        return None;
    }
    match word.parse::<u64>() {
        Ok(number) => Some(number),
        Err(_) => None,
    }
}

/// The number from `low` to `high` that a word spells in decimal, without a sign or leading zeros.
pub fn number(word: &str, low: u64, high: u64) -> Option<u64>
    ensures read { result ≡ number_of_word low high word.now }
    ensures found { IfSome result (λ n. (word.now ≡ decimal n) × (low ≤ n) × (n ≤ high)) }
    ensures none { IfNone result ((n : ℕ) → low ≤ n → n ≤ high → word.now ≡ decimal n → ⊥) }
{
    let number = decimal_number(word)?;
    if low <= number && number <= high {
        Some(number)
    } else {
        None
    }
}

/// The TeaTime that a word spells.
pub fn time_of_word(word: &str) -> Option<u64>
    ensures read { result ≡ time_of_word word.now }
    ensures bound { IfSome result (λ time. time < time_limit) }
{
    number(word, 0, LAST_TIME)
}
