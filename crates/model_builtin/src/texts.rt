//! The characters of texts.
ghost use Rattle.std.specs.Prelude.{◌≡◌, ◌++◌, ◌≤◌, IfOk, length, take, slice_range, encode_utf8_all};
ghost use Rattle.std.specs.Str.{chars};

use std::alloc::Global;
use tea_base::{Text, WantOfMemory};

/// The text, borrowed.
pub fn characters(text: &Text) -> &str
    ensures { chars result.now ≡ text.now }
{
    text.as_str()
}

/// How many characters a text has.
pub fn count(text: &str) -> usize
    ensures { result ≡ length (chars text.now) }
{
    text.chars().count()
}

/// What stands behind the first `count` characters.
fn behind(text: &str, count: usize) -> &str
    ensures { encode_utf8_all (take count (chars text.now)) ++ result.now ≡ text.now }
{
    let mut rest = text.chars();
    for _ in 0..count {
        rest.next();
    }
    rest.as_str()
}

/// The first `count` characters.
fn front(text: &str, count: usize) -> &str
    ensures { chars result.now ≡ take count (chars text.now) }
{
    let rest = behind(text, count);
    &text[..text.len() - rest.len()]
}

/// The characters from one place to before another, in memory of their own.
pub fn copy_part(alloc: Global, text: &Text, from: usize, to: usize) -> Result<Text, WantOfMemory>
    requires { from ≤ to }
    ensures { IfOk result (λ part. part ≡ slice_range text.now from to) }
{
    let rest = behind(characters(text), from);
    Text::copy(alloc, front(rest, to - from))
}

/// One text behind another.
pub fn join(alloc: Global, first: &Text, second: &Text) -> Result<Text, WantOfMemory>
    ensures { IfOk result (λ both. both ≡ first.now ++ second.now) }
{
    let mut both = String::from_str(alloc, first.as_str())?;
    both.push_str(second.as_str())?;
    Text::copy(alloc, both.as_str())
}
