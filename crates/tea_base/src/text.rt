//! Text that is owned.
ghost use Rattle.std.specs.Prelude.{◌≡◌, ◌↔◌, IfOk, OnOk, IsTrue, encode_utf8_all, Err, true};
ghost use Rattle.std.specs.Cmp.Lexicographic.{slice_cmp};
ghost use Rattle.std.specs.Ordering.{nat_cmp};
ghost use Rattle.std.specs.Str.{IsUtf8, all_scalars, chars};
ghost use Rattle.tea_base.specs.Order.{comes_before};

use crate::list::List;
use crate::want::WantOfMemory;
use std::alloc::{AllocError, Global};
use std::cmp::Ordering;
use std::marker::Model;

/// Why bytes were not read as text.
#[derive(Clone, Copy, Debug, PartialEq, Eq)]
pub enum TextFault {
    /// They are not UTF-8.
    NotUtf8,
    WantOfMemory,
}

/// Text, held as UTF-8 (RFC 3629). Contracts see its characters.
#[derive(Debug, Drop)]
pub struct Text {
    held: String,
}

/// Texts in order.
pub type Words = List<Text>;

impl Model for Text {
    ghost use Rattle.std.specs.Prelude.{List, ℕ, string_bytes};
    ghost use Rattle.std.specs.Str.{chars};

    ghost Value = { List ℕ };

    ghost view = { λ text. chars (string_bytes text.held) };
}

impl Text {
    /// The text of these bytes.
    pub fn read(alloc: Global, bytes: &[u8]) -> Result<Text, TextFault>
        ensures ok { IfOk result (λ text. encode_utf8_all text ≡ bytes.now) }
        ensures characters { IfOk result (λ text. text ≡ chars bytes.now) }
        ensures utf8 { OnOk result (IsUtf8 bytes.now) }
        ensures not_utf8 { result ≡ Err TextFault.NotUtf8 → ¬ (IsUtf8 bytes.now) }
    {
        let text = match str::from_utf8(bytes) {
            Ok(text) => text,
            Err(_) => return Err(TextFault::NotUtf8),
        };
        match String::from_str(alloc, text) {
            Ok(held) => Ok(Text { held }),
            Err(_) => Err(TextFault::WantOfMemory),
        }
    }

    /// The same text in memory of its own.
    pub fn copy(alloc: Global, text: &str) -> Result<Text, WantOfMemory>
        ensures ok { IfOk result (λ copy. encode_utf8_all copy ≡ text.now) }
        ensures characters { IfOk result (λ copy. copy ≡ chars text.now) }
    {
        Ok(Text {
            held: String::from_str(alloc, text)?,
        })
    }

    /// The same text in memory of its own, as `clone`, by the one error of want of memory.
    pub fn try_clone(&self) -> Result<Text, WantOfMemory>
        ensures { IfOk result (λ copy. copy ≡ self.now) }
    {
        Ok(self.clone()?)
    }

    /// The text, borrowed.
    pub fn as_str(&self) -> &str
        ensures { result.now ≡ encode_utf8_all self.now }
    {
        self.held.as_str()
    }

    /// Its UTF-8. The characters of a text are Unicode scalar values.
    pub fn bytes(&self) -> &[u8]
        ensures bytes { result.now ≡ encode_utf8_all self.now }
        ensures utf8 { IsUtf8 result.now }
        ensures scalars { all_scalars self.now ≡ true }
    {
        self.held.as_str().as_bytes()
    }

    /// Whether two texts have the same characters.
    pub fn is_text(&self, other: &Text) -> bool
        ensures { IsTrue result ↔ (self.now ≡ other.now) }
    {
        self.held.as_str() == other.held.as_str()
    }

    /// Which of two texts stands first, by the numbers of their characters. A text stands before one that it begins.
    pub fn order(&self, other: &Text) -> Ordering
        ensures { result ≡ slice_cmp nat_cmp self.now other.now }
    {
        order(self.held.as_str(), other.held.as_str())
    }

    /// Whether it stands before another text in that order.
    #[tactic(auto, using(crate::proofs::Order::by_order))]
    pub fn is_before(&self, other: &Text) -> bool
        ensures { result ≡ comes_before self.now other.now }
    {
        self.order(other).is_lt()
    }
}

/// The order of two texts, character by character.
fn order(first: &str, second: &str) -> Ordering
    ensures { result ≡ slice_cmp nat_cmp (chars first.now) (chars second.now) }
{
    let mut mine = first.chars();
    let mut others = second.chars();
    loop {
        match (mine.next(), others.next()) {
            (None, None) => return Ordering::Equal,
            (None, Some(_)) => return Ordering::Less,
            (Some(_), None) => return Ordering::Greater,
            (Some(a), Some(b)) => {
                if a != b {
                    return a.cmp(&b);
                }
            }
        }
    }
}

impl Clone for Text {
    ghost is_clone = { λ text copy. copy ≡ text };

    fn clone(&self) -> Result<Text, AllocError> {
        Ok(Text {
            held: self.held.clone()?,
        })
    }
}
