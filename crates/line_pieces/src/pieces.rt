//! Lines of bytes that come in pieces.
ghost use Rattle.std.specs.Prelude.{◌≡◌, ◌==◌, ◌-◌, ◌++◌, [], IfOk, OnOk, OnErr, length, slice_get};
ghost use Rattle.line_pieces.specs.Lines.{TakesPiece, front, is_return, told_line};

use memchr::memchr;
use std::alloc::Global;
use std::marker::Model;
use tea_base::{Blob, WantOfMemory};

/// The most bytes of a line that are told.
pub const MOST_TOLD: usize = 65_537;

/// The most bytes of a line that are kept: a CR more.
const MOST_KEPT: usize = 65_538;

/// What was taken of bytes.
#[derive(Drop)]
pub struct LineTaken {
    /// The line that ended, if one did, without the LF that ends it and without a CR before that. Of one that has more than 65,537 bytes it is
    /// the first 65,537.
    pub line: Option<Blob>,
    /// How many bytes were taken: all, or up to the LF, which is taken too.
    pub count: usize,
}

/// The line that has come in part: its first bytes.
#[derive(Drop)]
pub struct LinePieces {
    part: Vec<u8>,
}

impl Model for LinePieces {
    ghost use Rattle.std.specs.Prelude.{ℕ, List};

    ghost Value = { List ℕ };

    ghost view = { λ pieces. pieces.part.items };
}

/// Whether bytes end with a CR.
fn ends_in_return(bytes: &[u8]) -> bool
    ensures { result ≡ is_return (slice_get bytes.now (length bytes.now - 1)) }
{
    match bytes.last() {
        Some(byte) => *byte == b'\r',
        None => false,
    }
}

/// Adds bytes to the first ones of a line, and keeps so many of both. Where memory is wanted, none is added.
fn add_kept(kept: &mut Vec<u8>, bytes: &[u8]) -> Result<(), WantOfMemory>
    ensures added { OnOk result (kept.new.items ≡ front (kept.old.items ++ bytes.now)) }
    ensures stays { OnErr result (kept.new.items ≡ kept.old.items) }
{
    kept.extend_from_slice(bytes)?;
    kept.truncate(MOST_KEPT);
    Ok(())
}

/// What is told of these bytes as a line.
fn tell(mut kept: Vec<u8>) -> Blob
    ensures { result ≡ told_line kept.items }
{
    if ends_in_return(&kept) {
        let len = kept.len().saturating_sub(1);
        kept.truncate(len);
    }
    kept.truncate(MOST_TOLD);
    Blob::from_vec(kept)
}

impl LinePieces {
    /// No byte has come yet. Takes no memory.
    pub fn new(alloc: Global) -> LinePieces
        ensures { result ≡ [] }
    {
        LinePieces {
            part: Vec::new(alloc),
        }
    }

    /// Whether no byte has come since the last line.
    pub fn is_empty(&self) -> bool
        ensures { result ≡ (length self.now == 0) }
    {
        self.part.is_empty()
    }

    /// The line that ends behind these bytes.
    fn ended(&self, bytes: &[u8]) -> Result<Blob, WantOfMemory>
        ensures { IfOk result (λ told. told ≡ told_line (front (self.now ++ bytes.now))) }
    {
        let mut kept = self.part.clone()?;
        add_kept(&mut kept, bytes)?;
        Ok(tell(kept))
    }

    /// Takes bytes up to the end of a line, or all of them where no line ends. Where memory is wanted, none is taken.
    pub fn take(&mut self, bytes: &[u8]) -> Result<LineTaken, WantOfMemory>
        ensures taken { IfOk result (λ taken. TakesPiece self.old bytes.now taken self.new) }
        ensures stays { OnErr result (self.new ≡ self.old) }
    {
        match memchr(b'\n', bytes) {
            Some(at) => {
                let line = self.ended(&bytes[..at])?;
                self.part.clear();
                Ok(LineTaken {
                    line: Some(line),
                    count: at + 1,
                })
            }
            None => {
                add_kept(&mut self.part, bytes)?;
                Ok(LineTaken {
                    line: None,
                    count: bytes.len(),
                })
            }
        }
    }

    /// Takes the last line, which no LF ends. Where memory is wanted, it is not taken.
    pub fn last(&mut self) -> Result<Blob, WantOfMemory>
        ensures told { IfOk result (λ told. told ≡ told_line self.old) }
        ensures ended { OnOk result (self.new ≡ []) }
        ensures stays { OnErr result (self.new ≡ self.old) }
    {
        let kept = self.part.clone()?;
        self.part.clear();
        Ok(tell(kept))
    }
}
