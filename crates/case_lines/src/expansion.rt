//! Cases that are short in their file and long when they run, or that hold bytes which are no text.
ghost use Rattle.std.specs.Prelude.{◌≡◌, Contains, IfOk};

use byte_fields::Writer;
use hex::FromHexError;
use std::alloc::{AllocError, Global};
use tea_base::{Blob, WantOfMemory};
use text_lines::number;

/// The greatest number of copies.
const MOST_COPIES: u64 = 1_000_000;

/// The bytes of a case, in which something else stands in place of each `<<HEAD:TEXT>>`. `TEXT` goes to the next `>>`.
///
/// | In the case | What stands in its place |
/// |---|---|
/// | `<<3:TEXT>>` | three copies of the text |
/// | `<<x:0aff>>` | these bytes |
///
/// What is not closed stands as it is, and so does what has another head, more than a million copies, or no bytes in
/// hexadecimal digits.
pub fn expand(alloc: Global, case: &str) -> Result<Blob, WantOfMemory>
    // Without `<` a case stands as it is.
    ensures { ¬ Contains case.now 60 → IfOk result (λ bytes. bytes ≡ case.now) }
{
    if !case.as_bytes().contains(&b'<') {
        return Blob::copy(alloc, case.as_bytes());
    }
    let mut out = Writer::new(alloc);
    let pieces = split_closings(alloc, case)?;
    if let [closed @ .., last] = pieces.as_slice() {
        put_all_closed(alloc, &mut out, closed)?;
        // What stands behind the last `>>` is not closed.
        out.put_bytes(last.as_bytes())?;
    }
    Ok(out.done())
}

/// The pieces of a case between its `>>`.
fn split_closings<'a>(alloc: Global, case: &'a str) -> Result<Vec<&'a str>, AllocError> {
    case.split(">>").collect(alloc)
}

/// Writes what the pieces come to, each of which a `>>` follows.
fn put_all_closed(alloc: Global, out: &mut Writer, pieces: &[&str]) -> Result<(), WantOfMemory> {
    for piece in pieces {
        put_closed(alloc, out, piece)?;
    }
    Ok(())
}

/// Writes what a piece comes to that a `>>` follows.
fn put_closed(alloc: Global, out: &mut Writer, piece: &str) -> Result<(), WantOfMemory> {
    let Some((front, inner)) = piece.split_once("<<") else {
        out.put_bytes(piece.as_bytes())?;
        return out.put_bytes(b">>");
    };
    out.put_bytes(front.as_bytes())?;
    if put_meant(alloc, out, inner)? {
        return Ok(());
    }
    out.put_bytes(b"<<")?;
    out.put_bytes(inner.as_bytes())?;
    out.put_bytes(b">>")
}

/// Writes what stands in place of a head and a text, and tells whether there is such a thing.
fn put_meant(alloc: Global, out: &mut Writer, inner: &str) -> Result<bool, WantOfMemory> {
    let Some((head, text)) = inner.split_once(':') else {
        return Ok(false);
    };
    match head {
        "x" => put_hex(alloc, out, text),
        _ => match number(head, 0, MOST_COPIES) {
            Some(count) => put_copies(out, count, text),
            None => Ok(false),
        },
    }
}

fn put_hex(alloc: Global, out: &mut Writer, digits: &str) -> Result<bool, WantOfMemory> {
    match hex::decode(alloc, digits) {
        Ok(bytes) => out.put_bytes(bytes.as_slice())?,
        Err(FromHexError::OutOfMemory) => return Err(WantOfMemory),
        Err(_) => return Ok(false),
    }
    Ok(true)
}

fn put_copies(out: &mut Writer, count: u64, text: &str) -> Result<bool, WantOfMemory> {
    for _ in 0..count {
        out.put_bytes(text.as_bytes())?;
    }
    Ok(true)
}
