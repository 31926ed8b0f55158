//! The payload bytes of all entries of a log, one after the other.
ghost use Rattle.std.specs.Prelude.{◌≡◌, ◌↔◌, ◌+◌, ◌≤◌, ◌++◌, length, IfOk, IsTrue};
ghost use Rattle.tea_base.specs.declared.entry.What.TheVariants.{Event};
ghost use Rattle.tea_base.specs.Limits.{most_payload};
ghost use Rattle.tea_base.specs.Readings.{IsEventOf};
ghost use Rattle.byte_fields.specs.Fields.{FitsBlob};
ghost use Rattle.entry_fields.specs.Spelling.{what_spelling};
ghost use Rattle.session_log.specs.Heads.{what_of, IsKindWithin};
ghost use Rattle.session_log.specs.Room.{Fills};

use crate::filling::Filling;
use crate::heads::HeadKind;
use event_region::Region;
use std::alloc::Global;
use tea_base::{Blob, WantOfMemory, What};

/// Appends a payload to those of all, where there is room, and gives what the head keeps.
pub fn store_event(payloads: &mut Region, number: u32, bytes: &[u8]) -> HeadKind
    requires room { length bytes.now ≤ payloads.old.spare }
    requires short { length bytes.now ≤ most_payload }
    ensures appended { payloads.new.bytes ≡ payloads.old.bytes ++ bytes.now }
    ensures spare { payloads.new.spare + length bytes.now ≡ payloads.old.spare }
    ensures kept { what_of payloads.new.bytes result ≡ What.Event number bytes.now }
    ensures within { IsKindWithin (length payloads.new.bytes) result }
{
    let place = payloads.append(bytes);
    HeadKind::Event { number, place }
}

/// Joins two pieces to one, in memory of its own.
fn join_pieces(alloc: Global, first: &[u8], second: &[u8]) -> Result<Blob, WantOfMemory>
    ensures { IfOk result (λ whole. whole ≡ first.now ++ second.now) }
{
    let mut whole = Vec::with_capacity(alloc, first.len() + second.len())?;
    whole.extend_from_slice(first)?;
    whole.extend_from_slice(second)?;
    Ok(Blob::from_vec(whole))
}

/// A copy of what was stored, its payload in memory of its own.
pub fn copy_what(alloc: Global, payloads: &Region, kind: HeadKind) -> Result<What, WantOfMemory>
    requires { IsKindWithin (length payloads.now.bytes) kind }
    ensures { IfOk result (λ what. what ≡ what_of payloads.now.bytes kind) }
{
    match kind {
        HeadKind::Join => Ok(What::Join),
        HeadKind::Exit => Ok(What::Exit),
        HeadKind::Event { number, place } => {
            let (first, second) = payloads.pieces(place);
            let payload = join_pieces(alloc, first, second)?;
            Ok(What::Event { number, payload })
        }
    }
}

/// Writes an Event whose payload is in two pieces.
fn put_event(out: &mut Filling, number: u32, first: &[u8], second: &[u8])
    requires fits { FitsBlob (first.now ++ second.now) }
    requires room { length (what_spelling (Event number (first.now ++ second.now))) ≤ out.old.spare }
    ensures { Fills out.old out.new (what_spelling (Event number (first.now ++ second.now))) }
{
    out.put_u8(3);
    out.put_u32(number);
    out.put_u32((first.len() + second.len()) as u32);
    out.put_bytes(first);
    out.put_bytes(second);
}

/// Writes what was stored.
pub fn put_stored(out: &mut Filling, payloads: &Region, kind: HeadKind)
    requires within { IsKindWithin (length payloads.now.bytes) kind }
    requires room { length (what_spelling (what_of payloads.now.bytes kind)) ≤ out.old.spare }
    ensures { Fills out.old out.new (what_spelling (what_of payloads.now.bytes kind)) }
{
    match kind {
        HeadKind::Join => out.put_u8(1),
        HeadKind::Exit => out.put_u8(2),
        HeadKind::Event { number, place } => {
            let (first, second) = payloads.pieces(place);
            put_event(out, number, first, second);
        }
    }
}

/// Whether the bytes are two pieces, one behind the other.
fn are_joined(first: &[u8], second: &[u8], bytes: &[u8]) -> bool
    ensures { IsTrue result ↔ (first.now ++ second.now ≡ bytes.now) }
{
    if bytes.len() != first.len() + second.len() {
        return false;
    }
    let (front, back) = bytes.split_at(first.len());
    front == first && back == second
}

/// Whether an Event with this payload was stored.
pub fn is_stored(payloads: &Region, kind: HeadKind, bytes: &[u8]) -> bool
    requires { IsKindWithin (length payloads.now.bytes) kind }
    ensures { IsTrue result ↔ IsEventOf (what_of payloads.now.bytes kind) bytes.now }
{
    match kind {
        HeadKind::Join | HeadKind::Exit => false,
        HeadKind::Event { place, .. } => {
            let (first, second) = payloads.pieces(place);
            are_joined(first, second, bytes)
        }
    }
}
