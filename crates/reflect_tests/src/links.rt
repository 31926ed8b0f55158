//! Links in memory whose frames are spelled by hand.
ghost use Rattle.std.specs.Prelude.{IfOk};
ghost use Rattle.tea_io.specs.MemNet.{HasNoCounts};

use std::alloc::Global;
use tea_base::{Blob, Numbers, WantOfMemory, push};
use tea_io::{Blobs, MemLink};
use wire_frames::{JOIN_TAG, LEAVE_TAG, SEND_TAG};

/// The frame LEAVE.
pub const LEAVE: &[u8] = &[LEAVE_TAG];

/// The first event, without a payload.
pub const FIRST_SEND: &[u8] = &[SEND_TAG, 0, 0, 0, 1, 0, 0, 0, 0];

/// A JOIN of the session whose id is 32 sevens; it asks for the whole log.
fn join_frame(alloc: Global, view: u8) -> Result<Blob, WantOfMemory> {
    let mut bytes = vec![in alloc; JOIN_TAG]?;
    put_all(&mut bytes, &[7; 32])?;
    put_all(&mut bytes, &[0, 0, 0, view, 1])?;
    Ok(Blob::from_vec(bytes))
}

fn put_all(bytes: &mut Vec<u8>, more: &[u8]) -> Result<(), WantOfMemory> {
    for byte in more {
        push(bytes, *byte)?;
    }
    Ok(())
}

/// A link of the view, whose JOIN and then this frame come.
pub fn link_of(alloc: Global, view: u8, frame: &[u8]) -> Result<MemLink, WantOfMemory>
    ensures { IfOk result HasNoCounts }
{
    let mut coming = Blobs::new(alloc);
    coming.push(join_frame(alloc, view)?)?;
    coming.push(Blob::copy(alloc, frame)?)?;
    let none = Numbers::new(alloc);
    Ok(MemLink::new(alloc, coming, none, Numbers::new(alloc)))
}
