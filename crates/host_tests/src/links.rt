//! Links in memory whose frames are spelled by hand.
ghost use Rattle.std.specs.Prelude.{IfOk};
ghost use Rattle.tea_io.specs.MemNet.{HasNoCounts};

use std::alloc::Global;
use tea_base::{Blob, Numbers, WantOfMemory, push};
use tea_io::{Blobs, MemLink};

/// The frame LEAVE.
pub const LEAVE: &[u8] = &[4];

/// A JOIN of the session whose id is 32 times this byte; it asks for the whole log.
fn join_frame(alloc: Global, id: u8, view: u8) -> Result<Blob, WantOfMemory> {
    let mut bytes = vec![in alloc; 1]?;
    put_all(&mut bytes, &[id; 32])?;
    put_all(&mut bytes, &[0, 0, 0, view, 1])?;
    Ok(Blob::from_vec(bytes))
}

fn put_all(bytes: &mut Vec<u8>, more: &[u8]) -> Result<(), WantOfMemory> {
    for byte in more {
        push(bytes, *byte)?;
    }
    Ok(())
}

/// A link of the view 7, whose JOIN of this session and then LEAVE come; where `quiet`, its first two receives are quiet.
pub fn link_of(alloc: Global, id: u8, quiet: bool) -> Result<MemLink, WantOfMemory>
    ensures { IfOk result HasNoCounts }
{
    let mut coming = Blobs::new(alloc);
    coming.push(join_frame(alloc, id, 7)?)?;
    coming.push(Blob::copy(alloc, LEAVE)?)?;
    let mut quiets = Numbers::new(alloc);
    if quiet {
        quiets.push(1)?;
        quiets.push(2)?;
    }
    Ok(MemLink::new(alloc, coming, Numbers::new(alloc), quiets))
}

/// A link that ends without a frame.
pub fn silent_link(alloc: Global) -> MemLink
    ensures { HasNoCounts result }
{
    MemLink::new(
        alloc,
        Blobs::new(alloc),
        Numbers::new(alloc),
        Numbers::new(alloc),
    )
}
