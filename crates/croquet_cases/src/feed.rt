//! The feeds of cases.
use crate::net_case::{NetCase, NetCommand};
use live_shell::MemFeed;
use std::alloc::Global;
use tea_base::{Blob, Numbers, WantOfMemory};
use tea_io::Blobs;

/// A feed to which no line comes.
pub(crate) fn no_feed(alloc: Global) -> MemFeed {
    MemFeed::new(
        alloc,
        Blobs::new(alloc),
        Numbers::new(alloc),
        Numbers::new(alloc),
    )
}

/// The feed of a case: its lines, where they come to its run, and which calls fail or tell nothing.
pub(crate) fn feed_of(alloc: Global, case: &NetCase) -> Result<MemFeed, WantOfMemory> {
    let mut lines = Blobs::new(alloc);
    if matches!(case.command, NetCommand::Live) && !case.lines.is_empty() {
        for line in case.lines.split(" / ") {
            lines.push(Blob::copy(alloc, line.as_bytes())?)?;
        }
    }
    let failing = Numbers::from_vec(vec![in alloc; case.faults.failing_feed]?);
    let mut idle = Numbers::new(alloc);
    for number in case.idle.as_slice() {
        idle.push(*number)?;
    }
    Ok(MemFeed::new(alloc, lines, failing, idle))
}
