//! Links in memory whose frames are spelled by hand, and plans of shares that give them.
ghost use Rattle.std.specs.Prelude.{◌≤◌, All, IfOk};
ghost use Rattle.tea_io.specs.MemNet.{HasNoCounts};

use net_shares::{SharePlan, SharePlans};
use std::alloc::Global;
use tea_base::{Blob, Numbers, WantOfMemory, push};
use tea_io::{Blobs, MemLink, MemLinks};

/// The frame LEAVE.
const LEAVE: &[u8] = &[4];

/// A JOIN of the session whose id is 32 times this byte; it asks for the whole log.
fn join_frame(alloc: Global, id: u8, view: u8) -> Result<Blob, WantOfMemory> {
    let mut bytes = vec![in alloc; 1]?;
    put_all(&mut bytes, &[id; 32])?;
    put_all(&mut bytes, &[0, 0, 0, view, 1])?;
    Ok(Blob::from_vec(bytes))
}

fn put_all(bytes: &mut Vec<u8>, more: &[u8]) -> Result<(), WantOfMemory> {
    for byte in more {
        push(bytes, *byte)?;
    }
    Ok(())
}

/// A link of this view, whose JOIN of this session and then LEAVE come.
pub fn link_of(alloc: Global, id: u8, view: u8) -> Result<MemLink, WantOfMemory>
    ensures { IfOk result HasNoCounts }
{
    let mut coming = Blobs::new(alloc);
    coming.push(join_frame(alloc, id, view)?)?;
    coming.push(Blob::copy(alloc, LEAVE)?)?;
    Ok(MemLink::new(alloc, coming, Numbers::new(alloc), Numbers::new(alloc)))
}

/// A link that ends without a frame.
pub fn silent_link(alloc: Global) -> MemLink
    ensures { HasNoCounts result }
{
    MemLink::new(
        alloc,
        Blobs::new(alloc),
        Numbers::new(alloc),
        Numbers::new(alloc),
    )
}

/// So many links of this view.
fn links_for(alloc: Global, count: u32, view: u8) -> Result<MemLinks, WantOfMemory>
    ensures { IfOk result (All HasNoCounts) }
{
    let mut links = MemLinks::new(alloc);
    for _turn in 0..count {
        links.push(link_of(alloc, 7, view)?)?;
    }
    Ok(links)
}

/// A share of these links, whose accept of this number fails.
pub fn plan_of(alloc: Global, links: MemLinks, fail: u32) -> Result<SharePlan, WantOfMemory>
    requires { All HasNoCounts links }
{
    let mut failing = Numbers::new(alloc);
    failing.push(fail)?;
    Ok(SharePlan::new(links, failing, Numbers::new(alloc)))
}

/// Shares of so many links each, whose views are numbered from 1. Each fails once its links were given.
pub fn plans_of(alloc: Global, shares: u8, links: u32) -> Result<SharePlans, WantOfMemory>
    requires { links ≤ 1000 }
{
    let mut plans = SharePlans::new(alloc);
    for share in 0..shares {
        let given = links_for(alloc, links, share + 1)?;
        plans.push(plan_of(alloc, given, links + 1)?)?;
    }
    Ok(plans)
}
