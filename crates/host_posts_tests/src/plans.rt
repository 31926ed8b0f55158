//! Plans of shares.
ghost use Rattle.std.specs.Prelude.{◌≤◌, All};
ghost use Rattle.tea_io.specs.MemNet.{HasNoCounts};

use crate::links::links_for;
use net_shares::{SharePlan, SharePlans};
use std::alloc::Global;
use tea_base::{Numbers, WantOfMemory};
use tea_io::MemLinks;

/// A share of these links, whose accept of this number fails, and nobody comes at that of the other.
pub fn plan_of(
    alloc: Global,
    links: MemLinks,
    fail: u32,
    quiet: u32,
) -> Result<SharePlan, WantOfMemory>
    requires { All HasNoCounts links }
{
    let mut failing = Numbers::new(alloc);
    failing.push(fail)?;
    let mut quiets = Numbers::new(alloc);
    quiets.push(quiet)?;
    Ok(SharePlan::new(links, failing, quiets))
}

/// Shares of so many links each, whose views are numbered from 1. Each fails once its links were given, and nobody comes at its second accept.
pub fn plans_of(alloc: Global, shares: u8, links: u32) -> Result<SharePlans, WantOfMemory>
    requires { links ≤ 1000 }
{
    let mut plans = SharePlans::new(alloc);
    for share in 0..shares {
        let given = links_for(alloc, links, share + 1)?;
        plans.push(plan_of(alloc, given, links + 2, 2)?)?;
    }
    Ok(plans)
}
