//! What a share in memory is made of.
ghost use Rattle.std.specs.Prelude.{◌≡◌, All};
ghost use Rattle.tea_io.specs.MemNet.{HasNoCounts};

use tea_base::{List, Numbers};
use tea_io::MemLinks;

/// The links that a share gives, whose counts are 0; the numbers of its accepts that fail; and of those at which nobody comes. They are counted from 1.
#[derive(Drop)]
pub struct SharePlan {
    pub links: MemLinks,
    pub fail: Numbers,
    pub quiet: Numbers,
    ghost fresh: { All HasNoCounts links },
}

/// Plans in order.
pub type SharePlans = List<SharePlan>;

impl SharePlan {
    /// A plan. Takes no memory.
    pub fn new(links: MemLinks, fail: Numbers, quiet: Numbers) -> SharePlan
        requires { All HasNoCounts links }
        ensures links { result.links ≡ links }
        ensures fail { result.fail ≡ fail }
        ensures quiet { result.quiet ≡ quiet }
    {
        SharePlan { links, fail, quiet }
    }
}
