//! What posts are to host, and what comes of it.
ghost use Rattle.std.specs.Prelude.{◌≡◌};
ghost use Rattle.host_posts.specs.Counts.{no_ends, with_posts};

use crate::counting::EndCounts;
use host_server::{SessionIds, Sessions};
use net_shares::Stop;
use tea_base::{List, SessionId, Text};
use tea_io::{Clock, Gate};

/// The most posts that there may be.
pub const MOST_POSTS: u32 = 64;

/// The most links that a post serves: of the 2^32 callers that a session may have, each of 64 posts has as many, and one for itself.
pub const MOST_LINKS: u32 = 67_108_862;

/// What is to be hosted: the ids of the sessions, whether a JOIN of another id makes one more, the address at which the host listens, and how many
/// posts serve links beside each other. By the clock it asks the sessions; each post passes the gate before it serves a link; the stop says when the
/// posts are to stop.
#[derive(Drop)]
pub struct Posts<'a, C: Clock, G: Gate, T: Stop> {
    pub ids: &'a [SessionId],
    pub on_demand: bool,
    pub address: &'a Text,
    pub posts: u32,
    pub clock: &'a C,
    pub gate: &'a G,
    pub stop: &'a T,
}

/// Why a post has ended.
#[derive(Clone, Copy, Debug, PartialEq, Eq)]
pub enum PostEnd {
    /// It was to stop.
    Stopped,
    /// A call of its share of the net failed.
    Failed,
    /// Its share of the net found no memory.
    WantOfMemory,
    /// It has served all the links that it may serve.
    Spent,
}

/// Why a post has ended, and how the links that it served have.
#[derive(Clone, Copy, Debug, PartialEq, Eq)]
pub struct PostOutcome {
    pub end: PostEnd,
    pub counts: EndCounts,
}

/// One for each post.
pub type PostOutcomes = List<PostOutcome>;

/// What was hosted: the sessions in the end, and what came of each post. The ids are first those that were listed, and then those of the sessions that
/// were made on demand, in the order in which they were made.
#[derive(Drop)]
pub struct HostedOn {
    pub ids: SessionIds,
    pub sessions: Sessions,
    pub posts: PostOutcomes,
}

/// How the links of all these posts have ended.
pub fn counts_of_posts(posts: &[PostOutcome]) -> EndCounts
    ensures { result ≡ with_posts no_ends posts.now }
{
    let mut counts = EndCounts::new();
    for post in posts {
        counts = counts.with_counts(post.counts);
    }
    counts
}
