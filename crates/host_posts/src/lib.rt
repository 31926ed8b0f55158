//! A host that goes on until it is stopped: so many posts, each a thread that serves one link after the other from its own share of a net.
//!
//! [`host_on`] says what comes of it: each session is as if it were alone, by the links of all posts. Nothing grows by the links that came,
//! but for the logs.
#![tactic(auto)]

mod counting;
mod hosting;
mod post;
mod posting;
mod running;
mod serving;
mod splitting;
mod taking;

pub use counting::EndCounts;
pub use hosting::host_on;
pub use post::Post;
pub use posting::{
    HostedOn, MOST_LINKS, MOST_POSTS, PostEnd, PostOutcome, PostOutcomes, Posts, counts_of_posts,
};
pub use running::{EndedPost, PostRound, PostService, gather_posts, run_posts};
pub use splitting::split_passes;
