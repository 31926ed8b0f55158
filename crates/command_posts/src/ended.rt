//! How posts have ended, all together.
ghost use Rattle.std.specs.Prelude.{◌≡◌};
ghost use Rattle.command_posts.specs.PostsEnded.{has_end, is_failed, is_want, no_posts, post_ends, posts_fault, with_post};

use host_posts::{PostEnd, PostOutcome};
use tea_io::NetFault;

/// How many posts have ended in each way. Each count stays at the last value of a `u64`.
#[derive(Clone, Copy, Debug, PartialEq, Eq)]
pub struct PostEnds {
    pub stopped: u64,
    pub failed: u64,
    pub want_of_memory: u64,
    pub spent: u64,
}

impl PostEnds {
    /// One more has ended so.
    fn with_post(mut self, end: PostEnd) -> PostEnds
        ensures { result ≡ with_post self end }
    {
        match end {
            PostEnd::Stopped => self.stopped = self.stopped.saturating_add(1),
            PostEnd::Failed => self.failed = self.failed.saturating_add(1),
            PostEnd::WantOfMemory => self.want_of_memory = self.want_of_memory.saturating_add(1),
            PostEnd::Spent => self.spent = self.spent.saturating_add(1),
        }
        self
    }
}

/// In which ways these posts have ended.
pub(crate) fn post_ends(posts: &[PostOutcome]) -> PostEnds
    ensures { result ≡ post_ends no_posts posts.now }
{
    let mut ends = PostEnds {
        stopped: 0,
        failed: 0,
        want_of_memory: 0,
        spent: 0,
    };
    for post in posts {
        ends = ends.with_post(post.end);
    }
    ends
}

/// Whether a post has ended so because a call of the net failed.
fn is_failed(end: PostEnd) -> bool
    ensures { result ≡ is_failed end }
{
    matches!(end, PostEnd::Failed)
}

/// Whether it wanted memory.
fn is_want(end: PostEnd) -> bool
    ensures { result ≡ is_want end }
{
    matches!(end, PostEnd::WantOfMemory)
}

/// Whether a call of the net failed at one of these posts.
fn has_failed(posts: &[PostOutcome]) -> bool
    ensures { result ≡ has_end is_failed posts.now }
{
    for post in posts {
        if is_failed(post.end) {
            return true;
        }
    }
    false
}

/// Whether one of these posts wanted memory.
fn has_wanted(posts: &[PostOutcome]) -> bool
    ensures { result ≡ has_end is_want posts.now }
{
    for post in posts {
        if is_want(post.end) {
            return true;
        }
    }
    false
}

/// The fault of posts, where one of them has ended by one.
pub fn posts_fault(posts: &[PostOutcome]) -> Option<NetFault>
    ensures { result ≡ posts_fault posts.now }
{
    if has_failed(posts) {
        Some(NetFault::Failed)
    } else if has_wanted(posts) {
        Some(NetFault::WantOfMemory)
    } else {
        None
    }
}
