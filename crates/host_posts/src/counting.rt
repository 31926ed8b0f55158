//! How often links have ended in each way.
ghost use Rattle.std.specs.Prelude.{◌≡◌};
ghost use Rattle.host_posts.specs.Counts.{both_counts, no_ends, with_end, with_session, with_way};

use connection::Ended;
use host_server::HostEnd;

/// How many links have ended in each way. Each count stays at the last value of a `u64`.
#[derive(Clone, Copy, Debug, PartialEq, Eq)]
pub struct EndCounts {
    /// Those that gave no frame. Each of them is counted by its end too.
    pub silent: u64,
    pub left: u64,
    pub link_end: u64,
    pub link_fault: u64,
    pub idle: u64,
    pub stale: u64,
    pub refused: u64,
    pub want_of_memory: u64,
    pub unkept: u64,
}

impl EndCounts {
    /// None has ended.
    pub fn new() -> EndCounts
        ensures { result ≡ no_ends }
    {
        EndCounts {
            silent: 0,
            left: 0,
            link_end: 0,
            link_fault: 0,
            idle: 0,
            stale: 0,
            refused: 0,
            want_of_memory: 0,
            unkept: 0,
        }
    }

    /// One more has ended so.
    fn with_way(mut self, ended: Ended) -> EndCounts
        ensures { result ≡ with_way ended self }
    {
        match ended {
            Ended::Left => self.left = self.left.saturating_add(1),
            Ended::LinkEnd => self.link_end = self.link_end.saturating_add(1),
            Ended::LinkFault => self.link_fault = self.link_fault.saturating_add(1),
            Ended::Idle { .. } => self.idle = self.idle.saturating_add(1),
            Ended::Stale { .. } => self.stale = self.stale.saturating_add(1),
            Ended::Refused { .. } => self.refused = self.refused.saturating_add(1),
            Ended::WantOfMemory => self.want_of_memory = self.want_of_memory.saturating_add(1),
            Ended::Unkept => self.unkept = self.unkept.saturating_add(1),
        }
        self
    }

    /// One that gave no frame is counted as silent too.
    fn with_session(mut self, session: Option<u32>) -> EndCounts
        ensures { result ≡ with_session session self }
    {
        if session.is_none() {
            self.silent = self.silent.saturating_add(1);
        }
        self
    }

    /// One more has ended so.
    pub(crate) fn with_end(self, end: HostEnd) -> EndCounts
        ensures { result ≡ with_end self end }
    {
        self.with_session(end.session).with_way(end.ended)
    }

    /// The sums of both.
    pub(crate) fn with_counts(self, more: EndCounts) -> EndCounts
        ensures { result ≡ both_counts self more }
    {
        EndCounts {
            silent: self.silent.saturating_add(more.silent),
            left: self.left.saturating_add(more.left),
            link_end: self.link_end.saturating_add(more.link_end),
            link_fault: self.link_fault.saturating_add(more.link_fault),
            idle: self.idle.saturating_add(more.idle),
            stale: self.stale.saturating_add(more.stale),
            refused: self.refused.saturating_add(more.refused),
            want_of_memory: self.want_of_memory.saturating_add(more.want_of_memory),
            unkept: self.unkept.saturating_add(more.unkept),
        }
    }
}
