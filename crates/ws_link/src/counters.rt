//! How often a link failed, was quiet and told the end.
ghost use Rattle.std.specs.Prelude.{◌≡◌};
ghost use Rattle.tea_io.specs.Links.{no_counts, NoneFalls, CountRises, SendCause};
ghost use Rattle.tea_io.specs.Nets.{plus};
ghost use Rattle.ws_link.specs.Counting.{counts_of};

use tea_io::{Heard, LinkFault};

/// The counts of a link. One that stands at its last value stays there.
#[derive(Clone, Copy)]
pub struct Counters {
    pub faults: u64,
    pub quiets: u64,
    pub ends: u64,
}

impl Counters {
    /// Nothing is counted yet.
    pub fn new() -> Counters
        ensures { counts_of result ≡ no_counts }
    {
        Counters {
            faults: 0,
            quiets: 0,
            ends: 0,
        }
    }

    /// Counts what a receive tells.
    pub fn note_heard(&mut self, heard: &Heard)
        ensures later { NoneFalls (counts_of self.old) (counts_of self.new) }
        ensures cause { CountRises (counts_of self.old) (counts_of self.new) heard.now }
    {
        match heard {
            Heard::Frame(_) | Heard::WantOfMemory => {}
            Heard::Quiet => self.quiets = self.quiets.saturating_add(1),
            Heard::End => self.ends = self.ends.saturating_add(1),
            Heard::Failed => self.faults = self.faults.saturating_add(1),
        }
    }

    /// Counts a send that failed.
    pub fn note_sent(&mut self, sent: Result<(), LinkFault>)
        ensures later { NoneFalls (counts_of self.old) (counts_of self.new) }
        ensures cause { SendCause (counts_of self.old) (counts_of self.new) sent }
    {
        if sent == Err(LinkFault::Failed) {
            self.faults = self.faults.saturating_add(1);
        }
    }

    /// Adds the counts of another link.
    pub fn add(&mut self, other: Counters)
        ensures { counts_of self.new ≡ plus (counts_of self.old) (counts_of other) }
    {
        self.faults = self.faults.saturating_add(other.faults);
        self.quiets = self.quiets.saturating_add(other.quiets);
        self.ends = self.ends.saturating_add(other.ends);
    }
}
