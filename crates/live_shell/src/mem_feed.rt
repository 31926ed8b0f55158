//! A feed in memory.
ghost use Rattle.std.specs.Prelude.{◌≡◌, ◌≤◌, [], Some, length};
ghost use Rattle.tea_io.specs.Told.{with_more};
ghost use Rattle.tea_io.specs.Calls.{IsAnswerOr, fails_at};
ghost use Rattle.live_shell.specs.Feeds.{note_of, TakesLine, FeedCause};
ghost use Rattle.live_shell.specs.MemFeed.{feed_answer, feed_after};

use crate::feed::{Fed, Feed};
use std::alloc::Global;
use std::marker::Model;
use tea_base::{Blob, Numbers};
use tea_io::Blobs;

/// A feed whose lines to come are kept in memory. The calls whose numbers it was given fail, and those whose numbers stand in the second
/// list tell nothing. They are counted from 1. A call that answers want of memory changes nothing: it is not counted.
#[derive(Drop)]
pub struct MemFeed {
    lines: Vec<Blob>,
    taken: usize,
    told: Vec<Fed>,
    failing: Numbers,
    idle: Numbers,
    next_call: u64,
    faults: u64,
    ghost within: { taken ≤ length lines.items },
}

impl Model for MemFeed {
    ghost use Rattle.std.specs.Prelude.{drop as drop_front};
    ghost use Rattle.live_shell.specs.MemFeed.{MemFeedState};

    ghost Value = { MemFeedState };

    ghost view = { λ feed. record {
      coming = drop_front feed.taken feed.lines.items;
      told = feed.told.items;
      failing = feed.failing;
      idle = feed.idle;
      next_call = feed.next_call;
      faults = feed.faults;
    } };
}

/// Whether the number of this call stands in the list.
fn is_among(numbers: &[u32], call: u64) -> bool
    ensures { result ≡ fails_at numbers.now call }
{
    numbers.iter().any(|number| u64::from(*number) == call)
}

impl MemFeed {
    /// A feed to which these lines come, and whose calls of these numbers fail, or tell nothing. Takes no memory.
    pub fn new(alloc: Global, lines: Blobs, fail: Numbers, idle: Numbers) -> MemFeed
        ensures coming { result.coming ≡ lines }
        ensures told { result.told ≡ [] }
        ensures failing { result.failing ≡ fail }
        ensures idle { result.idle ≡ idle }
        ensures first { result.next_call ≡ 1 }
        ensures faults { result.faults ≡ 0 }
    {
        MemFeed {
            lines: lines.into_vec(),
            taken: 0,
            told: Vec::new(alloc),
            failing: fail,
            idle,
            next_call: 1,
            faults: 0,
        }
    }

    /// What was told so far.
    pub fn told(&self) -> &[Fed]
        ensures { result.now ≡ self.now.told }
    {
        self.told.as_slice()
    }

    /// How often a call has failed.
    pub fn faults(&self) -> u64
        ensures { result ≡ self.now.faults }
    {
        self.faults
    }
}

impl Feed for MemFeed {
    ghost coming = { λ feed. Some feed.coming };

    ghost told = { λ feed. Some feed.told };

    ghost faults = { λ feed. feed.faults };

    fn next(&mut self) -> Fed
        ensures told { Some self.new.told ≡ with_more (Some self.old.told) (note_of result) }
        ensures coming { TakesLine (Some self.old.coming) (Some self.new.coming) result }
        ensures later { self.old.faults ≤ self.new.faults }
        ensures cause { FeedCause self.old.faults self.new.faults result }

        // What it answers but for want of memory, and all that it leaves.
        ensures answer { IsAnswerOr Fed.WantOfMemory (feed_answer self.old) result }
        ensures leaves { self.new ≡ feed_after result self.old }
    {
        // Room for the note comes first: then nothing is refused behind what changes.
        if self.told.reserve(1).is_err() {
            return Fed::WantOfMemory;
        }
        if is_among(self.failing.as_slice(), self.next_call) {
            self.told.push_reserved(Fed::Failed);
            self.next_call = self.next_call.saturating_add(1);
            self.faults = self.faults.saturating_add(1);
            return Fed::Failed;
        }
        if is_among(self.idle.as_slice(), self.next_call) {
            self.told.push_reserved(Fed::Nothing);
            self.next_call = self.next_call.saturating_add(1);
            return Fed::Nothing;
        }
        if self.taken == self.lines.len() {
            self.told.push_reserved(Fed::Closed);
            self.next_call = self.next_call.saturating_add(1);
            return Fed::Closed;
        }
        let Ok(note) = self.lines[self.taken].clone() else {
            return Fed::WantOfMemory;
        };
        let Ok(line) = self.lines[self.taken].clone() else {
            return Fed::WantOfMemory;
        };
        self.told.push_reserved(Fed::Line(note));
        self.next_call = self.next_call.saturating_add(1);
        self.taken += 1;
        Fed::Line(line)
    }

    /// No time goes by in memory.
    fn pause(&mut self)
        ensures told { Some self.new.told ≡ Some self.old.told }
        ensures coming { Some self.new.coming ≡ Some self.old.coming }
        ensures faults { self.new.faults ≡ self.old.faults }
        ensures leaves { self.new ≡ self.old }
    {}
}
