//! Lines that come from outside.
ghost use Rattle.std.specs.Prelude.{◌≡◌, ◌≤◌, ℕ, List, Option};
ghost use Rattle.tea_io.specs.Told.{with_more};
ghost use Rattle.live_shell.specs.declared.feed.Fed.{Fed};
ghost use Rattle.live_shell.specs.Feeds.{note_of, TakesLine, FeedCause};

use tea_base::Blob;

/// What a feed tells.
#[derive(Debug, Drop)]
pub enum Fed {
    /// The next line, without the LF that ends it and without a CR before that.
    Line(Blob),
    /// No line has come whole.
    Nothing,
    /// No line will come.
    Closed,
    /// The read failed. This is counted.
    Failed,
    /// An allocation was refused. No line was taken.
    WantOfMemory,
}

/// Lines that come in order. Where an implementation knows what comes and what it told, it tells it to the proofs of its callers.
pub trait Feed {
    /// The lines to come, where they are told.
    ghost coming: { Self → Option (List (List ℕ)) };

    /// What it told so far, where it is told.
    ghost told: { Self → Option (List Fed) };

    /// How often it has failed.
    ghost faults: { Self → ℕ };

    /// What comes next. It does not wait for it.
    fn next(&mut self) -> Fed
        ensures told { told self.new ≡ with_more (told self.old) (note_of result) }
        ensures coming { TakesLine (coming self.old) (coming self.new) result }
        ensures later { faults self.old ≤ faults self.new }
        ensures cause { FeedCause (faults self.old) (faults self.new) result };

    /// Lets some time go by, before another link is made in place of one that is gone.
    fn pause(&mut self)
        ensures told { told self.new ≡ told self.old }
        ensures coming { coming self.new ≡ coming self.old }
        ensures faults { faults self.new ≡ faults self.old };
}
