//! A link to one peer.
ghost use Rattle.std.specs.Prelude.{◌≡◌, ℕ, Bool, true, List, Option};
ghost use Rattle.tea_io.specs.declared.link.Heard.{Heard};
ghost use Rattle.tea_io.specs.declared.link.LinkFault.TheVariants.{WantOfMemory};
ghost use Rattle.tea_io.specs.Told.{with_more};
ghost use Rattle.tea_io.specs.Links.{Counts, note_of, TakesFrame, NoneFalls, CountRises, Sends, SendCause};

use tea_base::Blob;

/// A link is given up once it was quiet at so many receives in a row, whatever time that took.
pub const MOST_QUIETS: u32 = 6000;

/// What a receive tells.
#[derive(Debug, Drop)]
pub enum Heard {
    /// The next frame.
    Frame(Blob),
    /// No frame came for a while.
    Quiet,
    /// No frame will come.
    End,
    /// The receive failed. This is counted.
    Failed,
    /// An allocation was refused. No frame was taken.
    WantOfMemory,
}

/// Why a frame was not sent.
#[derive(Clone, Copy, Debug, PartialEq, Eq)]
pub enum LinkFault {
    /// The send failed. This is counted.
    Failed,
    /// An allocation was refused. Nothing was sent.
    WantOfMemory,
}

impl From<tea_base::WantOfMemory> for LinkFault {
    ghost from_gives = { λ _ fault. fault ≡ WantOfMemory };

    fn from(_: tea_base::WantOfMemory) -> Self {
        LinkFault::WantOfMemory
    }
}

/// A link that carries frames in both directions, whole and in order. Where an implementation knows
/// what comes, what it told and what it was given to send, it tells it to the proofs of its callers.
pub trait Link {
    /// The frames to come, where they are told.
    ghost coming: { Self → Option (List (List ℕ)) };

    /// What was heard so far, where it is told.
    ghost heard: { Self → Option (List Heard) };

    /// The frames sent so far, where they are told.
    ghost sent: { Self → Option (List (List ℕ)) };

    /// How often it failed, was quiet and said that it has ended. They are 0 when it is made.
    ghost counts: { Self → Counts };

    /// Whether it was closed.
    ghost closed: { Self → Bool };

    /// What comes next.
    fn recv(&mut self) -> Heard
        ensures heard { heard self.new ≡ with_more (heard self.old) (note_of result) }
        ensures coming { TakesFrame (coming self.old) (coming self.new) result }
        ensures sent { sent self.new ≡ sent self.old }
        ensures later { NoneFalls (counts self.old) (counts self.new) }
        ensures cause { CountRises (counts self.old) (counts self.new) result };

    /// Sends a frame. Where the call fails, it was sent whole or not at all.
    fn send(&mut self, frame: &[u8]) -> Result<(), LinkFault>
        ensures sent { Sends (sent self.old) (sent self.new) frame.now result }
        ensures heard { heard self.new ≡ heard self.old }
        ensures coming { coming self.new ≡ coming self.old }
        ensures later { NoneFalls (counts self.old) (counts self.new) }
        ensures cause { SendCause (counts self.old) (counts self.new) result };

    /// Its talk is over: whoever has it neither receives nor sends any more. So it may tell its peer that, and let go of the connection,
    /// before it is given back. Nothing else that is told changes, and nothing is counted.
    fn close(&mut self)
        ensures closed { closed self.new ≡ true }
        ensures heard { heard self.new ≡ heard self.old }
        ensures coming { coming self.new ≡ coming self.old }
        ensures sent { sent self.new ≡ sent self.old }
        ensures counts { counts self.new ≡ counts self.old };
}
