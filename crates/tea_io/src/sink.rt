//! Where bytes are written.
ghost use Rattle.std.specs.Prelude.{◌≡◌, ℕ, List, Option, OnOk, OnErr};
ghost use Rattle.tea_io.specs.declared.sink.SinkFault.TheVariants.{WantOfMemory};
ghost use Rattle.tea_io.specs.Told.{with_more};
ghost use Rattle.tea_io.specs.Sink.{GrowsWithin, SinkCause, SinkWant};

/// Why a piece was not written whole.
#[derive(Clone, Copy, Debug, PartialEq, Eq)]
pub enum SinkFault {
    /// The write failed. This is counted.
    Failed,
    /// An allocation was refused. This is counted too.
    WantOfMemory,
}

impl From<tea_base::WantOfMemory> for SinkFault {
    ghost from_gives = { λ _ fault. fault ≡ WantOfMemory };

    fn from(_: tea_base::WantOfMemory) -> Self {
        SinkFault::WantOfMemory
    }
}

/// A place that bytes are written to, one piece behind the other.
pub trait Sink {
    /// The bytes written so far, where they are told.
    ghost written: { Self → Option (List ℕ) };

    /// How often a write has failed.
    ghost faults: { Self → ℕ };

    /// How often a write has wanted memory.
    ghost wants: { Self → ℕ };

    /// Writes all the bytes, or at an error a first part of them.
    fn write(&mut self, bytes: &[u8]) -> Result<(), SinkFault>
        ensures ok { OnOk result (written self.new ≡ with_more (written self.old) bytes.now) }
        ensures part { OnErr result (GrowsWithin (written self.old) (written self.new) bytes.now) }
        ensures cause { SinkCause (faults self.old) (faults self.new) result }
        ensures want { SinkWant (wants self.old) (wants self.new) result };
}
