//! Why a frame was not taken, or an event not published.
use tea_base::WantOfMemory;

/// Why a replica did not take a frame.
#[derive(Clone, Copy, Debug, PartialEq, Eq)]
pub enum ReplicaFault {
    /// Nobody asked for it: a Sync that is not awaited, or another frame before a Sync was taken.
    Unasked,
    /// It is not the one that comes next.
    OutOfOrder {
        expected: u32,
        found: u32,
    },
    /// The world's time is this already, in microseconds of TeaTime.
    Back {
        time: u64,
    },
    /// No base was asked for, or the base is no snapshot of the session at its time.
    BadBase,
    /// An earlier frame wanted memory, so what the world holds is not known.
    Broken,
    /// The reflector refused a frame of the view.
    Refused {
        /// The tag of that frame; 0 of one that did not read.
        about: u8,
        /// Which refusal it is.
        code: u8,
        /// The number that the refusal carries; 0 where it carries none.
        kept: u64,
    },
    WantOfMemory,
}

/// Why an event was not published.
#[derive(Clone, Copy, Debug, PartialEq, Eq)]
pub enum PublishRefusal {
    /// Its payload has this many bytes, and may have 4,096. A greater number than 4,294,967,295 is told as that one.
    TooLong { len: u32 },
    /// This many events were published, and no more may be.
    Full { count: u32 },
    WantOfMemory,
}

impl From<WantOfMemory> for ReplicaFault {
    ghost use Rattle.std.specs.Prelude.{◌≡◌};
    ghost use Rattle.replica_plain.specs.declared.fault.ReplicaFault.TheVariants as faults;

    ghost from_gives = { λ _ fault. fault ≡ faults.WantOfMemory };

    fn from(_error: WantOfMemory) -> Self {
        ReplicaFault::WantOfMemory
    }
}

impl From<WantOfMemory> for PublishRefusal {
    ghost use Rattle.std.specs.Prelude.{◌≡◌};
    ghost use Rattle.replica_plain.specs.declared.fault.PublishRefusal.TheVariants as refusals;

    ghost from_gives = { λ _ refusal. refusal ≡ refusals.WantOfMemory };

    fn from(_error: WantOfMemory) -> Self {
        PublishRefusal::WantOfMemory
    }
}
