//! Why bytes are no snapshot of a session.
ghost use Rattle.std.specs.Prelude.{◌≡◌};
ghost use Rattle.snapshot_codec.specs.declared.fault.SnapFault.TheVariants as faults;

use tea_base::{SessionId, WantOfMemory};

/// Why no world was read from bytes.
#[derive(Clone, Copy, Debug, PartialEq, Eq)]
pub enum SnapFault {
    /// The bytes begin with the id of another session.
    OtherSession { found: SessionId },
    /// No valid world of the program and the session has this spelling.
    Bad,
    WantOfMemory,
}

impl From<WantOfMemory> for SnapFault {
    ghost from_gives = { λ _ fault. fault ≡ faults.WantOfMemory };

    fn from(_error: WantOfMemory) -> Self {
        SnapFault::WantOfMemory
    }
}
