//! How the run of a view ends.
ghost use Rattle.std.specs.Prelude.{◌≡◌};

use run_steps::CallFault;
use tea_base::WantOfMemory;

/// How the run of a view ends.
#[derive(Clone, Copy, Debug, PartialEq, Eq)]
pub enum ViewEnd {
    /// Its script is done, and it has left.
    Done,
    /// The reflector refused a frame other than a snapshot, with this code and the value that comes with it.
    Refused { code: u8, kept: u64 },
    /// A call of the net or of the link failed.
    NetFault,
    /// The link said that it has ended, or was quiet 6,000 times in a row.
    Ended,
    /// The reflector sent bytes that are no frame, or a frame that a replica takes at no time, or not then.
    Peer,
    /// A text was not printed.
    WriteFault,
    WantOfMemory,
}

impl From<WantOfMemory> for ViewEnd {
    ghost use Rattle.std.specs.Prelude.{◌≡◌};
    ghost use Rattle.view_shell.specs.declared.ending.ViewEnd.TheVariants as ends;

    ghost from_gives = { λ _ end. end ≡ ends.WantOfMemory };

    fn from(_error: WantOfMemory) -> Self {
        ViewEnd::WantOfMemory
    }
}
