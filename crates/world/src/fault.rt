//! Why a world did not go on.

use tea_base::WantOfMemory;

/// Why a call of a world was refused.
#[derive(Clone, Copy, Debug, PartialEq, Eq)]
pub enum WorldFault {
    /// An earlier call wanted memory, so what the world holds is not known.
    Broken,
    /// The world's time is this already, in microseconds of TeaTime: it does not go back.
    Back { time: u64 },
    WantOfMemory,
}

impl From<WantOfMemory> for WorldFault {
    ghost use Rattle.std.specs.Prelude.{◌≡◌};
    ghost use Rattle.world.specs.declared.fault.WorldFault.TheVariants.{WantOfMemory as NoMemory};

    ghost from_gives = { λ _ r. r ≡ NoMemory };

    fn from(_error: WantOfMemory) -> WorldFault {
        WorldFault::WantOfMemory
    }
}
