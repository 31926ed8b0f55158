//! Why no time line was made.
use tea_base::WantOfMemory;

/// Why no time line was made.
#[derive(Clone, Copy, Debug, PartialEq, Eq)]
pub enum LineFault {
    /// The number of the last keyframe would be above 128: it would be this.
    TooMany { frames: u32 },
    WantOfMemory,
}

impl From<WantOfMemory> for LineFault {
    ghost use Rattle.std.specs.Prelude.{◌≡◌};
    ghost use Rattle.time_line.specs.declared.fault.LineFault.TheVariants as faults;

    ghost from_gives = { λ _ fault. fault ≡ faults.WantOfMemory };

    fn from(_error: WantOfMemory) -> LineFault {
        LineFault::WantOfMemory
    }
}
