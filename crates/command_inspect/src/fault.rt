//! Why no queries were read.
use tea_base::WantOfMemory;

/// Why no queries were read.
#[derive(Clone, Copy, Debug, PartialEq, Eq)]
pub enum QueriesFault {
    /// The bytes are no queries.
    Bad,
    WantOfMemory,
}

impl From<WantOfMemory> for QueriesFault {
    ghost use Rattle.std.specs.Prelude.{◌≡◌};
    ghost use Rattle.command_inspect.specs.declared.fault.QueriesFault.TheVariants as faults;

    ghost from_gives = { λ _ fault. fault ≡ faults.WantOfMemory };

    fn from(_error: WantOfMemory) -> QueriesFault {
        QueriesFault::WantOfMemory
    }
}
