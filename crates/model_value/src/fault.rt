//! Why bytes are not read.

use tea_base::WantOfMemory;

/// Why no value was read.
#[derive(Clone, Copy, Debug, PartialEq, Eq)]
pub enum ValueFault {
    /// No value in bounds has this spelling.
    BadValue,
    WantOfMemory,
}

impl From<WantOfMemory> for ValueFault {
    ghost use Rattle.std.specs.Prelude.{◌≡◌};
    ghost use Rattle.model_value.specs.declared.fault.ValueFault.TheVariants as faults;

    ghost from_gives = { λ _ fault. fault ≡ faults.WantOfMemory };

    fn from(_error: WantOfMemory) -> ValueFault {
        ValueFault::WantOfMemory
    }
}
