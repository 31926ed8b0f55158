//! Why JSON is not read.

use tea_base::WantOfMemory;

/// Why no value was read.
#[derive(Clone, Copy, Debug, PartialEq, Eq)]
pub enum JsonFault {
    /// The bytes are no JSON of a value that can be saved.
    BadJson,
    WantOfMemory,
}

impl From<WantOfMemory> for JsonFault {
    ghost use Rattle.std.specs.Prelude.{◌≡◌};
    ghost use Rattle.persist_json.specs.declared.fault.JsonFault.TheVariants as faults;

    ghost from_gives = { λ _ fault. fault ≡ faults.WantOfMemory };

    fn from(_error: WantOfMemory) -> JsonFault {
        JsonFault::WantOfMemory
    }
}
