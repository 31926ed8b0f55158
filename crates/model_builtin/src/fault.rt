//! Why a builtin gives no value.

use tea_base::WantOfMemory;

/// Why a builtin gives no value.
#[derive(Clone, Copy, Debug, PartialEq, Eq)]
pub enum BuiltinStop {
    /// An argument is of another kind than the builtin takes, or there are more or fewer than it takes.
    BadKind,
    /// A place in a list or a text is not there.
    BadIndex,
    /// The value would weigh more than 4,096, or nest lists deeper than 32.
    Size,
    WantOfMemory,
}

impl From<WantOfMemory> for BuiltinStop {
    ghost use Rattle.std.specs.Prelude.{◌≡◌};
    ghost use Rattle.model_builtin.specs.declared.fault.BuiltinStop.TheVariants.{WantOfMemory as NoMemory};

    ghost from_gives = { λ _ r. r ≡ NoMemory };

    fn from(_error: WantOfMemory) -> BuiltinStop {
        BuiltinStop::WantOfMemory
    }
}
