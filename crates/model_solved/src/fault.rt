//! Why a program is refused.

use tea_base::{Text, WantOfMemory};

/// Why a program was not taken.
#[derive(Debug, Drop)]
pub enum CheckFault {
    /// A class, a field or a method of one class, or a parameter of one method, is named a second time, or a `let` has a name
    /// that is in scope. A field and a method may share a name.
    Twice { name: Text },
    /// A local is not in scope, or a call names no builtin. A parameter is in scope in its method, and the name of a `let`
    /// behind it to the end of its block.
    NoName { name: Text },
    /// `create` of a class that the program lacks. It may stand behind the `create`.
    NoClass { name: Text },
    /// The class has no such field.
    NoField { name: Text },
    /// A builtin with another number of arguments than it takes.
    Count { name: Text },
    /// No class is named `Root`. Comes only where there is no other fault.
    NoRoot,
    WantOfMemory,
}

impl From<WantOfMemory> for CheckFault {
    ghost use Rattle.std.specs.Prelude.{◌≡◌};
    ghost use Rattle.model_solved.specs.declared.fault.CheckFault.TheVariants.{WantOfMemory};

    ghost from_gives = { λ _ r. r ≡ WantOfMemory };

    fn from(_error: WantOfMemory) -> CheckFault {
        CheckFault::WantOfMemory
    }
}
