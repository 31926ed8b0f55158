//! Why a text is refused.
ghost use Rattle.std.specs.Prelude.{ℕ, ◌≡◌, length};

use model_tokens::Token;
use model_tree::Bound;
use tea_base::WantOfMemory;

/// Why a text was not read as a program.
#[derive(Clone, Copy, Debug, PartialEq, Eq)]
pub enum LangFault {
    /// The text is no program. `at` is the place, in bytes, of the first byte that no token can begin or go on with, of a
    /// number that is too large or a name that is too long, or of the first token at which no program can go on; it is the
    /// length of the text where more would have to follow.
    Syntax { at: u32 },
    /// The text passes a bound. `count` is the number of bytes, of classes, or the first number of fields, of methods, of
    /// parameters or arguments that is above the bound; of brackets and operators it is 33.
    TooLarge { what: Bound, count: u64 },
    WantOfMemory,
}

/// Why tokens were not read on.
#[derive(Clone, Copy, Debug, PartialEq, Eq)]
pub enum ParseStop {
    /// No program can go on at the token that so many tokens, itself among them, are left from.
    NoProgram { left: usize },
    WantOfMemory,
}

impl ParseStop {
    /// The stop at the first of these tokens.
    pub fn at(tokens: &[Token]) -> ParseStop
        ensures { result ≡ ParseStop.NoProgram (length tokens.now) }
    {
        ParseStop::NoProgram { left: tokens.len() }
    }

    /// The stop at the token before these.
    pub fn before(tokens: &[Token]) -> ParseStop
        ensures { (left : ℕ) × (result ≡ ParseStop.NoProgram left) }
    {
        ParseStop::NoProgram {
            left: tokens.len().saturating_add(1),
        }
    }
}

impl From<WantOfMemory> for LangFault {
    ghost use Rattle.std.specs.Prelude.{◌≡◌};
    ghost use Rattle.model_lang.specs.declared.fault.LangFault.TheVariants.{WantOfMemory};

    ghost from_gives = { λ _ r. r ≡ WantOfMemory };

    fn from(_error: WantOfMemory) -> LangFault {
        LangFault::WantOfMemory
    }
}

impl From<WantOfMemory> for ParseStop {
    ghost use Rattle.std.specs.Prelude.{◌≡◌};
    ghost use Rattle.model_lang.specs.declared.fault.ParseStop.TheVariants.{WantOfMemory};

    ghost from_gives = { λ _ r. r ≡ WantOfMemory };

    fn from(_error: WantOfMemory) -> ParseStop {
        ParseStop::WantOfMemory
    }
}
