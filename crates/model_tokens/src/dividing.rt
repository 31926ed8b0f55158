//! A text divided into tokens.
ghost use Rattle.std.specs.Prelude.{◌≡◌, ℕ, List as PlainList};
ghost use Rattle.model_tokens.specs.Division.{Divides, Tokenizes};
ghost use Rattle.model_tokens.specs.declared.token.Token.{Token as Held};

use crate::pieces::piece;
use crate::token::Tokens;
use std::alloc::Global;
use tea_base::{List, WantOfMemory};

/// Why a text was not divided into tokens.
#[derive(Clone, Copy, Debug, PartialEq, Eq)]
pub enum TokenFault {
    /// Somewhere no token begins, so the text is divided in no way.
    NoToken,
    WantOfMemory,
}

impl From<WantOfMemory> for TokenFault {
    ghost use Rattle.model_tokens.specs.declared.dividing.TokenFault.TheVariants.{WantOfMemory};

    ghost from_gives = { λ _ fault. fault ≡ WantOfMemory };

    fn from(_error: WantOfMemory) -> Self {
        TokenFault::WantOfMemory
    }
}

/// The tokens of a text, in order. The text is any bytes.
///
/// Space, tab, CR, LF and comments divide tokens, and each token is as long as it can be. Fails with `NoToken` exactly
/// where the text is divided into tokens in no way.
pub fn tokens(alloc: Global, text: &[u8]) -> Result<Tokens, TokenFault>
    ensures { Tokenizes result text.now }
{
    let mut tokens = List::new(alloc);
    let mut rest = text;
    while !rest.is_empty() {
        let (found, behind) = piece(alloc, rest)?;
        if let Some(token) = found {
            tokens.push(token)?;
        }
        rest = behind;
    }
    Ok(tokens)
}

/// A text is divided into one list of tokens, or into none.
pub fn one_division()
    ensures { (text : PlainList ℕ) (ts us : PlainList Held) → Divides ts text → Divides us text → ts ≡ us }
{}
