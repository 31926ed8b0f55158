//! The piece at the front of a text: a blank, a comment or a token.
ghost use Rattle.model_tokens.specs.Reader.{next_piece};
ghost use Rattle.model_tokens.specs.Answer.{ReadsPiece};

use crate::bytes::{ByteKind, begins};
use crate::dividing::TokenFault;
use crate::literals::literal;
use crate::names::name;
use crate::numbers::number;
use crate::symbols::other;
use crate::token::Token;
use std::alloc::Global;

/// The token at the front if the piece there is one, and the bytes behind the piece.
pub fn piece<'a>(alloc: Global, text: &'a [u8]) -> Result<(Option<Token>, &'a [u8]), TokenFault>
    ensures { ReadsPiece result (next_piece text.now) }
{
    let Some((first, behind)) = text.split_first() else {
        return Err(TokenFault::NoToken);
    };
    let (token, rest) = match begins(*first) {
        ByteKind::Blank => return Ok((None, behind)),
        ByteKind::Other => return other(text),
        ByteKind::Digit => number(text)?,
        ByteKind::Letter => name(alloc, text)?,
        ByteKind::Quote => literal(alloc, behind)?,
    };
    Ok((Some(token), rest))
}
