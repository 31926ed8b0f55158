//! Symbols and comments.
ghost use Rattle.std.specs.Prelude.{◌≡◌};
ghost use Rattle.model_tokens.specs.Reader.{single_among, singles, double_of, symbol_at, comment_at, other_at};
ghost use Rattle.model_tokens.specs.Answer.{ReadsPiece, FindsSymbolAt, FindsComment};

use crate::bytes::line_length;
use crate::dividing::TokenFault;
use crate::token::{Symbol, Token};

fn single(byte: u8) -> Option<Symbol>
    ensures { result ≡ single_among singles byte }
{
    match byte {
        b'{' => Some(Symbol::OpenBrace),
        b'}' => Some(Symbol::CloseBrace),
        b'(' => Some(Symbol::OpenRound),
        b')' => Some(Symbol::CloseRound),
        b'[' => Some(Symbol::OpenSquare),
        b']' => Some(Symbol::CloseSquare),
        b',' => Some(Symbol::Comma),
        b';' => Some(Symbol::Semicolon),
        b'.' => Some(Symbol::Dot),
        b'=' => Some(Symbol::Assign),
        b'<' => Some(Symbol::Less),
        b'>' => Some(Symbol::Greater),
        b'+' => Some(Symbol::Plus),
        b'-' => Some(Symbol::Minus),
        b'*' => Some(Symbol::Times),
        b'/' => Some(Symbol::Divide),
        b'%' => Some(Symbol::Rest),
        b'!' => Some(Symbol::Not),
        _ => None,
    }
}

fn double(first: u8, second: u8) -> Option<Symbol>
    ensures { result ≡ double_of first second }
{
    match (first, second) {
        (b'=', b'=') => Some(Symbol::Same),
        (b'!', b'=') => Some(Symbol::Differs),
        (b'<', b'=') => Some(Symbol::AtMost),
        (b'>', b'=') => Some(Symbol::AtLeast),
        (b'&', b'&') => Some(Symbol::And),
        (b'|', b'|') => Some(Symbol::Or),
        _ => None,
    }
}

/// The symbol at the front, and the bytes behind it.
fn symbol(text: &[u8]) -> Option<(Token, &[u8])>
    ensures { FindsSymbolAt result (symbol_at text.now) }
{
    if let [first, second, behind @ ..] = text {
        if let Some(symbol) = double(*first, *second) {
            return Some((Token::Symbol(symbol), behind));
        }
    }
    let (first, behind) = text.split_first()?;
    Some((Token::Symbol(single(*first)?), behind))
}

/// What stands behind `//` at the front.
fn comment(text: &[u8]) -> Option<&[u8]>
    ensures { FindsComment result (comment_at text.now) }
{
    match text {
        [b'/', b'/', behind @ ..] => Some(behind),
        _ => None,
    }
}

/// The symbol or the comment at the front, and the bytes behind it.
pub fn other(text: &[u8]) -> Result<(Option<Token>, &[u8]), TokenFault>
    ensures { ReadsPiece result (other_at text.now) }
{
    if let Some(line) = comment(text) {
        return Ok((None, &line[line_length(line)..]));
    }
    match symbol(text) {
        Some((token, behind)) => Ok((Some(token), behind)),
        None => Err(TokenFault::NoToken),
    }
}
