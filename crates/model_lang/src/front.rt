//! The token at the front, and the tokens behind it.
ghost use Rattle.model_lang.specs.Answer.{IsBehind, Expects, ExpectsName, ParsesPart, FindsName};
ghost use Rattle.model_lang.specs.Reader.{after_word, after_symbol, name_at, class_name_at, call_head, message_head, create_head};

use crate::fault::ParseStop;
use model_tokens::{Symbol, Token, Word};
use tea_base::Text;

/// The tokens behind a reserved word, if it is at the front.
pub fn word(tokens: &[Token], wanted: Word) -> Option<&[Token]>
    ensures { IsBehind result (after_word wanted tokens.now) }
{
    match tokens.split_first() {
        Some((Token::Word(found), rest)) if *found == wanted => Some(rest),
        _ => None,
    }
}

/// The tokens behind a symbol, if it is at the front.
pub fn symbol(tokens: &[Token], wanted: Symbol) -> Option<&[Token]>
    ensures { IsBehind result (after_symbol wanted tokens.now) }
{
    match tokens.split_first() {
        Some((Token::Symbol(found), rest)) if *found == wanted => Some(rest),
        _ => None,
    }
}

/// The tokens behind a reserved word, which must be at the front.
pub fn expect_word(tokens: &[Token], wanted: Word) -> Result<&[Token], ParseStop>
    ensures { Expects result (after_word wanted tokens.now) }
{
    word(tokens, wanted).ok_or(ParseStop::at(tokens))
}

/// The tokens behind a symbol, which must be at the front.
pub fn expect_symbol(tokens: &[Token], wanted: Symbol) -> Result<&[Token], ParseStop>
    ensures { Expects result (after_symbol wanted tokens.now) }
{
    symbol(tokens, wanted).ok_or(ParseStop::at(tokens))
}

/// The name at the front, if one is there, and the tokens behind it.
pub fn name_at(tokens: &[Token]) -> Option<(&Text, &[Token])>
    ensures { FindsName result (name_at tokens.now) }
{
    match tokens.split_first() {
        Some((Token::Name(found), rest)) => Some((found, rest)),
        _ => None,
    }
}

/// The name at the front, which must be there, and the tokens behind it.
fn expect_name(tokens: &[Token]) -> Result<(&Text, &[Token]), ParseStop>
    ensures { ExpectsName result (name_at tokens.now) }
{
    name_at(tokens).ok_or(ParseStop::at(tokens))
}

/// The name of a class at the front, which must be there, and the tokens behind it.
fn expect_class_name(tokens: &[Token]) -> Result<(&Text, &[Token]), ParseStop>
    ensures { ExpectsName result (class_name_at tokens.now) }
{
    match tokens.split_first() {
        Some((Token::ClassName(found), rest)) => Ok((found, rest)),
        _ => Err(ParseStop::at(tokens)),
    }
}

/// The name of a call, and the tokens behind the `(` of its arguments.
pub fn call_head(tokens: &[Token]) -> Result<(&Text, &[Token]), ParseStop>
    ensures { ExpectsName result (call_head tokens.now) }
{
    let (name, rest) = expect_name(tokens)?;
    Ok((name, expect_symbol(rest, Symbol::OpenRound)?))
}

/// The name of a message behind the delay of a future, from its `)` on, and the tokens behind the `(` of its arguments.
pub fn message_head(tokens: &[Token]) -> Result<(&Text, &[Token]), ParseStop>
    ensures { ExpectsName result (message_head tokens.now) }
{
    let rest = expect_symbol(tokens, Symbol::CloseRound)?;
    let rest = expect_symbol(rest, Symbol::Dot)?;
    call_head(rest)
}

/// The name of the class behind `create`, and the tokens behind the `,`.
pub fn create_head(tokens: &[Token]) -> Result<(&Text, &[Token]), ParseStop>
    ensures { ExpectsName result (create_head tokens.now) }
{
    let rest = expect_symbol(tokens, Symbol::OpenRound)?;
    let (class, rest) = expect_class_name(rest)?;
    Ok((class, expect_symbol(rest, Symbol::Comma)?))
}

/// The name at the front.
pub fn name(tokens: &[Token]) -> Result<(Text, &[Token]), ParseStop>
    ensures { ParsesPart (λ name. name) result (name_at tokens.now) }
{
    match tokens.split_first() {
        Some((Token::Name(found), rest)) => Ok((found.try_clone()?, rest)),
        _ => Err(ParseStop::at(tokens)),
    }
}

/// The name of a class at the front.
pub fn class_name(tokens: &[Token]) -> Result<(Text, &[Token]), ParseStop>
    ensures { ParsesPart (λ name. name) result (class_name_at tokens.now) }
{
    match tokens.split_first() {
        Some((Token::ClassName(found), rest)) => Ok((found.try_clone()?, rest)),
        _ => Err(ParseStop::at(tokens)),
    }
}
