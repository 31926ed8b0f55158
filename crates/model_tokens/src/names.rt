//! Names, class names and reserved words.
ghost use Rattle.std.specs.Prelude.{◌≡◌, true};
ghost use Rattle.std.specs.Str.{is_utf8, chars};
ghost use Rattle.model_tokens.specs.Reader.{word_among, every_word, token_of_name, name_token_at};
ghost use Rattle.model_tokens.specs.Answer.{ReadsToken, ReadsNamed};

use crate::bytes::{begins_class_name, name_length};
use crate::dividing::TokenFault;
use crate::literals::text_of;
use crate::token::{Token, Word};
use std::alloc::Global;

/// How many bytes a name has at most.
pub const LONGEST_NAME: usize = 64;

/// The reserved word that these bytes are.
fn reserved_word(name: &[u8]) -> Option<Word>
    ensures { result ≡ word_among every_word name.now }
{
    match name {
        b"class" => Some(Word::Class),
        b"field" => Some(Word::Field),
        b"let" => Some(Word::Let),
        b"if" => Some(Word::If),
        b"else" => Some(Word::Else),
        b"while" => Some(Word::While),
        b"return" => Some(Word::Return),
        b"this" => Some(Word::This),
        b"nil" => Some(Word::Nil),
        b"true" => Some(Word::True),
        b"false" => Some(Word::False),
        b"create" => Some(Word::Create),
        b"future" => Some(Word::Future),
        _ => None,
    }
}

/// The token of a name that is not too long.
fn token_of_name(alloc: Global, name: &[u8]) -> Result<Token, TokenFault>
    requires { (is_utf8 name.now ≡ true) × (chars name.now ≡ name.now) }
    ensures { ReadsNamed result (token_of_name (word_among every_word name.now) name.now) }
{
    if let Some(word) = reserved_word(name) {
        return Ok(Token::Word(word));
    }
    let held = text_of(alloc, name)?;
    if begins_class_name(name) {
        Ok(Token::ClassName(held))
    } else {
        Ok(Token::Name(held))
    }
}

/// The name or the word at the front, and the bytes behind it.
pub fn name<'a>(alloc: Global, text: &'a [u8]) -> Result<(Token, &'a [u8]), TokenFault>
    ensures { ReadsToken result (name_token_at text.now) }
{
    let (name, rest) = text.split_at(name_length(text));
    if name.len() > LONGEST_NAME {
        return Err(TokenFault::NoToken);
    }
    Ok((token_of_name(alloc, name)?, rest))
}
