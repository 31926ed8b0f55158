//! Text literals.
ghost use Rattle.std.specs.Prelude.{◌≡◌, ◌<◌, length, Err, IfSome};
ghost use Rattle.model_tokens.specs.Bytes.{is_control};
ghost use Rattle.model_tokens.specs.Reader.{hex_value, control_at, escape_at, literal_byte_at, literal_at, literal_text_at, as_text};
ghost use Rattle.model_tokens.specs.Answer.{ReadsText, ReadsLiteral, ReadsToken, ReadsBytes};

use crate::dividing::TokenFault;
use crate::token::Token;
use std::alloc::Global;
use tea_base::{Text, TextFault, push};

/// The text of these bytes.
pub fn text_of(alloc: Global, bytes: &[u8]) -> Result<Text, TokenFault>
    ensures { ReadsText result bytes.now }
{
    match Text::read(alloc, bytes) {
        Ok(text) => Ok(text),
        Err(TextFault::NotUtf8) => Err(TokenFault::NoToken),
        Err(TextFault::WantOfMemory) => Err(TokenFault::WantOfMemory),
    }
}

/// The value of a hexadecimal digit. Letters are lower case.
fn hex_value(byte: u8) -> Option<u8>
    ensures { result ≡ hex_value byte }
{
    match byte {
        b'0'..=b'9' => Some(byte - b'0'),
        b'a'..=b'f' => Some(byte - b'a' + 10),
        _ => None,
    }
}

fn is_control(byte: u8) -> bool
    ensures { result ≡ is_control byte }
{
    byte < 32 || byte == 127
}

/// The control that two hexadecimal digits at the front write, which is no LF, and how many bytes stand behind the
/// backslash of its escape.
fn control(text: &[u8]) -> Option<(u8, usize)>
    ensures { result ≡ control_at text.now }
{
    let [high, low, ..] = text else { return None };
    let byte = hex_value(*high)? * 16 + hex_value(*low)?;
    if is_control(byte) && byte != b'\n' {
        Some((byte, 3))
    } else {
        None
    }
}

/// The byte that an escape stands for, and how many bytes stand behind its backslash.
fn escape(text: &[u8]) -> Option<(u8, usize)>
    ensures { result ≡ escape_at text.now }
{
    let (first, behind) = text.split_first()?;
    match *first {
        b'"' => Some((b'"', 1)),
        b'\\' => Some((b'\\', 1)),
        b'n' => Some((b'\n', 1)),
        b'x' => control(behind),
        _ => None,
    }
}

/// The byte that the spelling at the front stands for, and how many bytes of the spelling stand behind the first.
pub fn spelled_byte(text: &[u8]) -> Option<(u8, usize)>
    ensures byte { result ≡ literal_byte_at text.now }
    ensures within { IfSome result (λ found. found.1 < length text.now) }
{
    let (first, behind) = text.split_first()?;
    match *first {
        b'\\' => escape(behind),
        b'"' => None,
        byte if is_control(byte) => None,
        byte => Some((byte, 0)),
    }
}

/// The bytes up to the closing quote, read from their spelling, and what stands behind the quote.
fn literal_bytes<'a>(alloc: Global, text: &'a [u8]) -> Result<(Vec<u8>, &'a [u8]), TokenFault>
    ensures { ReadsBytes result (literal_at 0 text.now) }
{
    let mut bytes = Vec::new(alloc);
    let mut rest = text;
    while let Some((byte, more)) = spelled_byte(rest) {
        push(&mut bytes, byte)?;
        rest = rest.split_at(more + 1).1;
    }
    match rest.split_first() {
        Some((b'"', behind)) => Ok((bytes, behind)),
        _ => Err(TokenFault::NoToken),
    }
}

/// The text whose literal stands at the front of these bytes, all but its first quote, and the bytes behind the literal.
///
/// Fails with `NoToken` exactly where no text's literal stands there.
pub fn read_literal<'a>(alloc: Global, text: &'a [u8]) -> Result<(Text, &'a [u8]), TokenFault>
    ensures { ReadsLiteral result (literal_text_at text.now) }
{
    let (bytes, behind) = literal_bytes(alloc, text)?;
    Ok((text_of(alloc, bytes.as_slice())?, behind))
}

/// The token of the same text, and the bytes behind it.
pub fn literal<'a>(alloc: Global, text: &'a [u8]) -> Result<(Token, &'a [u8]), TokenFault>
    ensures { ReadsToken result (as_text (literal_text_at text.now)) }
{
    let (text, behind) = read_literal(alloc, text)?;
    Ok((Token::Text(text), behind))
}
