//! Writing text literals.
ghost use Rattle.std.specs.Prelude.{◌≡◌, ◌∷◌, [], ◌++◌, ◌/◌, ◌%◌, ◌<◌, if◌then◌else◌, flat_map, encode_utf8, OnOk, string_bytes};
ghost use Rattle.std.specs.Str.{chars};
ghost use Rattle.model_tokens.specs.Bytes.{is_control};
ghost use Rattle.model_tokens.specs.Spelling.{hex_digit, spelled_character, spelled_text};

use std::alloc::AllocError;
use tea_base::WantOfMemory;

fn is_control(code: u32) -> bool
    ensures { result ≡ is_control code }
{
    code < 32 || code == 127
}

/// A hexadecimal digit from 0 to 15, in lower case.
fn hex_digit(digit: u32) -> char
    requires { digit < 16 }
    ensures digit { result ≡ hex_digit digit }
    ensures ascii { result < 128 }
{
    char::from_digit(digit, 16).unwrap_or('0')
}

/// Appends the escape of a control, other than an LF.
fn push_control(out: &mut String, code: u32) -> Result<(), AllocError>
    requires { code < 256 }
    ensures { OnOk result (string_bytes out.new ≡ string_bytes out.old ++ 92 ∷ 120 ∷ hex_digit (code / 16)
        ∷ hex_digit (code % 16) ∷ []) }
{
    out.push_str("\\x")?;
    out.push(hex_digit(code / 16))?;
    out.push(hex_digit(code % 16))
}

/// Appends the spelling of a character that is no quote, backslash or LF.
fn push_other(out: &mut String, character: char) -> Result<(), AllocError>
    ensures { OnOk result (string_bytes out.new
        ≡ string_bytes out.old ++ (if is_control character then 92 ∷ 120 ∷ hex_digit (character / 16)
        ∷ hex_digit (character % 16) ∷ [] else encode_utf8 character)) }
{
    let code = u32::from(character);
    if is_control(code) {
        push_control(out, code)
    } else {
        out.push(character)
    }
}

/// Appends the spelling of a character in a text literal.
fn push_character(out: &mut String, character: char) -> Result<(), AllocError>
    ensures { OnOk result (string_bytes out.new ≡ string_bytes out.old ++ spelled_character character) }
{
    match character {
        '"' => out.push_str("\\\""),
        '\\' => out.push_str("\\\\"),
        '\n' => out.push_str("\\n"),
        _ => push_other(out, character),
    }
}

/// Appends the spelling of each character of a text literal.
fn push_characters(out: &mut String, text: &str) -> Result<(), AllocError>
    ensures { OnOk result (string_bytes out.new ≡ string_bytes out.old ++ flat_map spelled_character (chars text.now)) }
{
    for character in text.chars() {
        push_character(out, character)?;
    }
    Ok(())
}

/// Appends the literal of a text, with its quotes.
pub fn push_literal(out: &mut String, text: &str) -> Result<(), WantOfMemory>
    ensures { OnOk result (string_bytes out.new ≡ string_bytes out.old ++ spelled_text (chars text.now)) }
{
    out.push_str("\"")?;
    push_characters(out, text)?;
    out.push_str("\"")?;
    Ok(())
}
