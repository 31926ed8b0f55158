//! What single words spell.
ghost use Rattle.std.specs.Prelude.{◌≡◌, ◌<◌, IfOk, IfSome};
ghost use Rattle.std.specs.Str.{bytes_eq};
ghost use Rattle.byte_fields.specs.Fields.{Decodes, whole};
ghost use Rattle.model_tokens.specs.Reader.{literal_text_at};
ghost use Rattle.model_value.specs.Plain.{InBounds};
ghost use Rattle.model_value.specs.View.{plain};
ghost use Rattle.tea_base.specs.Limits.{time_limit};
ghost use Rattle.text_lines.specs.Lines.{number_of_word, time_of_word};
ghost use Rattle.value_text.specs.Reading.{value_of_text};
ghost use Rattle.view_script.specs.ViewScript.{literal_of, handling_of_word, last_entry, text_of_word};

use crate::fault::ScriptFault;
use model_tokens::{TokenFault, read_literal};
use model_value::{Value, ValueFault};
use std::alloc::Global;
use tea_base::{Text, TextFault};
use text_lines::{number, time_of_word};
use value_text::read_value;
use view_bridge::Handling;

/// The text whose literal, all but its first quote, these bytes are.
fn whole_literal(alloc: Global, bytes: &[u8]) -> Result<Text, ScriptFault>
    ensures { Decodes ScriptFault.Bad (λ text. text) result (whole literal_text_at bytes.now) }
{
    match read_literal(alloc, bytes) {
        Ok((text, [])) => Ok(text),
        Ok(_) => Err(ScriptFault::Bad),
        Err(TokenFault::NoToken) => Err(ScriptFault::Bad),
        Err(TokenFault::WantOfMemory) => Err(ScriptFault::WantOfMemory),
    }
}

/// The text whose literal a word is.
pub fn literal(alloc: Global, word: &[u8]) -> Result<Text, ScriptFault>
    ensures { Decodes ScriptFault.Bad (λ text. text) result (literal_of word.now) }
{
    match word.split_first() {
        Some((b'"', bytes)) => whole_literal(alloc, bytes),
        _ => Err(ScriptFault::Bad),
    }
}

/// The value in bounds whose text a word is.
pub fn word_value(alloc: Global, word: &[u8]) -> Result<Value, ScriptFault>
    ensures read { Decodes ScriptFault.Bad plain result (value_of_text word.now) }
    ensures bounds { IfOk result (λ value. InBounds (plain value)) }
{
    match read_value(alloc, word) {
        Ok(value) => Ok(value),
        Err(ValueFault::BadValue) => Err(ScriptFault::Bad),
        Err(ValueFault::WantOfMemory) => Err(ScriptFault::WantOfMemory),
    }
}

/// The characters of a word.
pub fn word_text(alloc: Global, word: &[u8]) -> Result<Text, ScriptFault>
    ensures { Decodes ScriptFault.Bad (λ text. text) result (text_of_word word.now) }
{
    match Text::read(alloc, word) {
        Ok(text) => Ok(text),
        Err(TextFault::NotUtf8) => Err(ScriptFault::Bad),
        Err(TextFault::WantOfMemory) => Err(ScriptFault::WantOfMemory),
    }
}

/// Whether these bytes are a word.
#[tactic(auto, using(crate::proofs::WordLaws::by_bytes))]
pub fn is_word(bytes: &[u8], word: &str) -> bool
    ensures { result ≡ bytes_eq bytes.now word.now }
{
    bytes == word.as_bytes()
}

/// `queued | once`
pub fn handling_in(word: &[u8]) -> Option<Handling>
    ensures { result ≡ handling_of_word word.now }
{
    if is_word(word, "queued") {
        Some(Handling::Queued)
    } else if is_word(word, "once") {
        Some(Handling::OncePerFrame)
    } else {
        None
    }
}

/// A TeaTime.
pub fn time_in(word: &[u8]) -> Option<u64>
    ensures read { result ≡ time_of_word word.now }
    ensures bound { IfSome result (λ time. time < time_limit) }
{
    match str::from_utf8(word) {
        Ok(word) => time_of_word(word),
        Err(_) => None,
    }
}

/// The greatest number of an entry.
const LAST_ENTRY: u64 = 4_294_967_295;

/// The number of an entry.
pub fn entry_in(word: &[u8]) -> Option<u32>
    ensures { result ≡ number_of_word 1 last_entry word.now }
{
    match str::from_utf8(word) {
        Ok(word) => Some(number(word, 1, LAST_ENTRY)? as u32),
        Err(_) => None,
    }
}
