//! Which texts are names of the language.
ghost use Rattle.std.specs.Prelude.{◌≡◌};
ghost use Rattle.std.specs.List.{list_all};
ghost use Rattle.model_tokens.specs.Bytes.{begins_name as begins, goes_on_name as goes_on};
ghost use Rattle.model_tokens.specs.Reader.{every_word, word_among};
ghost use Rattle.world_lines.specs.WorldLines.{is_name as name};

use model_tokens::Word;

/// The most bytes of a name after its first.
const MOST_AFTER_FIRST: usize = 63;

fn begins_name(byte: u8) -> bool
    ensures { result ≡ begins byte }
{
    byte.is_ascii_lowercase() || byte == b'_'
}

fn goes_on_name(byte: u8) -> bool
    ensures { result ≡ goes_on byte }
{
    begins_name(byte) || byte.is_ascii_uppercase() || byte.is_ascii_digit()
}

fn all_go_on(bytes: &[u8]) -> bool
    ensures { result ≡ list_all goes_on bytes.now }
{
    for byte in bytes {
        if !goes_on_name(*byte) {
            return false;
        }
    }
    true
}

/// The word of the language that these bytes are, if they are one.
fn reserved_word(bytes: &[u8]) -> Option<Word>
    ensures { result ≡ word_among every_word bytes.now }
{
    match bytes {
        b"class" => Some(Word::Class),
        b"field" => Some(Word::Field),
        b"let" => Some(Word::Let),
        b"if" => Some(Word::If),
        b"else" => Some(Word::Else),
        b"while" => Some(Word::While),
        b"return" => Some(Word::Return),
        b"this" => Some(Word::This),
        b"nil" => Some(Word::Nil),
        b"true" => Some(Word::True),
        b"false" => Some(Word::False),
        b"create" => Some(Word::Create),
        b"future" => Some(Word::Future),
        _ => None,
    }
}

/// Whether bytes are a name of the language. A reserved word is none.
pub fn is_name(bytes: &[u8]) -> bool
    ensures { result ≡ name bytes.now }
{
    let Some((first, rest)) = bytes.split_first() else {
        return false;
    };
    begins_name(*first)
        && all_go_on(rest)
        && rest.len() <= MOST_AFTER_FIRST
        && reserved_word(bytes).is_none()
}
