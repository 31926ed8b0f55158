//! Kinds of bytes.
ghost use Rattle.std.specs.Prelude.{◌≡◌, ◌≤◌, length, slice_index};
ghost use Rattle.std.specs.List.{prefix_len};
ghost use Rattle.model_tokens.specs.Bytes.{is_digit, begins_class_name, goes_on_name, goes_on_line};
ghost use Rattle.model_tokens.specs.Reader.{kind_of};

/// What a byte begins.
#[derive(Clone, Copy, Debug, PartialEq, Eq)]
pub enum ByteKind {
    Blank,
    Digit,
    /// Letters and `_`.
    Letter,
    Quote,
    /// A symbol or a comment, or nothing.
    Other,
}

/// What a piece that begins with this byte is.
pub fn begins(byte: u8) -> ByteKind
    ensures { result ≡ kind_of byte }
{
    match byte {
        b' ' | b'\t' | b'\r' | b'\n' => ByteKind::Blank,
        b'0'..=b'9' => ByteKind::Digit,
        b'a'..=b'z' | b'A'..=b'Z' | b'_' => ByteKind::Letter,
        b'"' => ByteKind::Quote,
        _ => ByteKind::Other,
    }
}

/// Whether a name is the name of a class.
pub fn begins_class_name(name: &[u8]) -> bool
    ensures { result ≡ begins_class_name (slice_index name.now 0) }
{
    matches!(name.first(), Some(b'A'..=b'Z'))
}

fn goes_on_name(byte: u8) -> bool
    ensures { result ≡ goes_on_name byte }
{
    byte.is_ascii_lowercase() || byte.is_ascii_uppercase() || byte.is_ascii_digit() || byte == b'_'
}

/// How many letters, digits and `_` stand at the front.
pub fn name_length(text: &[u8]) -> usize
    ensures length { result ≡ prefix_len goes_on_name text.now }
    ensures within { result ≤ length text.now }
{
    text.iter()
        .position(|byte| !goes_on_name(*byte))
        .unwrap_or(text.len())
}

/// How many digits stand at the front.
pub fn digits_length(text: &[u8]) -> usize
    ensures length { result ≡ prefix_len is_digit text.now }
    ensures within { result ≤ length text.now }
{
    text.iter()
        .position(|byte| !byte.is_ascii_digit())
        .unwrap_or(text.len())
}

/// How many bytes stand before the first LF, or before the end.
pub fn line_length(text: &[u8]) -> usize
    ensures length { result ≡ prefix_len goes_on_line text.now }
    ensures within { result ≤ length text.now }
{
    text.iter()
        .position(|byte| *byte == b'\n')
        .unwrap_or(text.len())
}
