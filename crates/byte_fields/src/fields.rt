//! The readers of single fields.
ghost use Rattle.std.specs.Prelude.{◌≡◌, length, if◌then◌else◌};
ghost use Rattle.std.specs.Option.{IfSome, option_map};
ghost use Rattle.std.specs.Int.{w16, w32, w64};
ghost use Rattle.std.specs.Str.{chars, is_utf8};
ghost use Rattle.byte_fields.specs.Fields.{byte_at, bytes_at, number_at, blob_at, text_at, mark_at};

/// The first `count` bytes.
pub fn bytes_at(bytes: &[u8], count: usize) -> Option<(&[u8], &[u8])>
    ensures read { option_map (λ x. (x.0.now, x.1.now)) result ≡ bytes_at count bytes.now }
    ensures len { IfSome result (λ x. length x.0.now ≡ count) }
{
    if bytes.len() < count {
        return None;
    }
    Some(bytes.split_at(count))
}

/// The number of the first byte.
pub fn u8_at(bytes: &[u8]) -> Option<(u8, &[u8])>
    ensures { option_map (λ x. (x.0, x.1.now)) result ≡ byte_at bytes.now }
{
    let (first, rest) = bytes.split_first()?;
    Some((*first, rest))
}

/// The number of the first two bytes.
pub fn u16_at(bytes: &[u8]) -> Option<(u16, &[u8])>
    ensures { option_map (λ x. (x.0, x.1.now)) result ≡ number_at w16 bytes.now }
{
    let (front, rest) = bytes_at(bytes, 2)?;
    let number = u16::from_be_bytes([front[0], front[1]]);
    Some((number, rest))
}

/// The number of the first four bytes.
pub fn u32_at(bytes: &[u8]) -> Option<(u32, &[u8])>
    ensures { option_map (λ x. (x.0, x.1.now)) result ≡ number_at w32 bytes.now }
{
    let (front, rest) = bytes_at(bytes, 4)?;
    let number = u32::from_be_bytes([front[0], front[1], front[2], front[3]]);
    Some((number, rest))
}

/// The number of the first eight bytes.
pub fn u64_at(bytes: &[u8]) -> Option<(u64, &[u8])>
    ensures { option_map (λ x. (x.0, x.1.now)) result ≡ number_at w64 bytes.now }
{
    let (front, rest) = bytes_at(bytes, 8)?;
    let number = u64::from_be_bytes([
        front[0], front[1], front[2], front[3], front[4], front[5], front[6], front[7],
    ]);
    Some((number, rest))
}

/// A length of four bytes, and so many bytes. Gives those bytes.
pub fn blob_at(bytes: &[u8]) -> Option<(&[u8], &[u8])>
    ensures { option_map (λ x. (x.0.now, x.1.now)) result ≡ blob_at bytes.now }
{
    let (length, rest) = u32_at(bytes)?;
    bytes_at(rest, length as usize)
}

/// A length of four bytes, and so many bytes of UTF-8 (RFC 3629). Gives their text.
pub fn text_at(bytes: &[u8]) -> Option<(&str, &[u8])>
    ensures { option_map (λ x. (chars x.0.now, x.1.now)) result ≡ text_at bytes.now }
{
    let (field, rest) = blob_at(bytes)?;
    let text = text_of(field)?;
    Some((text, rest))
}

/// The text of bytes that are UTF-8.
fn text_of(bytes: &[u8]) -> Option<&str>
    ensures { option_map (λ text. text.now) result ≡
        (if is_utf8 bytes.now then Some bytes.now else None) }
{
    match str::from_utf8(bytes) {
        Ok(text) => Some(text),
        Err(_) => None,
    }
}

/// The bytes after a mark that they begin with.
pub fn after_mark<'a>(bytes: &'a [u8], mark: &[u8]) -> Option<&'a [u8]>
    ensures { option_map (λ rest. rest.now) result ≡ mark_at mark.now bytes.now }
{
    let (front, rest) = bytes_at(bytes, mark.len())?;
    if front != mark {
        return None;
    }
    Some(rest)
}
