//! The addresses of a net, as words.
ghost use Rattle.std.specs.Prelude.{◌≡◌, ◌==◌, map, IfOk};
ghost use Rattle.std.specs.List.{slice_split};
ghost use Rattle.command_words.specs.Address.{are_ends, are_octets, is_address, is_host, is_octet, is_port};

use std::alloc::{AllocError, Global};
use tea_base::WantOfMemory;
use text_lines::number;

/// The pieces of a text between its dots.
fn split_dots<'a>(alloc: Global, text: &'a str) -> Result<Vec<&'a str>, AllocError>
    ensures { IfOk result (λ found. map (λ piece. piece.now) found.items ≡ slice_split (λ byte. byte == 46) text.now) }
{
    text.split('.').collect(alloc)
}

/// The pieces of a text between its colons.
fn split_colons<'a>(alloc: Global, text: &'a str) -> Result<Vec<&'a str>, AllocError>
    ensures { IfOk result (λ found. map (λ piece. piece.now) found.items ≡ slice_split (λ byte. byte == 58) text.now) }
{
    text.split(':').collect(alloc)
}

/// Whether a word is a number from 0 to 255.
fn is_octet(word: &str) -> bool
    ensures { result ≡ is_octet word.now }
{
    number(word, 0, 255).is_some()
}

/// Whether a word is the number of a port.
fn is_port(word: &str) -> bool
    ensures { result ≡ is_port word.now }
{
    number(word, 1, 65535).is_some()
}

/// Whether words are four numbers from 0 to 255.
fn are_octets(words: &[&str]) -> bool
    ensures { result ≡ are_octets (map (λ word. word.now) words.now) }
{
    match words {
        [a, b, c, d] => is_octet(a) && is_octet(b) && is_octet(c) && is_octet(d),
        _ => false,
    }
}

/// Whether a word is `localhost`, or four numbers with a dot between two.
fn is_host(alloc: Global, word: &str) -> Result<bool, WantOfMemory>
    ensures { IfOk result (λ is. is ≡ is_host word.now) }
{
    if word == "localhost" {
        return Ok(true);
    }
    let pieces = split_dots(alloc, word)?;
    Ok(are_octets(&pieces))
}

/// Whether words are a host and a port.
fn are_ends(alloc: Global, words: &[&str]) -> Result<bool, WantOfMemory>
    ensures { IfOk result (λ are. are ≡ are_ends (map (λ word. word.now) words.now)) }
{
    let [host, port] = words else {
        return Ok(false);
    };
    let is_host = is_host(alloc, host)?;
    Ok(is_host && is_port(port))
}

/// Whether a text is a host and a port with a colon between them: `localhost` or four numbers from 0 to 255 with a dot between
/// two, and a number from 1 to 65535, all in decimal without a sign or leading zeros.
pub fn is_address(alloc: Global, text: &str) -> Result<bool, WantOfMemory>
    ensures { IfOk result (λ is. is ≡ is_address text.now) }
{
    let pieces = split_colons(alloc, text)?;
    are_ends(alloc, &pieces)
}
