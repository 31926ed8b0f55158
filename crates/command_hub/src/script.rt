//! Scripts of a hub: a request a line, to the session that the line names.
ghost use Rattle.std.specs.Prelude.{◌≡◌, ◌≤◌, ◌∷◌, [], List, ℕ, None, map, length, encode_utf8_all, codes, IfOk, MatchBool};
ghost use Rattle.std.specs.Option.{IfSome};
ghost use Rattle.std.specs.List.{All};
ghost use Rattle.std.specs.Str.Lines.{lines};
ghost use Rattle.text_lines.specs.Lines.{words_of};
ghost use Rattle.command_words.specs.CommandWords.{most_name};
ghost use Rattle.command_hub.specs.HubScript.{AreNamed, HasName, hub_line_of, hub_lines_of, hub_script_of, then_lines};

use command_stamp::read_request;
use reflector_core::Request;
use std::alloc::Global;
use tea_base::{List, Text, WantOfMemory};
use text_lines::{is_skipped, split_lines, split_words};

/// The most bytes of UTF-8 that the name of a session has.
const MOST_NAME: usize = 255;

/// A request to the session of this name.
#[derive(Drop)]
pub struct HubLine {
    /// At most 255 bytes.
    pub name: Text,
    pub request: Request,
}

/// The lines of a script, in order.
pub type HubLines = List<HubLine>;

/// What stands behind `in`: `NAME`, and the line of a session's script.
fn named(alloc: Global, name: &str, words: &[&str]) -> Result<Option<HubLine>, WantOfMemory>
    ensures read { IfOk result (λ read. read ≡ hub_line_of (codes "in" ∷ name.now ∷ map (λ word. word.now) words.now)) }
    ensures named { IfOk result (λ read. IfSome read HasName) }
{
    if name.len() > MOST_NAME {
        return Ok(None);
    }
    match read_request(alloc, words)? {
        Some(request) => Ok(Some(HubLine {
            name: Text::copy(alloc, name)?,
            request,
        })),
        None => Ok(None),
    }
}

/// The request that a line's words spell, and to which session.
fn line_of(alloc: Global, words: &[&str]) -> Result<Option<HubLine>, WantOfMemory>
    ensures read { IfOk result (λ read. read ≡ hub_line_of (map (λ word. word.now) words.now)) }
    ensures named { IfOk result (λ read. IfSome read HasName) }
{
    let [first, name, words @ ..] = words else {
        return Ok(None);
    };
    if *first != "in" {
        return Ok(None);
    }
    named(alloc, name, words)
}

/// The request of a line.
fn read_line(alloc: Global, line: &str) -> Result<Option<HubLine>, WantOfMemory>
    ensures read { IfOk result (λ read. read ≡ hub_line_of (words_of line.now)) }
    ensures named { IfOk result (λ read. IfSome read HasName) }
{
    let words = split_words(alloc, line)?;
    line_of(alloc, &words)
}

/// Reads one line more, or says that it is not in the grammar.
fn take_line(alloc: Global, line: &str, taken: &mut HubLines) -> Result<bool, WantOfMemory>
    requires { AreNamed taken.old }
    ensures named { AreNamed taken.new }
    ensures read { IfOk result (λ follows. MatchBool follows
        ((more : List (List ℕ)) →
        then_lines taken.new (hub_lines_of more) ≡ then_lines taken.old (hub_lines_of (line.now ∷ more)))
        ((more : List (List ℕ)) → hub_lines_of (line.now ∷ more) ≡ None)) }
{
    if is_skipped(line.as_bytes()) {
        return Ok(true);
    }
    match read_line(alloc, line)? {
        Some(line) => {
            taken.push(line)?;
            Ok(true)
        }
        None => Ok(false),
    }
}

/// The requests of a text's lines, where each that is not skipped is one.
fn read_lines(alloc: Global, text: &str) -> Result<Option<HubLines>, WantOfMemory>
    ensures read { IfOk result (λ read. read ≡ hub_lines_of (lines text.now)) }
    ensures named { IfOk result (λ read. IfSome read AreNamed) }
{
    let lines = split_lines(alloc, text)?;
    let mut taken = HubLines::new(alloc);
    for line in &lines {
        let follows = take_line(alloc, line, &mut taken)?;
        if !follows {
            return Ok(None);
        }
    }
    Ok(Some(taken))
}

/// The requests of a hub's script, or none where it is not in the grammar.
pub fn read_hub_script(alloc: Global, bytes: &[u8]) -> Result<Option<HubLines>, WantOfMemory>
    ensures read { IfOk result (λ read. read ≡ hub_script_of bytes.now) }
    ensures named { IfOk result (λ read. IfSome read AreNamed) }
{
    match str::from_utf8(bytes) {
        Ok(text) => read_lines(alloc, text),
        Err(_) => Ok(None),
    }
}
