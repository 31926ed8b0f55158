//! What a line that comes says.
ghost use Rattle.std.specs.Prelude.{◌≡◌, map, [], ◌∷◌, None, IfOk};
ghost use Rattle.view_script.specs.ViewScript.{view_script_of};
ghost use Rattle.text_lines.specs.Lines.{words_of};
ghost use Rattle.live_view.specs.Lines.{hold_of, hold_of_words, read_as, read_line};
ghost use Rattle.live_view.specs.Said.{AreFit, says};

use std::alloc::Global;
use tea_base::{Blob, WantOfMemory};
use text_lines::{number, split_words};
use view_script::{ScriptFault, ViewLine, parse_script};

/// The most bytes of a line.
const MOST_LINE: usize = 65_536;

/// The most links that a view makes again.
const MOST_HOLDS: u64 = 4_294_967_295;

/// What a line that came says.
#[derive(Drop)]
pub enum Said {
    /// It is no line.
    Nothing,
    /// It is so many lines of a script: one, or none where it is skipped.
    Lines(Vec<ViewLine>),
    /// So many links are made again.
    Holds(u64),
}

/// A word, and how many links are made again.
fn hold_word(name: &str, count: &str) -> Option<u64>
    ensures { result ≡ hold_of_words (name.now ∷ count.now ∷ []) }
{
    match name {
        "hold" => number(count, 0, MOST_HOLDS),
        _ => None,
    }
}

/// `hold N`
fn hold_in(words: &[&str]) -> Option<u64>
    ensures { result ≡ hold_of_words (map (λ word. word.now) words.now) }
{
    match words {
        [name, count] => hold_word(name, count),
        _ => None,
    }
}

/// How many links are made again, where bytes say so.
fn hold(alloc: Global, bytes: &[u8]) -> Result<Option<u64>, WantOfMemory>
    ensures { IfOk result (λ holds. holds ≡ hold_of bytes.now) }
{
    match str::from_utf8(bytes) {
        Ok(text) => {
            let words = split_words(alloc, text)?;
            Ok(hold_in(&words))
        }
        Err(_) => Ok(None),
    }
}

/// The lines of a script that bytes are.
fn script(alloc: Global, bytes: &[u8]) -> Result<Said, WantOfMemory>
    ensures says { IfOk result (λ said. says said ≡ read_as None (view_script_of bytes.now)) }
    ensures fit { IfOk result AreFit }
{
    match parse_script(alloc, bytes) {
        Ok(script) => Ok(Said::Lines(script.into_lines())),
        Err(ScriptFault::Bad) => Ok(Said::Nothing),
        Err(ScriptFault::WantOfMemory) => Err(WantOfMemory),
    }
}

/// What a line that came says.
pub fn read_line(alloc: Global, line: &Blob) -> Result<Said, WantOfMemory>
    ensures says { IfOk result (λ said. says said ≡ read_line line.now) }
    ensures fit { IfOk result AreFit }
{
    let bytes = line.bytes();
    if bytes.len() > MOST_LINE {
        return Ok(Said::Nothing);
    }
    match hold(alloc, bytes)? {
        Some(holds) => Ok(Said::Holds(holds)),
        None => script(alloc, bytes),
    }
}
