//! From lines of text to lines of a script.
ghost use Rattle.std.specs.Prelude.{◌≡◌, if◌then◌else◌, ℕ, List, ◌∷◌, None, Err, IfOk, OnOk};
ghost use Rattle.std.specs.List.{AllByRecursion};
ghost use Rattle.std.specs.Str.Lines.{lines as lines_of_text};
ghost use Rattle.byte_fields.specs.Fields.{Decodes};
ghost use Rattle.view_script.specs.PlainLine.{plain_line, plain_lines, LineFits, IsViewScript, line_publishes, publish_count as count_publishes};
ghost use Rattle.view_script.specs.ViewScript.{line_of, lines_of, then_lines, if_few};
ghost use Rattle.view_script.specs.Words.{script_words_of};

use crate::fault::ScriptFault;
use crate::line::ViewLine;
use crate::rows::line;
use crate::words::split_words;
use std::alloc::Global;
use tea_base::push;
use text_lines::{is_skipped, split_lines};

/// The most lines of a script that publish.
const MOST_PUBLISHES: usize = 1_048_576;

/// What a line spells.
fn read_line(alloc: Global, text: &[u8]) -> Result<ViewLine, ScriptFault>
    ensures read { Decodes ScriptFault.Bad plain_line result (line_of (script_words_of text.now)) }
    ensures fits { IfOk result (λ line. LineFits (plain_line line)) }
{
    let words = split_words(alloc, text)?;
    line(alloc, &words)
}

/// Reads one line more.
fn take_line(alloc: Global, text: &[u8], lines: &mut Vec<ViewLine>) -> Result<(), ScriptFault>
    ensures read { OnOk result ((more : List (List ℕ)) →
        then_lines (plain_lines lines.new.items) (lines_of more)
        ≡ then_lines (plain_lines lines.old.items) (lines_of (text.now ∷ more))) }
    ensures bad { result ≡ Err ScriptFault.Bad → (more : List (List ℕ)) → lines_of (text.now ∷ more) ≡ None }
    ensures fits { OnOk result (AllByRecursion LineFits (plain_lines lines.old.items)
        → AllByRecursion LineFits (plain_lines lines.new.items)) }
{
    if is_skipped(text) {
        return Ok(());
    }
    let line = read_line(alloc, text)?;
    push(lines, line)?;
    Ok(())
}

/// The lines of a text, where each that is not skipped is one.
fn read_lines(alloc: Global, script: &str) -> Result<Vec<ViewLine>, ScriptFault>
    ensures read { Decodes ScriptFault.Bad (λ lines. plain_lines lines.items) result
        (lines_of (lines_of_text script.now)) }
    ensures fits { IfOk result (λ lines. AllByRecursion LineFits (plain_lines lines.items)) }
{
    let texts = split_lines(alloc, script)?;
    let mut lines = Vec::new(alloc);
    for text in &texts {
        take_line(alloc, text.as_bytes(), &mut lines)?;
    }
    Ok(lines)
}

/// Whether a line publishes.
fn publishes(line: &ViewLine) -> bool
    ensures { line_publishes (plain_line line.now) ≡ if result then 1 else 0 }
{
    matches!(line, ViewLine::Publish { .. } | ViewLine::Vote { .. })
}

/// How many lines publish.
pub fn publish_count(lines: &[ViewLine]) -> usize
    ensures { result ≡ count_publishes (plain_lines lines.now) }
{
    let mut count = 0;
    for line in lines {
        if publishes(line) {
            count += 1;
        }
    }
    count
}

/// The lines of a script that is text.
pub fn read_text(alloc: Global, script: &str) -> Result<Vec<ViewLine>, ScriptFault>
    ensures read { Decodes ScriptFault.Bad (λ lines. plain_lines lines.items) result
        (if_few (lines_of (lines_of_text script.now))) }
    ensures script { IfOk result (λ lines. IsViewScript (plain_lines lines.items)) }
{
    let lines = read_lines(alloc, script)?;
    if publish_count(&lines) > MOST_PUBLISHES {
        return Err(ScriptFault::Bad);
    }
    Ok(lines)
}
