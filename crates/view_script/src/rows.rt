//! What the words of a line spell: a row for each kind of line.
ghost use Rattle.std.specs.Prelude.{◌≡◌, map, IfOk};
ghost use Rattle.std.specs.Option.{option_map};
ghost use Rattle.byte_fields.specs.Fields.{Decodes};
ghost use Rattle.model_value.specs.Plain.{InBounds};
ghost use Rattle.model_value.specs.View.{plain};
ghost use Rattle.view_script.specs.PlainLine.{plain_line, LineFits, payload_fits as fits_payload};
ghost use Rattle.view_script.specs.ViewScript.{publish_of, watch_of, behind_plus as plus_and, wait_of, line_alone, line_of, mark_of, vote_of};

use crate::fault::ScriptFault;
use crate::fields::{entry_in, handling_in, is_word, literal, time_in, word_text, word_value};
use crate::line::ViewLine;
use model_value::{Value, payload};
use std::alloc::Global;
use tea_base::{MOST_PAYLOAD, Text, WantOfMemory};

/// Whether the payload of an event has no more bytes than an event may carry.
fn payload_fits(
    alloc: Global,
    scope: &Text,
    event: &Text,
    value: &Value,
) -> Result<bool, WantOfMemory>
    requires { InBounds (plain value.now) }
    ensures { IfOk result (λ fits. fits ≡ fits_payload scope.now event.now (plain value.now)) }
{
    // A payload is longer than each of its texts.
    if scope.bytes().len() > MOST_PAYLOAD || event.bytes().len() > MOST_PAYLOAD {
        return Ok(false);
    }
    Ok(payload(alloc, scope, event, value)?.len() <= MOST_PAYLOAD)
}

/// `SCOPE EVENT VALUE`
fn publish(alloc: Global, fields: &[&[u8]]) -> Result<ViewLine, ScriptFault>
    ensures read { Decodes ScriptFault.Bad plain_line result (publish_of (map (λ word. word.now) fields.now)) }
    ensures fits { IfOk result (λ line. LineFits (plain_line line)) }
{
    let [scope, event, value] = fields else {
        return Err(ScriptFault::Bad);
    };
    let scope = literal(alloc, scope)?;
    let event = literal(alloc, event)?;
    let value = word_value(alloc, value)?;
    if !payload_fits(alloc, &scope, &event, &value)? {
        return Err(ScriptFault::Bad);
    }
    Ok(ViewLine::Publish {
        scope,
        event,
        value,
    })
}

/// `SCOPE EVENT queued | once`
fn watch(alloc: Global, fields: &[&[u8]]) -> Result<ViewLine, ScriptFault>
    ensures read { Decodes ScriptFault.Bad plain_line result (watch_of (map (λ word. word.now) fields.now)) }
    ensures fits { IfOk result (λ line. LineFits (plain_line line)) }
{
    let [scope, event, handling] = fields else {
        return Err(ScriptFault::Bad);
    };
    let scope = literal(alloc, scope)?;
    let event = literal(alloc, event)?;
    let handling = handling_in(handling).ok_or(ScriptFault::Bad)?;
    Ok(ViewLine::Watch {
        scope,
        event,
        handling,
    })
}

/// What stands behind the plus that a word begins with.
fn behind_plus<'a>(word: &'a [u8]) -> Option<&'a [u8]>
    ensures { option_map (λ rest. rest.now) result ≡ plus_and word.now }
{
    match word.split_first() {
        Some((b'+', rest)) => Some(rest),
        _ => None,
    }
}

/// `T | +T`
fn wait(fields: &[&[u8]]) -> Result<ViewLine, ScriptFault>
    ensures read { Decodes ScriptFault.Bad plain_line result (wait_of (map (λ word. word.now) fields.now)) }
    ensures fits { IfOk result (λ line. LineFits (plain_line line)) }
{
    let [word] = fields else {
        return Err(ScriptFault::Bad);
    };
    match behind_plus(word) {
        None => {
            let time = time_in(word).ok_or(ScriptFault::Bad)?;
            Ok(ViewLine::Wait { time })
        }
        Some(span) => {
            let span = time_in(span).ok_or(ScriptFault::Bad)?;
            Ok(ViewLine::WaitFor { span })
        }
    }
}

/// `WORD`
fn mark(alloc: Global, fields: &[&[u8]]) -> Result<ViewLine, ScriptFault>
    ensures read { Decodes ScriptFault.Bad plain_line result (mark_of (map (λ word. word.now) fields.now)) }
    ensures fits { IfOk result (λ line. LineFits (plain_line line)) }
{
    let [word] = fields else {
        return Err(ScriptFault::Bad);
    };
    let word = word_text(alloc, word)?;
    Ok(ViewLine::Mark { word })
}

/// `N`
fn vote(fields: &[&[u8]]) -> Result<ViewLine, ScriptFault>
    ensures read { Decodes ScriptFault.Bad plain_line result (vote_of (map (λ word. word.now) fields.now)) }
    ensures fits { IfOk result (λ line. LineFits (plain_line line)) }
{
    let [word] = fields else {
        return Err(ScriptFault::Bad);
    };
    let at = entry_in(word).ok_or(ScriptFault::Bad)?;
    Ok(ViewLine::Vote { at })
}

/// A line without fields.
fn alone(line: ViewLine, fields: &[&[u8]]) -> Result<ViewLine, ScriptFault>
    requires { LineFits (plain_line line) }
    ensures read { Decodes ScriptFault.Bad plain_line result
        (line_alone (plain_line line) (map (λ word. word.now) fields.now)) }
    ensures fits { IfOk result (λ line. LineFits (plain_line line)) }
{
    if fields.is_empty() {
        Ok(line)
    } else {
        Err(ScriptFault::Bad)
    }
}

/// The line that words spell.
pub fn line(alloc: Global, words: &[&[u8]]) -> Result<ViewLine, ScriptFault>
    ensures read { Decodes ScriptFault.Bad plain_line result (line_of (map (λ word. word.now) words.now)) }
    ensures fits { IfOk result (λ line. LineFits (plain_line line)) }
{
    let [name, fields @ ..] = words else {
        return Err(ScriptFault::Bad);
    };
    if is_word(name, "publish") {
        publish(alloc, fields)
    } else if is_word(name, "watch") {
        watch(alloc, fields)
    } else if is_word(name, "wait") {
        wait(fields)
    } else if is_word(name, "settle") {
        alone(ViewLine::Settle, fields)
    } else if is_word(name, "snap") {
        alone(ViewLine::Snap, fields)
    } else if is_word(name, "cut") {
        alone(ViewLine::Cut, fields)
    } else if is_word(name, "quit") {
        alone(ViewLine::Quit, fields)
    } else if is_word(name, "mark") {
        mark(alloc, fields)
    } else if is_word(name, "vote") {
        vote(fields)
    } else if is_word(name, "show") {
        alone(ViewLine::Show, fields)
    } else {
        Err(ScriptFault::Bad)
    }
}
