//! The lines that a view prints.
ghost use Rattle.std.specs.Prelude.{◌≡◌, ◌++◌, [], IfOk, OnOk, string_bytes, map};
ghost use Rattle.text_lines.specs.Lines.{spell_numbers};
ghost use Rattle.world_plain.specs.Messages.{plain_outgoing};
ghost use Rattle.view_shell.specs.ViewText.{event_line, events_text, mark_line as line_of_mark, numbers_line};

use std::alloc::Global;
use tea_base::{Text, WantOfMemory};
use text_lines::spell_numbers;
use value_text::{push_text, push_value};
use world_plain::{Outgoing, Published};

/// A line of a word and numbers.
pub fn numbers_line(alloc: Global, word: &str, numbers: &[u64]) -> Result<String, WantOfMemory>
    ensures { IfOk result (λ line. string_bytes line ≡ numbers_line word.now numbers.now) }
{
    let mut line = spell_numbers(alloc, word, numbers)?;
    line.push_str("\n")?;
    Ok(line)
}

/// The line of a mark.
pub fn mark_line(alloc: Global, word: &Text) -> Result<String, WantOfMemory>
    ensures { IfOk result (λ line. string_bytes line ≡ line_of_mark word.now) }
{
    let mut line = String::from_str(alloc, "mark ")?;
    line.push_str(word.as_str())?;
    line.push_str("\n")?;
    Ok(line)
}

/// Appends the line of an event.
fn push_event(alloc: Global, out: &mut String, event: &Outgoing) -> Result<(), WantOfMemory>
    ensures { OnOk result (string_bytes out.new ≡ string_bytes out.old ++ event_line (plain_outgoing event.now)) }
{
    out.push_str(spell_numbers(alloc, "event", &[event.time])?.as_str())?;
    out.push_str(" ")?;
    push_text(out, &event.scope)?;
    out.push_str(" ")?;
    push_text(out, &event.event)?;
    out.push_str(" ")?;
    push_value(out, &event.value)?;
    out.push_str("\n")?;
    Ok(())
}

/// The lines of events.
pub fn events_text(alloc: Global, events: &Published) -> Result<String, WantOfMemory>
    ensures { IfOk result (λ text. string_bytes text ≡ events_text (map plain_outgoing events.now)) }
{
    let mut text = String::new(alloc);
    for event in events.as_slice() {
        push_event(alloc, &mut text, event)?;
    }
    Ok(text)
}
