//! The lines of what ran.
ghost use Rattle.std.specs.Prelude.{◌≡◌, ◌++◌, OnOk, Some, slice_get, string_bytes};
ghost use Rattle.model_tree.specs.TreeView.{program_tree};
ghost use Rattle.world.specs.View.{plain_ran};
ghost use Rattle.command_trace.specs.TraceText.{class_word, entry_word, heard_part, message_line, entry_line, raised_line, raised_lines, fault_words};

use model_tree::Class;
use tea_base::{Entry, WantOfMemory, What};
use world::{HeardEvent, RanMessage};
use world_lines::{fault_word, push_arguments, push_literal, push_method, push_number, push_word};

/// Appends the name of a class.
fn push_class(text: &mut String, classes: &[Class], class: u16) -> Result<(), WantOfMemory>
    ensures { OnOk result (string_bytes text.new
        ≡ string_bytes text.old ++ class_word (program_tree classes.now) (Some class)) }
{
    let Some(named) = classes.get(usize::from(class)) else {
        return Ok(());
    };
    push_word(text, named.name.as_str())
}

/// Appends the line of a message.
pub fn push_message(
    text: &mut String,
    classes: &[Class],
    ran: &RanMessage,
) -> Result<(), WantOfMemory>
    ensures { OnOk result (string_bytes text.new
        ≡ string_bytes text.old ++ message_line (program_tree classes.now) (plain_ran ran.now)) }
{
    text.push_str("message")?;
    push_number(text, ran.time)?;
    push_number(text, u64::from(ran.object))?;
    push_class(text, classes, ran.class)?;
    push_method(text, &ran.method)?;
    push_arguments(text, &ran.args)?;
    text.push_str("\n")?;
    Ok(())
}

/// The kind of an entry.
fn entry_word(what: &What) -> &'static str
    ensures { result.now ≡ entry_word what.now }
{
    match what {
        What::Join => "join",
        What::Exit => "exit",
        What::Event { .. } => "event",
    }
}

/// Appends the event that models heard of an entry, and how many handlers it had.
fn push_heard(text: &mut String, heard: &Option<HeardEvent>) -> Result<(), WantOfMemory>
    ensures { OnOk result (string_bytes text.new ≡ string_bytes text.old ++ heard_part heard.now) }
{
    match heard {
        None => {
            push_word(text, "heard")?;
            push_number(text, 0)
        }
        Some(heard) => {
            push_literal(text, &heard.scope)?;
            push_literal(text, &heard.event)?;
            push_word(text, "heard")?;
            push_number(text, heard.handlers as u64)
        }
    }
}

/// Appends the line of an entry.
pub fn push_entry(
    text: &mut String,
    entry: &Entry,
    heard: &Option<HeardEvent>,
) -> Result<(), WantOfMemory>
    ensures { OnOk result (string_bytes text.new ≡ string_bytes text.old ++ entry_line entry.now heard.now) }
{
    text.push_str("entry")?;
    push_number(text, u64::from(entry.seq))?;
    push_word(text, "time")?;
    push_number(text, entry.time)?;
    push_word(text, "view")?;
    push_number(text, u64::from(entry.view))?;
    push_word(text, entry_word(&entry.what))?;
    push_heard(text, heard)?;
    text.push_str("\n")?;
    Ok(())
}

/// Appends the line of a kind of fault, if its count rose.
fn push_fault(text: &mut String, kind: &str, before: u64, after: u64) -> Result<(), WantOfMemory>
    ensures { OnOk result (string_bytes text.new ≡ string_bytes text.old ++ raised_line kind.now before after) }
{
    if after <= before {
        return Ok(());
    }
    text.push_str("fault")?;
    push_word(text, kind)?;
    text.push_str("\n")?;
    Ok(())
}

/// Appends the line of each kind of fault whose count rose, in their order. One message raises at most one.
pub fn push_raised(
    text: &mut String,
    before: &[u64; 14],
    after: &[u64; 14],
) -> Result<(), WantOfMemory>
    ensures { OnOk result (string_bytes text.new
        ≡ string_bytes text.old ++ raised_lines fault_words before.now after.now) }
{
    for place in 0..14 {
        push_fault(text, fault_word(place), before[place], after[place])?;
    }
    Ok(())
}
