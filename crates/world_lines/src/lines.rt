//! The lines of a world.
ghost use Rattle.std.specs.Prelude.{◌≡◌, ◌++◌, flat_map, map, slice_get, IfOk, OnOk, string_bytes};
ghost use Rattle.model_tree.specs.TreeView.{program_tree};
ghost use Rattle.model_value.specs.View.{plain_values};
ghost use Rattle.world_plain.specs.Messages.{plain_message};
ghost use Rattle.world_plain.specs.World.{object_record, world_record};
ghost use Rattle.world_lines.specs.WorldLines.{class_part, fields_part, object_line, topic_line, pending_line, world_lines};

use crate::faults::fault_lines;
use crate::words::{
    push_arguments, push_literal, push_method, push_number, push_value_text, push_word,
};
use model_tree::Class;
use model_value::Value;
use std::alloc::Global;
use tea_base::{Text, WantOfMemory};
use text_lines::spell_numbers;
use world_plain::{Message, PlainObject, PlainWorld, Subscription};

/// Appends fields, each by its name and its value.
fn push_fields(line: &mut String, names: &[Text], values: &[Value]) -> Result<(), WantOfMemory>
    ensures { OnOk result (string_bytes line.new
        ≡ string_bytes line.old ++ fields_part names.now (plain_values values.now)) }
{
    for i in 0..names.len().min(values.len()) {
        push_word(line, names[i].as_str())?;
        push_value_text(line, &values[i])?;
    }
    Ok(())
}

/// Appends the class of an object by its name, with the fields.
fn push_class(
    line: &mut String,
    classes: &[Class],
    object: &PlainObject,
) -> Result<(), WantOfMemory>
    ensures { let o = object_record object.now in
        OnOk result (string_bytes line.new
        ≡ string_bytes line.old ++ class_part (slice_get (program_tree classes.now) o.class) o.fields) }
{
    let Some(class) = classes.get(usize::from(object.class)) else {
        return Ok(());
    };
    push_word(line, class.name.as_str())?;
    push_fields(line, &class.fields, object.fields.as_slice())
}

/// The line of an object.
fn object_line(
    alloc: Global,
    classes: &[Class],
    object: &PlainObject,
) -> Result<String, WantOfMemory>
    ensures { IfOk result (λ line. string_bytes line
        ≡ object_line (program_tree classes.now) (object_record object.now)) }
{
    let mut line = spell_numbers(alloc, "object", &[u64::from(object.id)])?;
    push_class(&mut line, classes, object)?;
    line.push_str("\n")?;
    Ok(line)
}

/// The lines of objects, in order.
fn object_lines(
    alloc: Global,
    classes: &[Class],
    objects: &[PlainObject],
) -> Result<String, WantOfMemory>
    ensures { IfOk result (λ text. string_bytes text
        ≡ flat_map (object_line (program_tree classes.now)) (map object_record objects.now)) }
{
    let mut text = String::new(alloc);
    for object in objects {
        text.push_str(object_line(alloc, classes, object)?.as_str())?;
    }
    Ok(text)
}

/// The line of a subscription.
fn topic_line(alloc: Global, topic: &Subscription) -> Result<String, WantOfMemory>
    ensures { IfOk result (λ line. string_bytes line ≡ topic_line topic.now) }
{
    let mut line = String::from_str(alloc, "topic")?;
    push_literal(&mut line, &topic.scope)?;
    push_literal(&mut line, &topic.event)?;
    push_number(&mut line, u64::from(topic.object))?;
    push_method(&mut line, &topic.method)?;
    line.push_str("\n")?;
    Ok(line)
}

/// The lines of subscriptions, in order.
fn topic_lines(alloc: Global, topics: &[Subscription]) -> Result<String, WantOfMemory>
    ensures { IfOk result (λ text. string_bytes text ≡ flat_map topic_line topics.now) }
{
    let mut text = String::new(alloc);
    for topic in topics {
        text.push_str(topic_line(alloc, topic)?.as_str())?;
    }
    Ok(text)
}

/// The line of a message to come.
fn pending_line(alloc: Global, message: &Message) -> Result<String, WantOfMemory>
    ensures { IfOk result (λ line. string_bytes line ≡ pending_line (plain_message message.now)) }
{
    let mut line = spell_numbers(
        alloc,
        "pending",
        &[message.time, message.number, u64::from(message.object)],
    )?;
    push_method(&mut line, &message.method)?;
    push_arguments(&mut line, &message.args)?;
    line.push_str("\n")?;
    Ok(line)
}

/// The lines of messages to come, in order.
fn pending_lines(alloc: Global, messages: &[Message]) -> Result<String, WantOfMemory>
    ensures { IfOk result (λ text. string_bytes text ≡ flat_map pending_line (map plain_message messages.now)) }
{
    let mut text = String::new(alloc);
    for message in messages {
        text.push_str(pending_line(alloc, message)?.as_str())?;
    }
    Ok(text)
}

/// The lines of a world of a program with these classes: its objects, its subscriptions, its messages to come, and the faults that
/// it counts. It fails only where it runs out of memory.
pub fn world_lines(
    alloc: Global,
    classes: &[Class],
    world: &PlainWorld,
) -> Result<String, WantOfMemory>
    ensures { IfOk result (λ text. string_bytes text
        ≡ world_lines (program_tree classes.now) (world_record world.now)) }
{
    let mut text = object_lines(alloc, classes, world.objects.as_slice())?;
    let topics = topic_lines(alloc, world.subscriptions.as_slice())?;
    let pending = pending_lines(alloc, world.pending.as_slice())?;
    let faults = fault_lines(alloc, &world.faults)?;
    text.push_str(topics.as_str())?;
    text.push_str(pending.as_str())?;
    text.push_str(faults.as_str())?;
    Ok(text)
}
