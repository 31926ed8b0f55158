//! The texts of what a world counts.
use std::alloc::Global;
use tea_base::WantOfMemory;
use world::{HeardEvent, RanMessage};
use world_lines::{push_literal, push_method};

/// What a kind of fault is, in words.
pub fn meaning(kind: &str) -> &'static str {
    match kind {
        "overflow" => "a number is not in 64 bits",
        "zero-divisor" => "a number is divided by 0",
        "bad-kind" => "a value is of another kind than is wanted there",
        "bad-index" => "a place in a list or a text is not there",
        "no-object" => "the object is not there",
        "no-method" => "the object's class has no such method",
        "arity" => "a method is called with another number of arguments than it has parameters",
        "fuel" => "the message has taken all its 100,000 steps",
        "depth" => "512 statements and expressions are open already",
        "size" => "a value weighs more than 4,096, or nests lists deeper than 32",
        "instant" => "1,024 messages ran at this moment already",
        "time" => "a message is sent to a time before the world's, or to one that is too late",
        "full" => "the world holds no more",
        _ => "the payload of an event cannot be read",
    }
}

/// The method in which a message ran, of a class with this name.
pub fn method_place(alloc: Global, class: &str, ran: &RanMessage) -> Result<String, WantOfMemory> {
    let mut place = String::from_str(alloc, " in the method")?;
    push_method(&mut place, &ran.method)?;
    write!(place, " of {class}")?;
    Ok(place)
}

/// The handlers that an entry has started.
pub fn handler_place(alloc: Global, heard: &Option<HeardEvent>) -> Result<String, WantOfMemory> {
    let Some(heard) = heard else {
        return Ok(String::from_str(alloc, " as an entry of the log came")?);
    };
    let mut place = String::from_str(alloc, " in a handler of")?;
    push_literal(&mut place, &heard.scope)?;
    push_literal(&mut place, &heard.event)?;
    Ok(place)
}

/// What is told of a fault of this kind in this place, at a time.
pub fn fault_line(
    alloc: Global,
    kind: &str,
    place: &str,
    time: u64,
) -> Result<String, WantOfMemory> {
    let meaning = meaning(kind);
    Ok(format!(in alloc;
        "fault {kind} at {time}{place}: {meaning}. `trace` shows the message, from {time} to {time} of the session's log\n"
    )?)
}

/// What is told of an event that no handler heard, of the entry of this number and time.
pub fn unheard_line(
    alloc: Global,
    heard: &HeardEvent,
    seq: u32,
    time: u64,
) -> Result<String, WantOfMemory> {
    let mut line = String::from_str(alloc, "no handler heard")?;
    push_literal(&mut line, &heard.scope)?;
    push_literal(&mut line, &heard.event)?;
    write!(
        line,
        " at {time}, entry {seq}: no model has subscribed to it. Are its scope and its name spelled as there?\n"
    )?;
    Ok(line)
}
