//! The requests of a hub's script, one after the other.
ghost use Rattle.std.specs.Prelude.{◌≡◌, ◌++◌, map, IfOk, OnOk, string_bytes};
ghost use Rattle.command_outcome.specs.Outcome.{numbered_puts, steps_of};
ghost use Rattle.command_hub.specs.HubScript.{AreNamed, HasName};
ghost use Rattle.command_hub.specs.HubRun.{hub_puts, hub_reply_line, hub_run, hub_steps, named_line, run_line, stored_bytes};

use crate::script::{HubLine, HubLines};
use command_outcome::{Outcome, Puts, put_numbered};
use command_stamp::reply_line;
use model_value::Value;
use session_hub::{Hub, HubReply};
use snapshot_codec::session_id;
use std::alloc::Global;
use tea_base::{Blob, Text, WantOfMemory};
use text_lines::spell_numbers;

/// The line of a reply, or that the hub has as many sessions as it may have.
fn hub_reply_line(alloc: Global, reply: &HubReply) -> Result<String, WantOfMemory>
    ensures { IfOk result (λ line. string_bytes line ≡ hub_reply_line reply.now) }
{
    match reply {
        HubReply::Reply(reply) => reply_line(alloc, reply),
        HubReply::HubFull { sessions } => {
            let mut line = spell_numbers(alloc, "hub-full", &[u64::from(*sessions)])?;
            line.push_str("\n")?;
            Ok(line)
        }
    }
}

/// Appends the line of a reply, after the name of its session.
fn push_reply(
    alloc: Global,
    text: &mut String,
    name: &Text,
    reply: &HubReply,
) -> Result<(), WantOfMemory>
    ensures { OnOk result (string_bytes text.new ≡ string_bytes text.old ++ named_line name.now reply.now) }
{
    let line = hub_reply_line(alloc, reply)?;
    text.push_str(name.as_str())?;
    text.push_str(" ")?;
    text.push_str(line.as_str())?;
    Ok(())
}

/// Asks the session of a line, and tells its reply.
fn ask(alloc: Global, hub: &mut Hub, text: &mut String, line: &HubLine) -> Result<(), WantOfMemory>
    requires { HasName line.now }
    ensures { OnOk result (record { hub = hub.new; text = string_bytes text.new }
        ≡ run_line (record { hub = hub.old; text = string_bytes text.old }) line.now) }
{
    let id = session_id(&line.name, &[], &Value::Nil);
    let reply = hub.call(&id, &line.request)?;
    push_reply(alloc, text, &line.name, &reply)
}

/// The sessions and the text that the lines leave.
fn run_lines(alloc: Global, lines: &[HubLine]) -> Result<(Hub, String), WantOfMemory>
    requires { AreNamed lines.now }
    ensures { IfOk result (λ left. record { hub = left.0; text = string_bytes left.1 } ≡ hub_run lines.now) }
{
    let mut hub = Hub::new(alloc);
    let mut text = String::new(alloc);
    for line in lines {
        ask(alloc, &mut hub, &mut text, line)?;
    }
    Ok((hub, text))
}

/// The sessions of a hub, each as it is stored, in the order in which they were made.
fn put_sessions(alloc: Global, prefix: &Text, hub: &Hub) -> Result<Puts, WantOfMemory>
    ensures { IfOk result (λ files. files ≡ numbered_puts prefix.now 1 (map stored_bytes hub.now)) }
{
    let mut files = Puts::new(alloc);
    for place in 0..hub.sessions() {
        let Some(session) = hub.made(place) else {
            unreachable!();
        };
        let bytes = session.store()?;
        put_numbered(alloc, &mut files, prefix, u64::from(place) + 1, bytes)?;
    }
    Ok(files)
}

/// The files of a hub's sessions, where a name for them is given.
fn hub_files(alloc: Global, logs: Option<Text>, hub: &Hub) -> Result<Puts, WantOfMemory>
    ensures { IfOk result (λ files. files ≡ hub_puts logs hub.now) }
{
    match logs {
        None => Ok(Puts::new(alloc)),
        Some(prefix) => put_sessions(alloc, &prefix, hub),
    }
}

/// What a hub puts and prints: each session as it is stored, where a name for them is given, and the replies to its script's requests.
pub fn hub_outcome(
    alloc: Global,
    logs: Option<Text>,
    lines: &HubLines,
) -> Result<Outcome, WantOfMemory>
    requires { AreNamed lines.now }
    ensures { IfOk result (λ outcome. steps_of outcome.files outcome.text ≡ hub_steps logs lines.now) }
{
    let (hub, text) = run_lines(alloc, lines.as_slice())?;
    let files = hub_files(alloc, logs, &hub)?;
    Ok(Outcome {
        files,
        text: Blob::from_vec(text.into_bytes()),
    })
}
