//! The steps of a world one at a time, and what is told of each.
ghost use Rattle.std.specs.Prelude.{◌≡◌, ◌<◌, IfOk, OnOk};
ghost use Rattle.std.specs.Option.{option_map};
ghost use Rattle.tea_base.specs.Limits.{time_limit};
ghost use Rattle.model_value.specs.Payload.{whole_payload};
ghost use Rattle.model_solved.specs.Founding.{checked_tree};
ghost use Rattle.model_tree.specs.Program.{IsProgram};
ghost use Rattle.world_plain.specs.Messages.{plain_message};
ghost use Rattle.world_plain.specs.Valid.{Valid, IsHeld};
ghost use Rattle.world_state.specs.Answer.{world_of};
ghost use Rattle.world.specs.Worlds.{field_counts, advance as advanced, external as entered_by};
ghost use Rattle.world.specs.Turns.{after_turn, next_ran, ran_in, heard_in, heard_of, join_heard, exit_heard, event_heard};
ghost use Rattle.world.specs.View.{scene, plain_ran};

use crate::messages::{handle, take_due};
use crate::simulation::{advance, exit_event, external, is_here, join_event};
use crate::told::{HeardEvent, RanMessage};
use model_eval::session_text;
use model_solved::Checked;
use model_value::{ValueFault, copy_values, read_payload};
use std::alloc::Global;
use tea_base::{Entry, Text, WantOfMemory, What};
use world_plain::{MOST_VIEWS, Message};
use world_state::State;

/// Runs the message that is due first, if one is due up to a time, and tells which it was.
pub fn turn(
    alloc: Global,
    program: &Checked,
    state: &mut State,
    until: u64,
) -> Result<Option<RanMessage>, WantOfMemory>
    requires program { IsProgram (checked_tree program.now) }
    requires valid { Valid (field_counts (checked_tree program.now)) (world_of state.old) }
    ensures after { OnOk result (scene state.new ≡ after_turn (checked_tree program.now) until (scene state.old)) }
    ensures told { IfOk result (λ ran. option_map plain_ran ran ≡ next_ran until (world_of state.old)) }
    ensures valid { OnOk result (Valid (field_counts (checked_tree program.now)) (world_of state.new)) }
{
    let Some(message) = take_due(state, until) else {
        return Ok(None);
    };
    let ran = tell(alloc, state, &message)?;
    handle(alloc, program, state, message)?;
    Ok(Some(ran))
}

/// What is told of a message that is about to run.
fn tell(alloc: Global, state: &State, message: &Message) -> Result<RanMessage, WantOfMemory>
    requires { IsHeld (world_of state.now).objects message.now.object }
    ensures { IfOk result (λ ran. plain_ran ran ≡ ran_in (world_of state.now) (plain_message message.now)) }
{
    let Some(class) = state.objects.class(message.object) else {
        unreachable!();
    };
    let method = message.method.try_clone()?;
    let args = copy_values(alloc, &message.args)?;
    Ok(RanMessage {
        time: message.time,
        object: message.object,
        class,
        method,
        args,
    })
}

/// What an entry of the log does, and the event that models hear of it.
pub fn enter(
    alloc: Global,
    program: &Checked,
    state: &mut State,
    entry: &Entry,
) -> Result<Option<HeardEvent>, WantOfMemory>
    requires program { IsProgram (checked_tree program.now) }
    requires valid { Valid (field_counts (checked_tree program.now)) (world_of state.old) }
    requires time { entry.now.time < time_limit }
    ensures entered { OnOk result (scene state.new
        ≡ entered_by (checked_tree program.now) entry.now (scene state.old)) }
    ensures told { IfOk result (λ heard. heard
        ≡ heard_of (advanced (checked_tree program.now) entry.now.time (scene state.old)).world entry.now.view
        entry.now.what) }
    ensures valid { OnOk result (Valid (field_counts (checked_tree program.now)) (world_of state.new)) }
{
    advance(alloc, program, state, entry.time)?;
    let heard = heard(alloc, state, entry)?;
    external(alloc, program, state, entry)?;
    Ok(heard)
}

/// The event that models hear of an entry, if they hear of any.
fn heard(alloc: Global, state: &State, entry: &Entry) -> Result<Option<HeardEvent>, WantOfMemory>
    ensures { IfOk result (λ heard. heard ≡ heard_of (world_of state.now) entry.now.view entry.now.what) }
{
    match &entry.what {
        What::Join => join_heard(alloc, state, entry.view),
        What::Exit => exit_heard(alloc, state, entry.view),
        What::Event { payload, .. } => event_heard(alloc, state, payload.bytes()),
    }
}

fn join_heard(alloc: Global, state: &State, view: u32) -> Result<Option<HeardEvent>, WantOfMemory>
    ensures { IfOk result (λ heard. heard ≡ join_heard (world_of state.now) view) }
{
    if view == 0 || is_here(state.views.as_slice(), view) {
        return Ok(None);
    }
    if state.views.len() >= MOST_VIEWS {
        return Ok(None);
    }
    let scope = session_text(alloc, &state.id)?;
    let event = join_event(alloc)?;
    Ok(Some(count_handlers(state, scope, event)?))
}

fn exit_heard(alloc: Global, state: &State, view: u32) -> Result<Option<HeardEvent>, WantOfMemory>
    ensures { IfOk result (λ heard. heard ≡ exit_heard (world_of state.now) view) }
{
    if !is_here(state.views.as_slice(), view) {
        return Ok(None);
    }
    let scope = session_text(alloc, &state.id)?;
    let event = exit_event(alloc)?;
    Ok(Some(count_handlers(state, scope, event)?))
}

fn event_heard(
    alloc: Global,
    state: &State,
    payload: &[u8],
) -> Result<Option<HeardEvent>, WantOfMemory>
    ensures { IfOk result (λ heard. heard ≡ event_heard (world_of state.now) (whole_payload payload.now)) }
{
    match read_payload(alloc, payload) {
        Ok((scope, event, _)) => Ok(Some(count_handlers(state, scope, event)?)),
        Err(ValueFault::BadValue) => Ok(None),
        Err(ValueFault::WantOfMemory) => Err(WantOfMemory),
    }
}

/// An event, and how many handlers it has.
fn count_handlers(state: &State, scope: Text, event: Text) -> Result<HeardEvent, WantOfMemory>
    ensures { IfOk result (λ heard. heard ≡ heard_in (world_of state.now) scope event) }
{
    let handlers = state.topics.handlers(&scope, &event)?.len();
    Ok(HeardEvent {
        scope,
        event,
        handlers,
    })
}
