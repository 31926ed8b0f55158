//! The first world, and how time and entries change a world.
ghost use Rattle.std.specs.Prelude.{◌≡◌, ◌≤◌, ◌<◌, IfOk, OnOk, length, insert};
ghost use Rattle.world_plain.specs.Valid.{Valid};
ghost use Rattle.tea_base.specs.Limits.{time_limit};
ghost use Rattle.model_value.specs.Payload.{whole_payload};
ghost use Rattle.model_solved.specs.Founding.{checked_tree};
ghost use Rattle.model_tree.specs.Program.{IsProgram};
ghost use Rattle.world.specs.Worlds.{field_counts, advance as advanced, external as entered_by, after_entry, after_join, after_exit, after_event, after_telling_of, view_join, view_exit, is_view_here, with_view, without_view};
ghost use Rattle.world_state.specs.Answer.{world_of};
ghost use Rattle.world.specs.View.{scene, IsPlaceOfView};

use crate::messages::{begin, count, count_bad_event, handle, inform, move_to, take_due};
use model_eval::{Event, session_text};
use model_solved::Checked;
use model_value::{Value, ValueFault, read_payload};
use std::alloc::Global;
use std::mem;
use tea_base::{Entry, List, Numbers, Text, WantOfMemory, What};
use world_plain::MOST_VIEWS;
use world_state::{Fault, State};

/// Runs the messages that are due up to a time, which then is the world's.
pub fn advance(
    alloc: Global,
    program: &Checked,
    state: &mut State,
    time: u64,
) -> Result<(), WantOfMemory>
    requires program { IsProgram (checked_tree program.now) }
    requires valid { Valid (field_counts (checked_tree program.now)) (world_of state.old) }
    requires time { time < time_limit }
    ensures advanced { OnOk result (scene state.new ≡ advanced (checked_tree program.now) time (scene state.old)) }
    ensures valid { OnOk result (Valid (field_counts (checked_tree program.now)) (world_of state.new)) }
{
    while let Some(message) = take_due(state, time) {
        handle(alloc, program, state, message)?;
    }
    move_to(state, time);
    Ok(())
}

/// What an entry of the log does: the world advances to its time, and one message handles it.
pub fn external(
    alloc: Global,
    program: &Checked,
    state: &mut State,
    entry: &Entry,
) -> Result<(), WantOfMemory>
    requires program { IsProgram (checked_tree program.now) }
    requires valid { Valid (field_counts (checked_tree program.now)) (world_of state.old) }
    requires time { entry.now.time < time_limit }
    ensures entered { OnOk result (scene state.new
        ≡ entered_by (checked_tree program.now) entry.now (scene state.old)) }
    ensures valid { OnOk result (Valid (field_counts (checked_tree program.now)) (world_of state.new)) }
{
    advance(alloc, program, state, entry.time)?;
    begin(state);
    enter(alloc, program, state, entry)
}

fn enter(
    alloc: Global,
    program: &Checked,
    state: &mut State,
    entry: &Entry,
) -> Result<(), WantOfMemory>
    ensures { OnOk result (scene state.new
        ≡ after_entry (checked_tree program.now) entry.now.what entry.now.view (scene state.old)) }
{
    match &entry.what {
        What::Join => come(alloc, program, state, entry.view),
        What::Exit => go(alloc, program, state, entry.view),
        What::Event { payload, .. } => hear(alloc, program, state, entry.view, payload.bytes()),
    }
}

/// Adds a view that is not here and tells models of it, unless too many are here: that is a fault.
fn come(alloc: Global, program: &Checked, state: &mut State, view: u32) -> Result<(), WantOfMemory>
    ensures { OnOk result (scene state.new ≡ after_join (checked_tree program.now) view (scene state.old)) }
{
    if view == 0 || is_here(state.views.as_slice(), view) {
        return Ok(());
    }
    if state.views.len() >= MOST_VIEWS {
        count(state, Fault::Full);
        return Ok(());
    }
    add_view(alloc, &mut state.views, view)?;
    let event = join_event(alloc)?;
    tell_of(alloc, program, state, &event, view)
}

/// Takes away a view that is here, and tells models of it.
fn go(alloc: Global, program: &Checked, state: &mut State, view: u32) -> Result<(), WantOfMemory>
    ensures { OnOk result (scene state.new ≡ after_exit (checked_tree program.now) view (scene state.old)) }
{
    if !is_here(state.views.as_slice(), view) {
        return Ok(());
    }
    take_view(alloc, &mut state.views, view);
    let event = exit_event(alloc)?;
    tell_of(alloc, program, state, &event, view)
}

/// Tells models of an event of a view, or counts one whose payload cannot be read.
fn hear(
    alloc: Global,
    program: &Checked,
    state: &mut State,
    view: u32,
    payload: &[u8],
) -> Result<(), WantOfMemory>
    ensures { OnOk result (scene state.new
        ≡ after_event (checked_tree program.now) view (whole_payload payload.now) (scene state.old)) }
{
    match read_payload(alloc, payload) {
        Ok((scope, name, value)) => {
            let event = Event {
                scope: &scope,
                name: &name,
                value: &value,
                sender: Some(view),
            };
            inform(alloc, program, state, &event)
        }
        Err(ValueFault::BadValue) => {
            count_bad_event(state);
            Ok(())
        }
        Err(ValueFault::WantOfMemory) => Err(WantOfMemory),
    }
}

/// Tells models of what became of a view, in the session's own scope.
fn tell_of(
    alloc: Global,
    program: &Checked,
    state: &mut State,
    name: &Text,
    view: u32,
) -> Result<(), WantOfMemory>
    ensures { OnOk result (scene state.new
        ≡ after_telling_of (checked_tree program.now) name.now view (scene state.old)) }
{
    let scope = session_text(alloc, &state.id)?;
    let value = Value::Int(i64::from(view));
    let event = Event {
        scope: &scope,
        name,
        value: &value,
        sender: Some(view),
    };
    inform(alloc, program, state, &event)
}

/// The event of a view that comes.
pub fn join_event(alloc: Global) -> Result<Text, WantOfMemory>
    ensures { IfOk result (λ name. name ≡ view_join) }
{
    Text::copy(alloc, "view-join")
}

/// The event of a view that goes.
pub fn exit_event(alloc: Global) -> Result<Text, WantOfMemory>
    ensures { IfOk result (λ name. name ≡ view_exit) }
{
    Text::copy(alloc, "view-exit")
}

/// Whether a view is among those that are here.
pub fn is_here(views: &[u32], view: u32) -> bool
    ensures { result ≡ is_view_here view views.now }
{
    for other in views {
        if view == *other {
            return true;
        }
    }
    false
}

/// Puts a view before the first that is greater.
fn add_view(alloc: Global, views: &mut Numbers, view: u32) -> Result<(), WantOfMemory>
    ensures { OnOk result (views.new ≡ with_view view views.old) }
{
    let mut held = mem::replace(views, List::new(alloc)).into_vec();
    let place = place_before(&held, view);
    held.insert(place, view)?;
    *views = List::from_vec(held);
    Ok(())
}

/// Takes the first place of a view, if there is one.
fn take_view(alloc: Global, views: &mut Numbers, view: u32)
    ensures { views.new ≡ without_view view views.old }
{
    let mut held = mem::replace(views, List::new(alloc)).into_vec();
    if let Some(place) = place_of(&held, view) {
        held.remove(place);
    }
    *views = List::from_vec(held);
}

fn place_before(views: &[u32], view: u32) -> usize
    ensures place { with_view view views.now ≡ insert views.now result view }
    ensures within { result ≤ length views.now }
{
    for i in 0..views.len() {
        if view < views[i] {
            return i;
        }
    }
    views.len()
}

fn place_of(views: &[u32], view: u32) -> Option<usize>
    ensures { IsPlaceOfView result view views.now }
{
    for i in 0..views.len() {
        if view == views[i] {
            return Some(i);
        }
    }
    None
}
