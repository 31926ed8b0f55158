//! Messages of a world, run one after the other.
ghost use Rattle.std.specs.Prelude.{◌≡◌, ◌<◌, OnOk};
ghost use Rattle.world_plain.specs.Messages.{plain_message};
ghost use Rattle.model_value.specs.View.{plain_values};
ghost use Rattle.model_eval.specs.Answer.{notice_of};
ghost use Rattle.model_solved.specs.Founding.{checked_tree};
ghost use Rattle.world.specs.Worlds.{after_method, after_telling, with_fault, with_count, bad_event, with_next_turn, at_later_time, scene_with_world, fault_number};
ghost use Rattle.world.specs.View.{scene, TakesDue};

use message_queue::Steps;
use model_eval::{Call, Event, run_method, tell_models};
use model_solved::Checked;
use std::alloc::Global;
use std::marker::Brand;
use std::sync::ledger::{Blank, Ledger};
use tea_base::WantOfMemory;
use world_plain::{MOST_TURNS, Message};
use world_state::{Budget, EvalStop, Fault, State};

/// Where events that cannot be read are counted, behind the faults.
const BAD_EVENT: usize = 13;

/// Runs a method of an object as a message of its own. A fault ends it and is counted; what was done until then stays.
pub fn run(
    alloc: Global,
    program: &Checked,
    state: &mut State,
    call: Call<'_>,
) -> Result<(), WantOfMemory>
    ensures { let c = call.entry in
        OnOk result (scene state.new
        ≡ after_method (checked_tree program.now) c.object c.method.now (plain_values c.args) (scene state.old)) }
{
    let mut budget = Budget::new();
    match run_method(alloc, program, call, state, &mut budget) {
        Ok(_) => Ok(()),
        Err(EvalStop::Fault(fault)) => {
            count(state, fault);
            Ok(())
        }
        Err(EvalStop::WantOfMemory) => Err(WantOfMemory),
    }
}

/// Tells models of an event as a message of its own; it is not added to what was published. A fault ends it and is counted; what
/// was done until then stays.
pub fn inform(
    alloc: Global,
    program: &Checked,
    state: &mut State,
    event: &Event<'_>,
) -> Result<(), WantOfMemory>
    ensures { let e = event.now in
        OnOk result (scene state.new ≡ after_telling (checked_tree program.now) e.scope.now e.name.now (notice_of e)
        (scene state.old)) }
{
    let mut budget = Budget::new();
    match tell_models(alloc, program, event, state, &mut budget) {
        Ok(()) => Ok(()),
        Err(EvalStop::Fault(fault)) => {
            count(state, fault);
            Ok(())
        }
        Err(EvalStop::WantOfMemory) => Err(WantOfMemory),
    }
}

/// Counts a fault. A count stops at the last number of 64 bits.
pub fn count(state: &mut State, fault: Fault)
    ensures { scene state.new ≡ scene_with_world (scene state.old) (with_fault fault (scene state.old).world) }
{
    let kind = number(fault);
    state.faults[kind] = state.faults[kind].saturating_add(1);
}

/// Counts an event that cannot be read. A count stops at the last number of 64 bits.
pub fn count_bad_event(state: &mut State)
    ensures { scene state.new ≡ scene_with_world (scene state.old) (with_count bad_event (scene state.old).world) }
{
    state.faults[BAD_EVENT] = state.faults[BAD_EVENT].saturating_add(1);
}

fn number(fault: Fault) -> usize
    ensures { result ≡ fault_number fault }
{
    match fault {
        Fault::Overflow => 0,
        Fault::ZeroDivisor => 1,
        Fault::BadKind => 2,
        Fault::BadIndex => 3,
        Fault::NoObject => 4,
        Fault::NoMethod => 5,
        Fault::Arity => 6,
        Fault::Fuel => 7,
        Fault::Depth => 8,
        Fault::Size => 9,
        Fault::Instant => 10,
        Fault::Time => 11,
        Fault::Full => 12,
    }
}

/// One more message runs at the world's time.
pub fn begin(state: &mut State)
    ensures { scene state.new ≡ scene_with_world (scene state.old) (with_next_turn (scene state.old).world) }
{
    state.turns = state.turns.saturating_add(1).min(MOST_TURNS);
}

/// Moves the world to a later time, at which no message ran yet.
pub fn move_to(state: &mut State, time: u64)
    ensures { scene state.new ≡ scene_with_world (scene state.old) (at_later_time time (scene state.old).world) }
{
    if state.time < time {
        state.time = time;
        state.turns = 0;
    }
}

/// Takes the least pending message, if its time is at most this one.
pub fn take_due(state: &mut State, time: u64) -> Option<Message>
    ensures { TakesDue result time (scene state.old) (scene state.new) }
{
    take_due_counted::<Brand>(state, time, Blank::new(1))
}

/// Takes the least pending message, if its time is at most this one. Comparisons are counted by a counter of its own.
fn take_due_counted<L: Ledger>(state: &mut State, time: u64, blank: Blank) -> Option<Message>
    requires name { blank.name ≡ L.name }
    requires parts { blank.parts ≡ L.parts }
    requires some { 0 < blank.parts }
    ensures { TakesDue result time (scene state.old) (scene state.new) }
{
    let mut steps = Steps::<L>::new(blank);
    let (due, _) = state.pending.least(&mut steps)?;
    if due > time {
        return None;
    }
    state.pending.take_least(&mut steps)
}

/// Runs a pending message that was taken.
pub fn handle(
    alloc: Global,
    program: &Checked,
    state: &mut State,
    message: Message,
) -> Result<(), WantOfMemory>
    ensures { let m = plain_message message in
        OnOk result (scene state.new
        ≡ after_method (checked_tree program.now) m.object m.method m.args
        (scene_with_world (scene state.old) (with_next_turn (at_later_time m.time (scene state.old).world)))) }
{
    move_to(state, message.time);
    begin(state);
    let Message {
        object,
        method,
        args,
        ..
    } = message;
    let call = Call {
        object,
        method: &method,
        args,
    };
    run(alloc, program, state, call)
}
