//! Methods, started on objects.
ghost use Rattle.std.specs.Prelude.{◌≡◌};
ghost use Rattle.model_value.specs.View.{plain_values};
ghost use Rattle.model_solved.specs.Founding.{checked_tree};
ghost use Rattle.model_eval.specs.Meaning.{starts};
ghost use Rattle.model_eval.specs.Publishing.{tell_handlers};
ghost use Rattle.world_state.specs.Answer.{Answers, Did, running};
ghost use Rattle.model_eval.specs.Answer.{notice_of};

use crate::calls::{Call, Event};
use crate::here::Starter;
use model_solved::Checked;
use model_value::{Value, Values};
use std::alloc::Global;
use tea_base::Text;
use world_state::{Budget, EvalStop, State};

/// Starts a method on an object with these arguments, and runs it to its end.
///
/// Gives the fault NoObject where the object is gone, NoMethod where its class has no such method, and Arity where that
/// has another number of parameters; then what the method gives. A fault leaves what was done until then, and the fuel that
/// is left. After `WantOfMemory` nothing is known of the state.
///
/// That a valid world stays valid is the law `method_keeps`.
pub fn run_method(
    alloc: Global,
    program: &Checked,
    call: Call<'_>,
    state: &mut State,
    budget: &mut Budget,
) -> Result<Value, EvalStop>
    ensures answers { let c = call.entry in
        Answers result state.new budget.new
        (starts (checked_tree program.now) budget.old.room c.object c.method.now (plain_values c.args)
        (running state.old budget.old)) }
    ensures room { budget.new.room ≡ budget.old.room }
{
    let room = budget.room;
    let Call {
        object,
        method,
        args,
    } = call;
    let starter = Starter {
        alloc,
        program,
        room,
    };
    let outcome = starter.start(object, method, args, state, budget);
    // All that was opened is closed again.
    budget.room = room;
    outcome
}

/// Tells models of an event that no model published: the methods that are subscribed to it now start with the value, in order,
/// each unless its object is gone when its turn comes, and each takes a step of fuel. A method with two parameters also gets the
/// number of the view that sent it. The event is not added to what was published.
///
/// A fault ends it and leaves what was done until then, and the fuel that is left. After `WantOfMemory` nothing is known of the
/// state.
pub fn tell_models(
    alloc: Global,
    program: &Checked,
    event: &Event<'_>,
    state: &mut State,
    budget: &mut Budget,
) -> Result<(), EvalStop>
    ensures tells { let e = event.now in
        Did result state.new budget.new
        (tell_handlers (checked_tree program.now)
        (starts (checked_tree program.now) budget.old.room) e.scope.now e.name.now (notice_of e)
        (running state.old budget.old)) }
    ensures room { budget.new.room ≡ budget.old.room }
{
    let room = budget.room;
    let starter = Starter {
        alloc,
        program,
        room,
    };
    let outcome = starter.tell(event, state, budget);
    // All that was opened is closed again.
    budget.room = room;
    outcome
}
