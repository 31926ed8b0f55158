//! What methods start with that may take a second value.
ghost use Rattle.std.specs.Prelude.{◌≡◌, ◌∷◌, [], IfOk};
ghost use Rattle.model_value.specs.View.{plain, plain_values};
ghost use Rattle.model_solved.specs.Founding.{checked_tree};
ghost use Rattle.world_plain.specs.Valid.{object_at};
ghost use Rattle.world_state.specs.Answer.{world_of};
ghost use Rattle.model_eval.specs.Arguments.{takes_two};
ghost use Rattle.model_eval.specs.Publishing.{handler_arguments, method_on, sender_value};
ghost use Rattle.model_eval.specs.Answer.{notice_of};

use crate::calls::Event;
use crate::here::Starter;
use crate::values::only;
use model_solved::Checked;
use model_value::{Value, Values, copy};
use pubsub::Handler;
use std::alloc::Global;
use tea_base::WantOfMemory;
use world_state::State;

/// What the method that handles an event starts with: the value, and where it has two parameters the view that sent it.
pub fn handler_args(
    starter: &Starter<'_>,
    handler: &Handler,
    event: &Event<'_>,
    state: &State,
) -> Result<Values, WantOfMemory>
    ensures { IfOk result (λ args. plain_values args
        ≡ handler_arguments (checked_tree starter.now.program.now) (notice_of event.now) handler.now
        (world_of state.now)) }
{
    let value = copy(starter.alloc, event.value)?;
    if wants_sender(starter.program, handler, state) {
        both(starter.alloc, value, sender_of(event.sender))
    } else {
        only(starter.alloc, value)
    }
}

/// Whether a handler's method has two parameters, where there is such a method.
fn wants_sender(program: &Checked, handler: &Handler, state: &State) -> bool
    ensures { result ≡ takes_two
        (method_on (checked_tree program.now)
        (object_at state.now.objects.objects handler.now.object) handler.now.method) }
{
    let Some(class) = state.objects.class(handler.object) else {
        return false;
    };
    match program.method(class, &handler.method) {
        None => false,
        Some(solved) => solved.params == 2,
    }
}

/// A view as its number, and nil where there is none.
fn sender_of(sender: Option<u32>) -> Value
    ensures { plain result ≡ sender_value sender }
{
    match sender {
        None => Value::Nil,
        Some(view) => Value::Int(i64::from(view)),
    }
}

/// A list of two values.
pub fn both(alloc: Global, first: Value, second: Value) -> Result<Values, WantOfMemory>
    ensures { IfOk result (λ values. plain_values values ≡ plain first ∷ plain second ∷ []) }
{
    let mut values = only(alloc, first)?;
    values.push(second)?;
    Ok(values)
}
