//! The value that a world saves for a later session.
ghost use Rattle.std.specs.Prelude.{◌≡◌, nat_le};
ghost use Rattle.model_value.specs.View.{plain};
ghost use Rattle.world_plain.specs.World.{world_weight, most_world_weight};
ghost use Rattle.world_state.specs.Objects.{persist};
ghost use Rattle.world_state.specs.Answer.{Answers, running, world_of};
ghost use Rattle.world_state.specs.declared.state.Budget.{Budget};

use crate::fault::{EvalStop, Fault};
use crate::state::State;
use model_value::{Value, copy};
use saved_value::{Saved, can_be_saved};
use std::alloc::Global;
use world_plain::MOST_WORLD_WEIGHT;

/// Saves a value for a later session, in place of the one that is saved. Gives a fault, and leaves the world as it was:
/// BadKind where the value cannot be saved, and Full where the world would become too heavy.
pub fn persist(alloc: Global, state: &mut State, value: &Value) -> Result<Value, EvalStop>
    ensures { (budget : Budget) → Answers result state.new budget
        (persist (plain value.now) (running state.old budget)) }
{
    if !can_be_saved(value) {
        return Err(EvalStop::Fault(Fault::BadKind));
    }
    let new = Saved::of(copy(alloc, value)?);
    if !has_room_to_save(state, &new) {
        return Err(EvalStop::Fault(Fault::Full));
    }
    state.saved = new;
    Ok(Value::Nil)
}

/// Whether the world is light enough with a saved value in place of the one that it has.
fn has_room_to_save(state: &State, new: &Saved) -> bool
    ensures { result ≡ nat_le (world_weight (record (world_of state.now) { saved = new.now })) most_world_weight }
{
    match state.room_behind(MOST_WORLD_WEIGHT + state.saved.weight()) {
        None => false,
        Some(left) => new.weight() <= left,
    }
}
