//! The names by which objects are known.
ghost use Rattle.std.specs.Prelude.{◌≡◌, ℕ, nat_le};
ghost use Rattle.model_value.specs.View.{plain};
ghost use Rattle.world_plain.specs.World.{world_weight, most_world_weight};
ghost use Rattle.known_names.specs.Names.{with_known};
ghost use Rattle.world_state.specs.Objects.{known_by, make_known};
ghost use Rattle.world_state.specs.Answer.{Answers, running, world_of};
ghost use Rattle.world_state.specs.declared.state.Budget.{Budget};

use crate::fault::{EvalStop, Fault};
use crate::objects::is_held;
use crate::state::State;
use known_names::Names;
use model_value::Value;
use tea_base::Text;
use world_plain::Known;

/// The object that is known by a name, or nil.
pub fn known_object(known: &Names, name: &Text) -> Value
    ensures { plain result ≡ known_by name.now known.now }
{
    match known.object(name) {
        Some(object) => Value::Ref(object),
        None => Value::Nil,
    }
}

/// Makes an object known by a name, in place of any other. Gives the fault NoObject where the object is gone, and Full, with
/// the world as it was, where the world would become too heavy.
pub fn be_known(name: &Text, object: u32, state: &mut State) -> Result<Value, EvalStop>
    ensures { (budget : Budget) → Answers result state.new budget
        (make_known object name.now (running state.old budget)) }
{
    if !is_held(state, object) {
        return Err(EvalStop::Fault(Fault::NoObject));
    }
    if !has_room_for_name(state, name) {
        return Err(EvalStop::Fault(Fault::Full));
    }
    let known = Known {
        name: name.try_clone()?,
        object,
    };
    state.known.set(known)?;
    Ok(Value::Nil)
}

/// Whether the world is light enough with an object known by a name, whichever that is and whoever is known by it now.
fn has_room_for_name(state: &State, name: &Text) -> bool
    ensures { (object : ℕ) →
        result ≡ nat_le (world_weight
        (record (world_of state.now) { known = with_known name.now object state.now.known })) most_world_weight }
{
    let added = state.known.added_weight(name);
    match state.room() {
        None => false,
        Some(left) => added <= u64::from(left),
    }
}
