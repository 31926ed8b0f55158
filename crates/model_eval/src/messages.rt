//! Messages to come.
ghost use Rattle.std.specs.Prelude.{◌≡◌, ◌+◌, nat_le, Some};
ghost use Rattle.model_value.specs.View.{plain, plain_values};
ghost use Rattle.world_plain.specs.Valid.{object_at};
ghost use Rattle.model_value.specs.Plain.{text_weight, values_weight};
ghost use Rattle.world_plain.specs.World.{world_weight, most_world_weight};
ghost use Rattle.world_state.specs.declared.state.Budget.{Budget};
ghost use Rattle.model_eval.specs.Futures.{ahead as ahead_of, send as sends, send_message_at, send_to};
ghost use Rattle.model_eval.specs.Publishing.{cancel};
ghost use Rattle.world_state.specs.Answer.{Answers, running, world_of};

use model_value::{Value, Values};
use tea_base::{TIME_LIMIT, Text};
use world_plain::{MOST_TURNS, message_fits};
use world_state::{EvalStop, Fault, State, is_held};

/// Sends a message to an object, to come so many milliseconds ahead. It gets the world's next number.
///
/// Gives a fault, and leaves the world as it was: BadKind where the object is no object or the delay no number;
/// NoObject where the object is gone; Time where the time is not to come or not below 2^53; Instant where 1,024
/// messages ran at that time; Full where the world holds no more.
pub fn send(
    state: &mut State,
    object: &Value,
    delay: &Value,
    method: &Text,
    args: Values,
) -> Result<Value, EvalStop>
    ensures { (budget : Budget) → Answers result state.new budget
        (sends (plain object.now) (plain delay.now) method.now (plain_values args) (running state.old budget)) }
{
    match (object, delay) {
        (Value::Ref(object), Value::Int(delay)) => send_to(state, *object, *delay, method, args),
        _ => Err(EvalStop::Fault(Fault::BadKind)),
    }
}

fn send_to(
    state: &mut State,
    object: u32,
    delay: i64,
    method: &Text,
    args: Values,
) -> Result<Value, EvalStop>
    ensures { (budget : Budget) → let r = running state.old budget in
        Answers result state.new budget
        (send_to (object_at r.world.objects object) object delay method.now (plain_values args) r) }
{
    if !is_held(state, object) {
        return Err(EvalStop::Fault(Fault::NoObject));
    }
    match ahead(state.time, delay) {
        None => Err(EvalStop::Fault(Fault::Time)),
        Some(time) => send_message_at(state, time, object, method, args),
    }
}

fn send_message_at(
    state: &mut State,
    time: u64,
    object: u32,
    method: &Text,
    args: Values,
) -> Result<Value, EvalStop>
    ensures { (budget : Budget) → Answers result state.new budget
        (send_message_at object method.now (plain_values args) (Some time) (running state.old budget)) }
{
    if time == state.time && state.turns == MOST_TURNS {
        return Err(EvalStop::Fault(Fault::Instant));
    }
    if !has_room(state, method, &args) {
        return Err(EvalStop::Fault(Fault::Full));
    }
    let method = method.try_clone()?;
    state.pending.push(time, object, method, args)?;
    Ok(Value::Nil)
}

/// The time so many milliseconds ahead.
fn ahead(time: u64, delay: i64) -> Option<u64>
    ensures { result ≡ ahead_of time delay }
{
    let delay = u64::try_from(delay).ok()?;
    let time = time.checked_add(delay.checked_mul(1000)?)?;
    if time < TIME_LIMIT { Some(time) } else { None }
}

/// Whether the world is light enough with one more message.
fn has_room(state: &State, method: &Text, args: &Values) -> bool
    ensures { result ≡ nat_le (world_weight (world_of state.now)
        + (3 + text_weight method.now + values_weight (plain_values args.now))) most_world_weight }
{
    match state.room() {
        None => false,
        Some(left) => message_fits(left, method, args),
    }
}

/// Takes away the messages to come that call a method of an object, and tells how many there were. Gives the fault NoObject where
/// the object is gone.
pub fn cancel(object: u32, method: &Text, state: &mut State) -> Result<Value, EvalStop>
    ensures { (budget : Budget) → Answers result state.new budget
        (cancel object method.now (running state.old budget)) }
{
    if !is_held(state, object) {
        return Err(EvalStop::Fault(Fault::NoObject));
    }
    let count = state.pending.cancel(object, method);
    Ok(Value::Int(i64::from(count)))
}
