//! Events: what is published, and who is subscribed.
ghost use Rattle.std.specs.Prelude.{◌≡◌, ◌+◌, IfOk, OnOk, length, map, nat_le, pos};
ghost use Rattle.model_value.specs.Plain.{int};
ghost use Rattle.model_value.specs.View.{plain, plain_values};
ghost use Rattle.world_plain.specs.World.{subscription_weight, world_weight, most_world_weight};
ghost use Rattle.world_state.specs.declared.state.Budget.{Budget};
ghost use Rattle.model_eval.specs.Publishing.{add_subscription, subscribe, subscription, unsubscribe, with_outgoing};
ghost use Rattle.world_state.specs.Answer.{Answers, running, world_of};

use crate::calls::Event;
use model_value::{Value, Values, copy};
use std::alloc::Global;
use tea_base::{List, Text, WantOfMemory};
use world_plain::{Outgoing, Subscription, subscription_fits};
use world_state::{EvalStop, Fault, State, is_held};

/// Puts an event behind all that was published.
pub fn announce(alloc: Global, event: &Event<'_>, state: &mut State) -> Result<(), WantOfMemory>
    ensures { let e = event.now in OnOk result ((budget : Budget)
        → running state.new budget ≡ with_outgoing e.scope.now e.name.now (plain e.value.now)
        (running state.old budget)) }
{
    let outgoing = Outgoing {
        time: state.time,
        scope: event.scope.clone()?,
        event: event.name.clone()?,
        value: copy(alloc, event.value)?,
    };
    state.published.push(outgoing)
}

/// Subscribes an object's method to an event in a scope. Nothing is done where that is so already.
///
/// Gives a fault, and leaves the world as it was: NoObject where the object is gone, and Full where 16,384 subscriptions are
/// held or the world would become too heavy.
pub fn subscribe(
    scope: &Text,
    event: &Text,
    method: &Text,
    object: u32,
    state: &mut State,
) -> Result<Value, EvalStop>
    ensures { (budget : Budget) → Answers result state.new budget
        (subscribe object scope.now event.now method.now (running state.old budget)) }
{
    if !is_held(state, object) {
        return Err(EvalStop::Fault(Fault::NoObject));
    }
    let new = subscription_of(scope, event, method, object)?;
    add(new, state)
}

fn add(new: Subscription, state: &mut State) -> Result<Value, EvalStop>
    ensures { (budget : Budget) → Answers result state.new budget (add_subscription new (running state.old budget)) }
{
    if state.topics.holds(&new) {
        return Ok(Value::Nil);
    }
    if !has_room(state, &new) {
        return Err(EvalStop::Fault(Fault::Full));
    }
    state.topics.subscribe(new)?;
    Ok(Value::Nil)
}

/// Whether the world is light enough with one more subscription.
fn has_room(state: &State, new: &Subscription) -> bool
    ensures { result ≡ nat_le (world_weight (world_of state.now) + subscription_weight new.now) most_world_weight }
{
    match state.room() {
        None => false,
        Some(left) => subscription_fits(left, new),
    }
}

/// Takes away the subscription of an object's method to an event in a scope, if it is held. Gives the fault NoObject where the
/// object is gone.
pub fn unsubscribe(
    scope: &Text,
    event: &Text,
    method: &Text,
    object: u32,
    state: &mut State,
) -> Result<Value, EvalStop>
    ensures { (budget : Budget) → Answers result state.new budget
        (unsubscribe object scope.now event.now method.now (running state.old budget)) }
{
    if !is_held(state, object) {
        return Err(EvalStop::Fault(Fault::NoObject));
    }
    let old = subscription_of(scope, event, method, object)?;
    state.topics.unsubscribe(&old);
    Ok(Value::Nil)
}

fn subscription_of(
    scope: &Text,
    event: &Text,
    method: &Text,
    object: u32,
) -> Result<Subscription, WantOfMemory>
    ensures { IfOk result (λ s. s ≡ subscription object scope.now event.now method.now) }
{
    Ok(Subscription {
        scope: scope.clone()?,
        event: event.clone()?,
        object,
        method: method.clone()?,
    })
}

/// How many views there are, as a value.
pub fn view_count(views: &[u32]) -> Value
    ensures { plain result ≡ int (pos (length views.now)) }
{
    Value::Int(views.len() as i64)
}

/// The numbers of views as values.
pub fn views(alloc: Global, views: &[u32]) -> Result<Values, WantOfMemory>
    ensures { IfOk result (λ values. plain_values values ≡ map (λ view. int (pos view)) views.now) }
{
    let mut values = List::new(alloc);
    for view in views {
        values.push(Value::Int(i64::from(*view)))?;
    }
    Ok(values)
}
