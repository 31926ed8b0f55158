//! The builtins.
ghost use Rattle.std.specs.Prelude.{◌≡◌, ◌∷◌, [], length, IfOk};
ghost use Rattle.hex.specs.Hex.{encode_lower};
ghost use Rattle.model_value.specs.View.{plain, plain_values};
ghost use Rattle.model_eval.specs.Builtins.{run_builtin_alone, pure_outcome, pure_of as pure_builtin, takes_steps as is_dear, draw, tell_time, tell_id, tell_known, tell_held, on_none, on_any, on_int, on_text, on_texts, on_ref};
ghost use Rattle.model_eval.specs.Publishing.{cancel, subscribe, unsubscribe, count_views, tell_views};
ghost use Rattle.world_state.specs.Objects.{make_known, destroy, persist};
ghost use Rattle.world_state.specs.Answer.{Answers, running};
ghost use Rattle.model_eval.specs.Answer.{Spends};
ghost use Rattle.world_state.specs.declared.state.State.{State};
ghost use Rattle.world_state.specs.declared.state.Budget.{Budget};

use crate::events::{subscribe, unsubscribe, view_count, views};
use crate::here::Here;
use crate::messages::cancel;
use crate::values::{list_of, weigh};
use model_builtin::{Pure, apply};
use model_solved::Builtin;
use model_value::{Value, Values};
use seeded_random::Source64;
use std::alloc::Global;
use tea_base::{SessionId, Text, WantOfMemory};
use world_state::{
    Budget, EvalStop, Fault, State, be_known, destroy, is_held, known_object, persist,
};

/// What a builtin answers that starts no method.
pub fn answer(
    here: &Here<'_>,
    builtin: Builtin,
    args: &Values,
    state: &mut State,
    budget: &mut Budget,
) -> Result<Value, EvalStop>
    ensures { Answers result state.new budget.new
        (run_builtin_alone builtin here.now.object (plain_values args.now) (running state.old budget.old)) }
{
    let alloc = here.starter.alloc;
    let object = here.object;
    match builtin {
        Builtin::Now => now(args.as_slice(), state),
        Builtin::Random => random(args.as_slice(), state),
        Builtin::ViewCount => count_views(args.as_slice(), state),
        Builtin::Views => tell_views(alloc, args.as_slice(), state, budget),
        Builtin::SessionId => session_id(alloc, args.as_slice(), state),
        Builtin::Known => tell_known(args.as_slice(), state),
        Builtin::BeKnown => make_known(args.as_slice(), object, state),
        Builtin::Exists => exists(args.as_slice(), state),
        Builtin::Destroy => take_away(args.as_slice(), state),
        Builtin::Subscribe => make_handler(args.as_slice(), object, state),
        Builtin::Unsubscribe => drop_handler(args.as_slice(), object, state),
        Builtin::Cancel => cancel_calls(args.as_slice(), object, state),
        Builtin::Persist => save(alloc, args.as_slice(), state),
        Builtin::Publish
        | Builtin::Length
        | Builtin::At
        | Builtin::Put
        | Builtin::Push
        | Builtin::Slice
        | Builtin::Concat
        | Builtin::Text
        | Builtin::Number
        | Builtin::Compare => answer_pure(alloc, pure_of(builtin), args, budget),
    }
}

/// The milliseconds since the session's founding.
fn now(args: &[Value], state: &State) -> Result<Value, EvalStop>
    ensures { (budget : Budget) → Answers result state.now budget
        (on_none tell_time (plain_values args.now) (running state.now budget)) }
{
    match args {
        [] => Ok(Value::Int((state.time / 1000).cast_signed())),
        _ => Err(EvalStop::Fault(Fault::BadKind)),
    }
}

/// How many views are here.
fn count_views(args: &[Value], state: &State) -> Result<Value, EvalStop>
    ensures { (budget : Budget) → Answers result state.now budget
        (on_none count_views (plain_values args.now) (running state.now budget)) }
{
    match args {
        [] => Ok(view_count(state.views.as_slice())),
        _ => Err(EvalStop::Fault(Fault::BadKind)),
    }
}

/// The numbers of the views that are here.
fn tell_views(
    alloc: Global,
    args: &[Value],
    state: &State,
    budget: &mut Budget,
) -> Result<Value, EvalStop>
    ensures { Answers result state.now budget.new
        (on_none tell_views (plain_values args.now) (running state.now budget.old)) }
{
    match args {
        [] => list_of(views(alloc, state.views.as_slice())?, budget),
        _ => Err(EvalStop::Fault(Fault::BadKind)),
    }
}

fn random(args: &[Value], state: &mut State) -> Result<Value, EvalStop>
    ensures { (budget : Budget) → Answers result state.new budget
        (on_int draw (plain_values args.now) (running state.old budget)) }
{
    match args {
        [limit] => draw(limit, state),
        _ => Err(EvalStop::Fault(Fault::BadKind)),
    }
}

fn draw(limit: &Value, state: &mut State) -> Result<Value, EvalStop>
    ensures { (budget : Budget) → Answers result state.new budget
        (on_int draw (plain limit.now ∷ []) (running state.old budget)) }
{
    match limit {
        Value::Int(limit) => draw_below(*limit, state),
        _ => Err(EvalStop::Fault(Fault::BadKind)),
    }
}

/// A number below this one, of the world's source.
fn draw_below(limit: i64, state: &mut State) -> Result<Value, EvalStop>
    ensures { (budget : Budget) → Answers result state.new budget (draw limit (running state.old budget)) }
{
    if limit < 1 {
        return Err(EvalStop::Fault(Fault::BadIndex));
    }
    let mut source = Source64::from_state(state.random);
    let number = source.below(limit.cast_unsigned());
    state.random = source.state();
    Ok(Value::Int(number.cast_signed()))
}

fn session_id(alloc: Global, args: &[Value], state: &State) -> Result<Value, EvalStop>
    ensures { (budget : Budget) → Answers result state.now budget
        (on_none tell_id (plain_values args.now) (running state.now budget)) }
{
    match args {
        [] => spelled_id(alloc, state),
        _ => Err(EvalStop::Fault(Fault::BadKind)),
    }
}

fn spelled_id(alloc: Global, state: &State) -> Result<Value, EvalStop>
    ensures { (budget : Budget) → Answers result state.now budget (tell_id (running state.now budget)) }
{
    Ok(Value::Text(session_text(alloc, &state.id)?))
}

/// The id of a session as models see it: its 64 hexadecimal digits, letters in lower case.
pub fn session_text(alloc: Global, id: &SessionId) -> Result<Text, WantOfMemory>
    ensures digits { IfOk result (λ text. text ≡ encode_lower id.now.0) }
    ensures bytes { length id.now.0 ≡ 32 }
{
    digits(alloc, &id.0)
}

/// The bytes of an id in hexadecimal digits.
fn digits(alloc: Global, id: &[u8; 32]) -> Result<Text, WantOfMemory>
    ensures digits { IfOk result (λ text. text ≡ encode_lower id.now) }
    ensures bytes { length id.now ≡ 32 }
{
    let digits = hex::encode(alloc, id)?;
    Text::copy(alloc, digits.as_str())
}

fn tell_known(args: &[Value], state: &State) -> Result<Value, EvalStop>
    ensures { (budget : Budget) → Answers result state.now budget
        (on_text tell_known (plain_values args.now) (running state.now budget)) }
{
    match args {
        [name] => find_known(name, state),
        _ => Err(EvalStop::Fault(Fault::BadKind)),
    }
}

fn find_known(name: &Value, state: &State) -> Result<Value, EvalStop>
    ensures { (budget : Budget) → Answers result state.now budget
        (on_text tell_known (plain name.now ∷ []) (running state.now budget)) }
{
    match name {
        Value::Text(name) => Ok(known_object(&state.known, name)),
        _ => Err(EvalStop::Fault(Fault::BadKind)),
    }
}

fn make_known(args: &[Value], object: u32, state: &mut State) -> Result<Value, EvalStop>
    ensures { (budget : Budget) → Answers result state.new budget
        (on_text (make_known object) (plain_values args.now) (running state.old budget)) }
{
    match args {
        [name] => make_known_by(name, object, state),
        _ => Err(EvalStop::Fault(Fault::BadKind)),
    }
}

fn make_known_by(name: &Value, object: u32, state: &mut State) -> Result<Value, EvalStop>
    ensures { (budget : Budget) → Answers result state.new budget
        (on_text (make_known object) (plain name.now ∷ []) (running state.old budget)) }
{
    match name {
        Value::Text(name) => be_known(name, object, state),
        _ => Err(EvalStop::Fault(Fault::BadKind)),
    }
}

fn exists(args: &[Value], state: &State) -> Result<Value, EvalStop>
    ensures { (budget : Budget) → Answers result state.now budget
        (on_ref tell_held (plain_values args.now) (running state.now budget)) }
{
    match args {
        [object] => is_there(object, state),
        _ => Err(EvalStop::Fault(Fault::BadKind)),
    }
}

fn is_there(object: &Value, state: &State) -> Result<Value, EvalStop>
    ensures { (budget : Budget) → Answers result state.now budget
        (on_ref tell_held (plain object.now ∷ []) (running state.now budget)) }
{
    match object {
        Value::Ref(id) => Ok(Value::Bool(is_held(state, *id))),
        _ => Err(EvalStop::Fault(Fault::BadKind)),
    }
}

fn take_away(args: &[Value], state: &mut State) -> Result<Value, EvalStop>
    ensures { (budget : Budget) → Answers result state.new budget
        (on_ref destroy (plain_values args.now) (running state.old budget)) }
{
    match args {
        [object] => take_away_one(object, state),
        _ => Err(EvalStop::Fault(Fault::BadKind)),
    }
}

fn take_away_one(object: &Value, state: &mut State) -> Result<Value, EvalStop>
    ensures { (budget : Budget) → Answers result state.new budget
        (on_ref destroy (plain object.now ∷ []) (running state.old budget)) }
{
    match object {
        Value::Ref(id) => destroy(state, *id),
        _ => Err(EvalStop::Fault(Fault::BadKind)),
    }
}

fn make_handler(args: &[Value], object: u32, state: &mut State) -> Result<Value, EvalStop>
    ensures { (budget : Budget) → Answers result state.new budget
        (on_texts (subscribe object) (plain_values args.now) (running state.old budget)) }
{
    match args {
        [scope, event, method] => make_handler_of(scope, event, method, object, state),
        _ => Err(EvalStop::Fault(Fault::BadKind)),
    }
}

fn make_handler_of(
    scope: &Value,
    event: &Value,
    method: &Value,
    object: u32,
    state: &mut State,
) -> Result<Value, EvalStop>
    ensures { (budget : Budget) → Answers result state.new budget
        (on_texts (subscribe object) (plain scope.now ∷ plain event.now ∷ plain method.now ∷ [])
        (running state.old budget)) }
{
    match (scope, event, method) {
        (Value::Text(scope), Value::Text(event), Value::Text(method)) => {
            subscribe(scope, event, method, object, state)
        }
        _ => Err(EvalStop::Fault(Fault::BadKind)),
    }
}

fn drop_handler(args: &[Value], object: u32, state: &mut State) -> Result<Value, EvalStop>
    ensures { (budget : Budget) → Answers result state.new budget
        (on_texts (unsubscribe object) (plain_values args.now) (running state.old budget)) }
{
    match args {
        [scope, event, method] => drop_handler_of(scope, event, method, object, state),
        _ => Err(EvalStop::Fault(Fault::BadKind)),
    }
}

fn drop_handler_of(
    scope: &Value,
    event: &Value,
    method: &Value,
    object: u32,
    state: &mut State,
) -> Result<Value, EvalStop>
    ensures { (budget : Budget) → Answers result state.new budget
        (on_texts (unsubscribe object) (plain scope.now ∷ plain event.now ∷ plain method.now ∷ [])
        (running state.old budget)) }
{
    match (scope, event, method) {
        (Value::Text(scope), Value::Text(event), Value::Text(method)) => {
            unsubscribe(scope, event, method, object, state)
        }
        _ => Err(EvalStop::Fault(Fault::BadKind)),
    }
}

fn cancel_calls(args: &[Value], object: u32, state: &mut State) -> Result<Value, EvalStop>
    ensures { (budget : Budget) → Answers result state.new budget
        (on_text (cancel object) (plain_values args.now) (running state.old budget)) }
{
    match args {
        [method] => cancel_calls_of(method, object, state),
        _ => Err(EvalStop::Fault(Fault::BadKind)),
    }
}

fn cancel_calls_of(method: &Value, object: u32, state: &mut State) -> Result<Value, EvalStop>
    ensures { (budget : Budget) → Answers result state.new budget
        (on_text (cancel object) (plain method.now ∷ []) (running state.old budget)) }
{
    match method {
        Value::Text(method) => cancel(object, method, state),
        _ => Err(EvalStop::Fault(Fault::BadKind)),
    }
}

/// Saves the one argument for a later session.
fn save(alloc: Global, args: &[Value], state: &mut State) -> Result<Value, EvalStop>
    ensures { (budget : Budget) → Answers result state.new budget
        (on_any persist (plain_values args.now) (running state.old budget)) }
{
    match args {
        [value] => persist(alloc, state, value),
        _ => Err(EvalStop::Fault(Fault::BadKind)),
    }
}

/// The builtins that need no world.
fn pure_of(builtin: Builtin) -> Option<Pure>
    ensures { result ≡ pure_builtin builtin }
{
    match builtin {
        Builtin::Length => Some(Pure::Length),
        Builtin::At => Some(Pure::At),
        Builtin::Put => Some(Pure::Put),
        Builtin::Push => Some(Pure::Push),
        Builtin::Slice => Some(Pure::Slice),
        Builtin::Concat => Some(Pure::Concat),
        Builtin::Text => Some(Pure::Text),
        Builtin::Number => Some(Pure::Number),
        Builtin::Compare => Some(Pure::Compare),
        _ => None,
    }
}

fn answer_pure(
    alloc: Global,
    builtin: Option<Pure>,
    args: &Values,
    budget: &mut Budget,
) -> Result<Value, EvalStop>
    ensures { Spends result budget.new (λ (state : State).
        pure_outcome builtin (plain_values args.now) (running state budget.old)) }
{
    let Some(builtin) = builtin else {
        return Err(EvalStop::Fault(Fault::BadKind));
    };
    let value = apply(alloc, builtin, args)?;
    if takes_steps(builtin) {
        weigh(value, budget)
    } else {
        Ok(value)
    }
}

/// Whether a builtin takes steps by the weight of its result.
fn takes_steps(builtin: Pure) -> bool
    ensures { result ≡ is_dear builtin }
{
    matches!(
        builtin,
        Pure::Put | Pure::Push | Pure::Slice | Pure::Concat | Pure::Text
    )
}
