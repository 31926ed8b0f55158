//! Values that a form makes.
ghost use Rattle.std.specs.Prelude.{◌≡◌, ◌∷◌, [], IfOk, ◌<◌, ◌^◌};
ghost use Rattle.model_value.specs.Plain.{text as text_value, list, weight as weight_of};
ghost use Rattle.model_value.specs.View.{plain, plain_values, plains_of};
ghost use Rattle.world_state.specs.Running.{give_in_bounds, give_by_weight, spend, value as value_reply, Gives};
ghost use Rattle.world_state.specs.Answer.{Answers, Replies, running};
ghost use Rattle.model_eval.specs.Answer.{Spends};
ghost use Rattle.world_state.specs.declared.state.State.{State};
ghost use Rattle.world_state.specs.declared.state.Budget.{Budget};

use model_value::{Value, Values, in_bounds, weight};
use std::alloc::Global;
use tea_base::{List, Text, WantOfMemory};
use world_state::{Budget, EvalStop, Fault};

/// The value of a text literal. Gives the fault Size where it is not in bounds.
pub fn literal(text: &Text) -> Result<Value, EvalStop>
    ensures { (state : State) (budget : Budget)
        → Answers result state budget (give_in_bounds (text_value text.now) (running state budget)) }
{
    let value = Value::Text(text.try_clone()?);
    if in_bounds(&value) {
        Ok(value)
    } else {
        Err(EvalStop::Fault(Fault::Size))
    }
}

/// A list of values. Gives the fault Size where it is not in bounds, and takes steps by its weight.
pub fn list_of(values: Values, budget: &mut Budget) -> Result<Value, EvalStop>
    ensures { Spends result budget.new (λ (state : State).
        give_by_weight (list (plains_of (plain_values values))) (running state budget.old)) }
{
    let value = Value::List(values.into_vec());
    if !in_bounds(&value) {
        return Err(EvalStop::Fault(Fault::Size));
    }
    weigh(value, budget)
}

/// A value that takes steps by its weight. Gives the fault Fuel, and takes none, where fewer are left.
pub fn weigh(value: Value, budget: &mut Budget) -> Result<Value, EvalStop>
    requires { weight_of (plain value) < 2 ^ 32 }
    ensures { Spends result budget.new (λ (state : State).
        spend (weight_of (plain value)) (running state budget.old) (Gives (plain value))) }
{
    let steps = weight(&value);
    if budget.fuel < steps {
        return Err(EvalStop::Fault(Fault::Fuel));
    }
    budget.fuel -= steps;
    Ok(value)
}

/// A list of one value.
pub fn only(alloc: Global, value: Value) -> Result<Values, WantOfMemory>
    ensures { IfOk result (λ values. plain_values values ≡ plain value ∷ []) }
{
    let mut values = List::new(alloc);
    values.push(value)?;
    Ok(values)
}
