//! Copies of values.
ghost use Rattle.model_value.specs.View.{plain};
ghost use Rattle.world_state.specs.Running.{value as value_reply};
ghost use Rattle.world_state.specs.Answer.{Replies};

use crate::fault::EvalStop;
use model_value::{Value, copy};
use std::alloc::Global;

/// A copy of a value. That of a number takes no call.
#[inline(always)]
pub fn copy_value(alloc: Global, value: &Value) -> Result<Value, EvalStop>
    ensures { Replies result (value_reply (plain value.now)) }
{
    match value {
        Value::Int(number) => Ok(Value::Int(*number)),
        _ => copy_whole_value(alloc, value),
    }
}

#[inline(always)]
fn copy_whole_value(alloc: Global, value: &Value) -> Result<Value, EvalStop>
    ensures { Replies result (value_reply (plain value.now)) }
{
    Ok(copy(alloc, value)?)
}
