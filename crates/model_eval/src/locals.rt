//! The locals of a method, by their slots.
ghost use Rattle.std.specs.Prelude.{◌≡◌, ◌++◌, ◌∷◌, [], OnOk, take, slice_index_or, slice_set};
ghost use Rattle.model_value.specs.Plain.{nil};
ghost use Rattle.model_value.specs.View.{plain, plain_values};
ghost use Rattle.world_state.specs.Running.{value as reply_value};
ghost use Rattle.world_state.specs.Answer.{Replies};

use model_value::Value;
use std::alloc::Global;
use tea_base::WantOfMemory;
use world_state::{EvalStop, copy_value};

/// What a method runs on: its locals, and the value with which it ends, once it returns.
#[derive(Drop)]
pub struct Frame {
    pub locals: Vec<Value>,
    pub returned: Value,
}

impl Frame {
    /// That of a method that begins with these locals.
    pub fn new(locals: Vec<Value>) -> Frame
        ensures { result.locals ≡ locals }
    {
        Frame {
            locals,
            returned: Value::Nil,
        }
    }
}

/// A copy of what a local holds.
#[inline(always)]
pub fn get_local(alloc: Global, locals: &[Value], slot: usize) -> Result<Value, EvalStop>
    ensures { Replies result (reply_value (slice_index_or (plain_values locals.now) slot nil)) }
{
    match locals.get(slot) {
        Some(value) => copy_value(alloc, value),
        None => Ok(Value::Nil),
    }
}

/// One more local, behind those of the slots below.
#[tactic(auto, using(crate::proofs::Steps::by_local))]
pub fn declare(locals: &mut Vec<Value>, slot: usize, value: Value) -> Result<(), WantOfMemory>
    ensures { OnOk result (plain_values locals.new.items ≡ take slot (plain_values locals.old.items) ++ plain value
        ∷ []) }
{
    locals.truncate(slot);
    locals.push(value)?;
    Ok(())
}

/// A local holds another value.
#[tactic(auto, using(crate::proofs::Steps::by_assignment))]
pub fn assign(locals: &mut Vec<Value>, slot: usize, value: Value)
    ensures { plain_values locals.new.items ≡ slice_set (plain_values locals.old.items) slot (plain value) }
{
    if slot < locals.len() {
        locals[slot] = value;
    }
}

/// Behind a block the locals are those that were there before it.
#[inline(always)]
#[tactic(auto, using(crate::proofs::Steps::by_local))]
pub fn leave(locals: &mut Vec<Value>, before: usize)
    ensures { plain_values locals.new.items ≡ take before (plain_values locals.old.items) }
{
    if locals.len() > before {
        locals.truncate(before);
    }
}
