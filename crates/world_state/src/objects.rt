//! The objects of a world: their fields, how one is made and taken away.
ghost use Rattle.std.specs.Prelude.{◌≡◌, ◌+◌, ◌≤◌, nat_le};
ghost use Rattle.model_value.specs.View.{plain, plain_values};
ghost use Rattle.world_plain.specs.Valid.{object_at};
ghost use Rattle.model_value.specs.Plain.{weight as weight_of, values_weight};
ghost use Rattle.world_plain.specs.World.{world_weight, most_world_weight};
ghost use Rattle.world_state.specs.declared.state.Budget.{Budget};
ghost use Rattle.world_state.specs.Objects.{destroy, is_held as held, make_object, put_fields, without_object, slot_value, set_slot as slot_set};
ghost use Rattle.world_state.specs.Running.{with_world};
ghost use Rattle.world_state.specs.Answer.{Answers, Did, MissesField, Numbers, Replies, running, world_of};

use crate::fault::{EvalStop, Fault};
use crate::state::State;
use crate::values::copy_value;
use model_value::{Value, Values, nils, weight};
use std::alloc::Global;
use world_plain::{MOST_WORLD_WEIGHT, object_fits, value_fits};

/// A copy of what an object's field holds. Gives the fault NoObject where the object is gone.
#[inline(always)]
pub fn get_slot(alloc: Global, state: &State, object: u32, slot: u32) -> Result<Value, EvalStop>
    ensures { Replies result (slot_value (object_at state.now.objects.objects object) slot) }
{
    match state.objects.field(object, slot) {
        Some(value) => copy_value(alloc, value),
        None => absent(state, object),
    }
}

/// What a field that is not there holds: nothing, or the object is gone.
fn absent(state: &State, object: u32) -> Result<Value, EvalStop>
    ensures { MissesField result (object_at state.now.objects.objects object) }
{
    if state.objects.holds(object) {
        Ok(Value::Nil)
    } else {
        Err(EvalStop::Fault(Fault::NoObject))
    }
}

/// Puts a value into an object's field. Gives the fault NoObject where the object is gone, and Full, with the world as
/// it was, where the world would become too heavy.
pub fn set_slot(state: &mut State, object: u32, slot: u32, value: Value) -> Result<(), EvalStop>
    ensures { (budget : Budget) → Did result state.new budget
        (slot_set object slot (plain value) (running state.old budget)) }
{
    match state.objects.field(object, slot) {
        None => keep_fields(state, object),
        Some(held) => {
            if !has_room_in_place(state, held, &value) {
                return Err(EvalStop::Fault(Fault::Full));
            }
            state.objects.set(object, slot, value);
            Ok(())
        }
    }
}

/// An object keeps the fields that it has: a field that is not there holds nothing.
fn keep_fields(state: &State, object: u32) -> Result<(), EvalStop>
    ensures { (budget : Budget) → let r = running state.now budget in
        Did result state.now budget (put_fields (object_at r.world.objects object) object (λ fields. fields) r) }
{
    if !state.objects.holds(object) {
        return Err(EvalStop::Fault(Fault::NoObject));
    }
    if state.room().is_none() {
        return Err(EvalStop::Fault(Fault::Full));
    }
    Ok(())
}

/// Whether the world is light enough with a value in the place of another.
fn has_room_in_place(state: &State, held: &Value, value: &Value) -> bool
    requires light { weight_of (plain held.now) ≤ most_world_weight }
    ensures { result ≡ nat_le (world_weight (world_of state.now) + weight_of (plain value.now))
        (most_world_weight + weight_of (plain held.now)) }
{
    match (held, value) {
        // They weigh the same.
        (Value::Int(_), Value::Int(_)) => state.room().is_some(),
        _ => fits_in_place(state, held, value),
    }
}

fn fits_in_place(state: &State, held: &Value, value: &Value) -> bool
    requires light { weight_of (plain held.now) ≤ most_world_weight }
    ensures { result ≡ nat_le (world_weight (world_of state.now) + weight_of (plain value.now))
        (most_world_weight + weight_of (plain held.now)) }
{
    match state.room_behind(MOST_WORLD_WEIGHT + weight(held)) {
        None => false,
        Some(left) => value_fits(left, value),
    }
}

/// Whether an object is there.
pub fn is_held(state: &State, id: u32) -> bool
    ensures { result ≡ held id (world_of state.now) }
{
    state.objects.holds(id)
}

/// Makes an object of a class, with so many fields, all nil, and answers its id. Gives the fault Full, with the world as it was,
/// where 4,096 objects are held, ids are spent, or the world would become too heavy.
pub fn make(alloc: Global, state: &mut State, class: u16, fields: u32) -> Result<u32, EvalStop>
    ensures { (budget : Budget) → Numbers result state.new budget
        (make_object class fields (running state.old budget)) }
{
    let fields = nils(alloc, fields as usize)?;
    if !has_room(state, &fields) {
        return Err(EvalStop::Fault(Fault::Full));
    }
    Ok(state.objects.create(class, fields)?)
}

/// Whether the world is light enough with one more object.
fn has_room(state: &State, fields: &Values) -> bool
    ensures { result ≡ nat_le (world_weight (world_of state.now) + (2 + values_weight (plain_values fields.now)))
        most_world_weight }
{
    match state.room() {
        None => false,
        Some(left) => object_fits(left, fields),
    }
}

/// Takes away an object, its subscriptions, its pending messages and the names by which it is known. Gives the fault NoObject
/// where it is gone.
pub fn destroy(state: &mut State, id: u32) -> Result<Value, EvalStop>
    ensures { (budget : Budget) → Answers result state.new budget (destroy id (running state.old budget)) }
{
    if !is_held(state, id) {
        return Err(EvalStop::Fault(Fault::NoObject));
    }
    take_away(state, id);
    Ok(Value::Nil)
}

fn take_away(state: &mut State, id: u32)
    ensures { (budget : Budget) → running state.new budget
        ≡ with_world (running state.old budget) (without_object id (world_of state.old)) }
{
    state.objects.destroy(id);
    state.topics.drop_object(id);
    state.pending.drop_object(id);
    state.known.drop_object(id);
}
