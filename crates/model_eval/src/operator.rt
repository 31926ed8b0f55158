//! Operators and kinds: what needs no world.
ghost use Rattle.std.specs.Prelude.{◌≡◌, MatchOption, Ok, Err};
ghost use Rattle.model_value.specs.Plain.{int};
ghost use Rattle.model_value.specs.View.{plain};
ghost use Rattle.world_state.specs.Running.{truth as truth_of};
ghost use Rattle.model_eval.specs.Operators.{apply_binary, apply_unary, same as are_same};
ghost use Rattle.model_eval.specs.Answer.{AreInts, Decides};
ghost use Rattle.world_state.specs.Answer.{Replies};

use model_tree::{BinaryOp, UnaryOp};
use model_value::{Value, same};
use world_state::{EvalStop, Fault};

/// What an operator gives of one value.
pub fn operate_on_one(op: UnaryOp, value: &Value) -> Result<Value, EvalStop>
    ensures { Replies result (apply_unary op (plain value.now)) }
{
    match (op, value) {
        (UnaryOp::Minus, Value::Int(number)) => int_or_overflow(number.checked_neg()),
        (UnaryOp::Not, Value::Bool(truth)) => Ok(Value::Bool(!*truth)),
        _ => Err(EvalStop::Fault(Fault::BadKind)),
    }
}

/// What an operator gives of two values; `||` and `&&`, which may leave their right side alone, stand apart.
#[inline(always)]
pub fn operate(op: BinaryOp, left: Value, right: Value) -> Result<Value, EvalStop>
    ensures { Replies result (apply_binary op (plain left) (plain right)) }
{
    match (left, right) {
        (Value::Int(left), Value::Int(right)) => operate_on_ints(op, left, right),
        (left, right) => operate_on_any(op, left, right),
    }
}

#[inline(always)]
fn operate_on_any(op: BinaryOp, left: Value, right: Value) -> Result<Value, EvalStop>
    ensures { Replies result (apply_binary op (plain left) (plain right)) }
{
    operate_on_kinds(op, &left, &right)
}

#[inline(never)]
fn operate_on_kinds(op: BinaryOp, left: &Value, right: &Value) -> Result<Value, EvalStop>
    ensures { Replies result (apply_binary op (plain left.now) (plain right.now)) }
{
    match op {
        BinaryOp::Same => Ok(Value::Bool(are_equal(left, right))),
        BinaryOp::Differs => Ok(Value::Bool(!are_equal(left, right))),
        _ => {
            let (left, right) = ints(left, right)?;
            operate_on_ints(op, left, right)
        }
    }
}

fn are_equal(left: &Value, right: &Value) -> bool
    ensures { result ≡ are_same (plain left.now) (plain right.now) }
{
    same(left, right)
}

fn ints(left: &Value, right: &Value) -> Result<(i64, i64), EvalStop>
    ensures { AreInts result (plain left.now) (plain right.now) }
{
    match (left, right) {
        (Value::Int(left), Value::Int(right)) => Ok((*left, *right)),
        _ => Err(EvalStop::Fault(Fault::BadKind)),
    }
}

/// What an operator gives of two Ints.
#[inline(always)]
pub fn operate_on_ints(op: BinaryOp, left: i64, right: i64) -> Result<Value, EvalStop>
    ensures { Replies result (apply_binary op (int left) (int right)) }
{
    match op {
        BinaryOp::Or | BinaryOp::And => Err(EvalStop::Fault(Fault::BadKind)),
        BinaryOp::Same => Ok(Value::Bool(left == right)),
        BinaryOp::Differs => Ok(Value::Bool(left != right)),
        BinaryOp::Less => Ok(Value::Bool(left < right)),
        BinaryOp::AtMost => Ok(Value::Bool(left <= right)),
        BinaryOp::Greater => Ok(Value::Bool(left > right)),
        BinaryOp::AtLeast => Ok(Value::Bool(left >= right)),
        BinaryOp::Plus => int_or_overflow(left.checked_add(right)),
        BinaryOp::Minus => int_or_overflow(left.checked_sub(right)),
        BinaryOp::Times => int_or_overflow(left.checked_mul(right)),
        BinaryOp::Divide => quotient(left, right),
        BinaryOp::Rest => rest(left, right),
    }
}

/// The quotient, cut towards zero.
fn quotient(left: i64, right: i64) -> Result<Value, EvalStop>
    ensures { Replies result (apply_binary BinaryOp.Divide (int left) (int right)) }
{
    if right == 0 {
        return Err(EvalStop::Fault(Fault::ZeroDivisor));
    }
    int_or_overflow(left.checked_div(right))
}

/// The remainder, with the sign of the left number. Where the quotient does not fit there is none.
fn rest(left: i64, right: i64) -> Result<Value, EvalStop>
    ensures { Replies result (apply_binary BinaryOp.Rest (int left) (int right)) }
{
    if right == 0 {
        return Err(EvalStop::Fault(Fault::ZeroDivisor));
    }
    int_or_overflow(left.checked_rem(right))
}

/// Which way a test decides.
pub fn truth(value: &Value) -> Result<bool, EvalStop>
    ensures { Decides result (truth_of (plain value.now)) }
{
    match value {
        Value::Bool(flag) => Ok(*flag),
        _ => Err(EvalStop::Fault(Fault::BadKind)),
    }
}

/// A number that fits, or the fault.
fn int_or_overflow(number: Option<i64>) -> Result<Value, EvalStop>
    ensures { MatchOption number (result ≡ Err (EvalStop.Fault Fault.Overflow)) (λ n. result ≡ Ok (Value.Int n)) }
{
    match number {
        Some(number) => Ok(Value::Int(number)),
        None => Err(EvalStop::Fault(Fault::Overflow)),
    }
}
