//! Numbers and other values as texts, numbers of texts, and order.
ghost use Rattle.std.specs.Prelude.{◌≡◌, IfOk};
ghost use Rattle.std.specs.Fmt.{signed_decimal};
ghost use Rattle.model_value.specs.View.{plain};
ghost use Rattle.model_builtin.specs.Answer.{Applies};
ghost use Rattle.model_builtin.specs.Builtins.{value, text_of_value, read_number as read_number_of, int_or_nil, read_decimal, sign_of, compare as compare_of};

use crate::fault::BuiltinStop;
use crate::texts::characters;
use model_value::Value;
use std::alloc::Global;
use std::cmp::Ordering;
use tea_base::{Text, WantOfMemory};

/// The value as a text: a number in decimal, `nil`, `true` and `false` as these words, and a text as it is.
pub fn text(alloc: Global, x: &Value) -> Result<Value, BuiltinStop>
    ensures { Applies result (text_of_value (plain x.now)) }
{
    match x {
        Value::Nil => Ok(Value::Text(Text::copy(alloc, "nil")?)),
        Value::Bool(true) => Ok(Value::Text(Text::copy(alloc, "true")?)),
        Value::Bool(false) => Ok(Value::Text(Text::copy(alloc, "false")?)),
        Value::Int(number) => Ok(Value::Text(decimal(alloc, *number)?)),
        Value::Text(text) => Ok(Value::Text(text.try_clone()?)),
        Value::Ref(_) | Value::List(_) => Err(BuiltinStop::BadKind),
    }
}

/// A number in decimal.
fn decimal(alloc: Global, number: i64) -> Result<Text, WantOfMemory>
    ensures { IfOk result (λ text. text ≡ signed_decimal number) }
{
    Text::copy(alloc, number.to_string(alloc)?.as_str())
}

/// The number whose decimal spelling a text is, or Nil.
pub fn read_number(alloc: Global, x: &Value) -> Result<Value, BuiltinStop>
    ensures { Applies result (read_number_of (plain x.now)) }
{
    match x {
        Value::Text(text) => number_or_nil(alloc, text),
        _ => Err(BuiltinStop::BadKind),
    }
}

fn number_or_nil(alloc: Global, text: &Text) -> Result<Value, BuiltinStop>
    ensures { Applies result (value (int_or_nil (read_decimal text.now))) }
{
    let Ok(number) = characters(text).parse::<i64>() else {
        return Ok(Value::Nil);
    };
    // A sign or zeros may stand before the digits that `parse` reads, and not in a number's own spelling.
    if !decimal(alloc, number)?.is_text(text) {
        return Ok(Value::Nil);
    }
    Ok(Value::Int(number))
}

/// -1, 0 or 1, where the first stands before the second, is the same, or stands behind it.
pub fn compare(x: &Value, y: &Value) -> Result<Value, BuiltinStop>
    ensures { Applies result (compare_of (plain x.now) (plain y.now)) }
{
    match (x, y) {
        (Value::Int(a), Value::Int(b)) => Ok(Value::Int(sign(a.cmp(b)))),
        (Value::Text(a), Value::Text(b)) => { Ok(Value::Int(sign(a.order(b)))) }
        _ => Err(BuiltinStop::BadKind),
    }
}

fn sign(order: Ordering) -> i64
    ensures { result ≡ sign_of order }
{
    match order {
        Ordering::Less => -1,
        Ordering::Equal => 0,
        Ordering::Greater => 1,
    }
}
