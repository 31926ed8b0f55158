//! Values as trees, their copy and their comparison.
ghost use Rattle.std.specs.Prelude.{◌≡◌, ◌↔◌, IsTrue, IfOk, replicate};
ghost use Rattle.model_value.specs.Plain.{nil};
ghost use Rattle.model_value.specs.View.{plain, plains, plain_values};

use std::alloc::Global;
use tea_base::{List, Text, WantOfMemory};

/// A value of the modelling language: a tree whose branches are its lists.
///
/// A value in memory has more than the tree (where its parts lie), so contracts compare the plain trees that values
/// stand for. A value that a model holds has a weight of at most [`MOST_WEIGHT`](crate::MOST_WEIGHT) and a depth of at
/// most [`MOST_DEPTH`](crate::MOST_DEPTH), which [`in_bounds`](crate::in_bounds) tells; the type itself has no bound.
#[derive(Drop)]
pub enum Value {
    /// No value.
    Nil,
    Bool(bool),
    /// A whole number from -2^63 to 2^63 - 1.
    Int(i64),
    Text(Text),
    /// The object with this number.
    Ref(u32),
    /// Values in order.
    List(Vec<Value>),
}

/// Values in order, as the arguments of a message.
pub type Values = List<Value>;

/// Nil, so many times.
pub fn nils(alloc: Global, count: usize) -> Result<Values, WantOfMemory>
    ensures { IfOk result (λ values. plain_values values ≡ replicate count nil) }
{
    let mut values = List::new(alloc);
    for _index in 0..count {
        values.push(Value::Nil)?;
    }
    Ok(values)
}

/// The same value in memory of its own.
#[cycle(copy)]
pub fn copy(alloc: Global, value: &Value) -> Result<Value, WantOfMemory>
    ensures { IfOk result (λ new. plain new ≡ plain value.now) }
{
    match value {
        Value::Nil => Ok(Value::Nil),
        Value::Bool(flag) => Ok(Value::Bool(*flag)),
        Value::Int(number) => Ok(Value::Int(*number)),
        Value::Text(text) => Ok(Value::Text(text.clone()?)),
        Value::Ref(object) => Ok(Value::Ref(*object)),
        Value::List(items) => Ok(Value::List(copy_all(alloc, items)?)),
    }
}

/// The same values in memory of their own.
#[cycle(copy)]
pub fn copy_all(alloc: Global, items: &[Value]) -> Result<Vec<Value>, WantOfMemory>
    ensures { IfOk result (λ new. plain_values new.items ≡ plain_values items.now) }
{
    let mut copies = Vec::with_capacity(alloc, items.len())?;
    for item in items {
        copies.push(copy(alloc, item)?)?;
    }
    Ok(copies)
}

/// The same values.
pub fn copy_values(alloc: Global, values: &Values) -> Result<Values, WantOfMemory>
    ensures { IfOk result (λ new. plain_values new ≡ plain_values values.now) }
{
    Ok(List::from_vec(copy_all(alloc, values.as_slice())?))
}

/// Whether two values are the same: of one kind, and with the same flag, number, text, object or items.
#[cycle(same)]
pub fn same(a: &Value, b: &Value) -> bool
    ensures { IsTrue result ↔ plain a.now ≡ plain b.now }
{
    match (a, b) {
        (Value::Nil, Value::Nil) => true,
        (Value::Bool(x), Value::Bool(y)) => *x == *y,
        (Value::Int(x), Value::Int(y)) => *x == *y,
        (Value::Text(x), Value::Text(y)) => x.is_text(y),
        (Value::Ref(x), Value::Ref(y)) => *x == *y,
        (Value::List(x), Value::List(y)) => same_all(x, y),
        _ => false,
    }
}

#[cycle(same)]
#[tactic(auto, using(crate::proofs::Lengths::by_length))]
fn same_all(a: &[Value], b: &[Value]) -> bool
    ensures { IsTrue result ↔ plains a.now ≡ plains b.now }
{
    if a.len() != b.len() {
        return false;
    }
    for i in 0..a.len() {
        if !same(&a[i], &b[i]) {
            return false;
        }
    }
    true
}
