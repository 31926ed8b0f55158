//! Values read from JSON.
ghost use Rattle.std.specs.Prelude.{◌≡◌, true, false, Some, None, Err, IfOk, IsUtf8};
ghost use Rattle.serde_json.specs.Read.{read as read_text};
ghost use Rattle.serde_json.specs.View.{view, items_view};
ghost use Rattle.model_value.specs.Plain.{PlainValue};
ghost use Rattle.model_value.specs.View.{plain, plains};
ghost use Rattle.persist_json.specs.JsonOf.{IsJsonOf};
ghost use Rattle.persist_json.specs.ReadAs.{IsReadAs, AreReadAs, has_value, have_values};

use crate::fault::JsonFault;
use model_value::{Value, in_bounds};
use serde_json::Value as Json;
use std::alloc::Global;
use tea_base::Text;

/// The value that can be saved of which the bytes are JSON, if they are of one.
pub fn from_json(alloc: Global, text: &[u8]) -> Result<Value, JsonFault>
    ensures read { IfOk result (λ value. IsJsonOf text.now (plain value)) }
    ensures bad { result ≡ Err JsonFault.BadJson → (value : PlainValue) → ¬ IsJsonOf text.now value }
    ensures only { (value : PlainValue) → IsJsonOf text.now value → IfOk result (λ read. plain read ≡ value) }
{
    let data = parse(alloc, text)?;
    let value = value_of(alloc, &data)?;
    if !in_bounds(&value) {
        return Err(JsonFault::BadJson);
    }
    Ok(value)
}

/// The data of which the bytes are JSON.
fn parse(alloc: Global, text: &[u8]) -> Result<Json, JsonFault>
    ensures utf8 { IfOk result (λ _. IsUtf8 text.now) }
    ensures read { IfOk result (λ read. read_text text.now ≡ Some (view read)) }
    ensures bad { result ≡ Err JsonFault.BadJson → IsUtf8 text.now → read_text text.now ≡ None }
{
    match Json::from_slice(alloc, text) {
        Ok(data) => Ok(data),
        Err(error) => {
            if error.is_memory() {
                Err(JsonFault::WantOfMemory)
            } else {
                Err(JsonFault::BadJson)
            }
        }
    }
}

/// The value without objects whose data this is, if there is one.
#[cycle(value_of)]
fn value_of(alloc: Global, json: &Json) -> Result<Value, JsonFault>
    ensures read { IfOk result (λ value. IsReadAs (view json.now) (plain value)) }
    ensures bad { result ≡ Err JsonFault.BadJson → has_value (view json.now) ≡ false }
{
    match json {
        Json::Null => Ok(Value::Nil),
        Json::Bool(flag) => Ok(Value::Bool(*flag)),
        Json::Number(number) => match number.as_i64() {
            Some(number) => Ok(Value::Int(number)),
            None => Err(JsonFault::BadJson),
        },
        Json::String(text) => Ok(Value::Text(Text::copy(alloc, text.as_str())?)),
        Json::Array(items) => Ok(Value::List(values_of(alloc, items)?)),
        Json::Object(_) => Err(JsonFault::BadJson),
    }
}

#[cycle(value_of)]
fn values_of(alloc: Global, items: &[Json]) -> Result<Vec<Value>, JsonFault>
    ensures read { IfOk result (λ values. AreReadAs (items_view items.now) (plains values.items)) }
    ensures bad { result ≡ Err JsonFault.BadJson → have_values (items_view items.now) ≡ false }
{
    let mut values = Vec::new(alloc);
    for item in items {
        let value = value_of(alloc, item)?;
        tea_base::push(&mut values, value)?;
    }
    Ok(values)
}
