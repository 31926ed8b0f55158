//! Values written as JSON.
ghost use Rattle.std.specs.Prelude.{◌≡◌, ◌≤◌, false, true, length, IfOk, encode_utf8_all};
ghost use Rattle.std.specs.Str.{all_scalars};
ghost use Rattle.serde_json.specs.Data.{string};
ghost use Rattle.serde_json.specs.View.{view, items_view};
ghost use Rattle.serde_json.specs.Written.{compact_text};
ghost use Rattle.model_value.specs.Spelling.{IsValue, AreValues};
ghost use Rattle.model_value.specs.View.{plain, plains};
ghost use Rattle.saved_value.specs.Saving.{CanBeSaved, has_ref, one_has_ref};
ghost use Rattle.persist_json.specs.JsonOf.{data_of, items_data, IsJsonOf, most_json};

use model_value::Value;
use serde_json::Value as Json;
use std::alloc::Global;
use tea_base::{Blob, Text, WantOfMemory};

/// The most bytes of a file of JSON.
pub const MOST_JSON: usize = 1_048_576;

/// A value that can be saved as JSON, without blanks. Fails only where it is out of memory.
///
/// Nil is `null`, a Bool `true` or `false`, an Int a number, a Text a string, and a List an array.
#[tactic(auto, using(crate::proofs::Sizes::by_size))]
pub fn to_json(alloc: Global, value: &Value) -> Result<Blob, WantOfMemory>
    requires { CanBeSaved (plain value.now) }
    ensures text { IfOk result (λ bytes. bytes ≡ compact_text (data_of (plain value.now))) }
    ensures json { IfOk result (λ bytes. IsJsonOf bytes (plain value.now)) }
    ensures short { IfOk result (λ bytes. length bytes ≤ most_json) }
{
    let data = data(alloc, value)?;
    let text = data.to_vec(alloc)?;
    Ok(Blob::from_vec(text))
}

/// The data of a value that has no objects.
#[cycle(data)]
fn data(alloc: Global, value: &Value) -> Result<Json, WantOfMemory>
    requires { has_ref (plain value.now) ≡ false }
    ensures data { IfOk result (λ made. view made ≡ data_of (plain value.now)) }
    ensures value { IfOk result (λ _. IsValue (plain value.now)) }
{
    match value {
        Value::Nil => Ok(Json::Null),
        Value::Bool(flag) => Ok(Json::Bool(*flag)),
        Value::Int(number) => Ok(Json::from(*number)),
        Value::Text(text) => text_data(alloc, text),
        Value::Ref(_) => Ok(Json::Null),
        Value::List(items) => Ok(Json::from(items_made(alloc, items)?)),
    }
}

#[cycle(data)]
#[tactic(auto, using(crate::proofs::Items::by_items))]
fn items_made(alloc: Global, items: &[Value]) -> Result<Vec<Json>, WantOfMemory>
    requires { one_has_ref (plains items.now) ≡ false }
    ensures data { IfOk result (λ made. items_view made.items ≡ items_data (plains items.now)) }
    ensures value { IfOk result (λ _. AreValues (plains items.now)) }
{
    let mut made = Vec::with_capacity(alloc, items.len())?;
    for item in items {
        made.push(data(alloc, item)?)?;
    }
    Ok(made)
}

fn text_data(alloc: Global, text: &Text) -> Result<Json, WantOfMemory>
    ensures data { IfOk result (λ made. view made ≡ string (encode_utf8_all text.now)) }
    ensures scalars { IfOk result (λ _. all_scalars text.now ≡ true) }
{
    let text = text.as_str();
    Ok(Json::try_from_str(alloc, text)?)
}
