//! Which values can be saved.
ghost use Rattle.std.specs.Prelude.{◌≡◌, ◌↔◌, IsTrue};
ghost use Rattle.model_value.specs.View.{plain, plains};
ghost use Rattle.saved_value.specs.Saving.{has_ref, one_has_ref, CanBeSaved};

use model_value::{Value, in_bounds};

/// Whether there is an object in a value, at any depth.
#[cycle(holds_ref)]
pub fn holds_ref(value: &Value) -> bool
    ensures { result ≡ has_ref (plain value.now) }
{
    match value {
        Value::Ref(_) => true,
        Value::List(items) => one_holds_ref(items),
        Value::Nil | Value::Bool(_) | Value::Int(_) | Value::Text(_) => false,
    }
}

#[cycle(holds_ref)]
fn one_holds_ref(items: &[Value]) -> bool
    ensures { result ≡ one_has_ref (plains items.now) }
{
    for item in items {
        if holds_ref(item) {
            return true;
        }
    }
    false
}

/// Whether a value can be saved: it is in bounds, and there is no object in it. Any value may be asked about.
pub fn can_be_saved(value: &Value) -> bool
    ensures { IsTrue result ↔ CanBeSaved (plain value.now) }
{
    in_bounds(value) && !holds_ref(value)
}
