//! What is printed is read.
ghost use Rattle.std.specs.Prelude.{◌≡◌, ℕ, List, Some, IfErr, IfOk};
ghost use Rattle.model_value.specs.Plain.{PlainValue, InBounds};
ghost use Rattle.model_value.specs.Spelling.{IsValue};
ghost use Rattle.model_value.specs.View.{plain};
ghost use Rattle.value_text.specs.Reading.{value_of_text};
ghost use Rattle.value_text.specs.ValueText.{value_text};

use crate::printing::print_value;
use crate::reading::read_value;
use model_value::{Value, ValueFault};
use std::alloc::Global;

/// A value in bounds is read from its text, and from no other.
pub fn texts_are_read()
    ensures again { (value : PlainValue) → IsValue value → InBounds value
        → value_of_text (value_text value) ≡ Some value }
    ensures only { (text : List ℕ) (value : PlainValue) → value_of_text text ≡ Some value → IsValue value
        × InBounds value × (text ≡ value_text value) }
{}

/// A value in bounds, printed and read again. Fails for want of memory alone.
pub fn print_and_read(alloc: Global, value: &Value) -> Result<Value, ValueFault>
    requires { InBounds (plain value.now) }
    ensures same { IfOk result (λ read. plain read ≡ plain value.now) }
    ensures want { IfErr result (λ fault. fault ≡ ValueFault.WantOfMemory) }
{
    let text = print_value(alloc, value)?;
    read_value(alloc, text.bytes())
}
