//! Values, read from their texts and printed again.
ghost use Rattle.model_value.specs.Plain.{InBounds};
ghost use Rattle.model_value.specs.View.{plain};

use model_value::{Value, ValueFault, encode};
use std::alloc::Global;
use tea_base::WantOfMemory;
use value_text::{print_and_read, push_value, read_value};

/// The bytes of a value, and its text.
fn value_line(alloc: Global, value: &Value) -> Result<String, WantOfMemory>
    requires { InBounds (plain value.now) }
{
    let mut out = hex::encode(alloc, encode(alloc, value)?.bytes())?;
    out.push(' ')?;
    push_value(&mut out, value)?;
    Ok(out)
}

/// The same of the value that has this text, once it was printed and read again.
fn value_read(alloc: Global, text: &[u8]) -> Result<String, ValueFault> {
    let value = read_value(alloc, text)?;
    let again = print_and_read(alloc, &value)?;
    Ok(value_line(alloc, &again)?)
}

/// The bytes of the value that has this text, and its text; or that the text is bad.
pub(crate) fn text_read(alloc: Global, text: &[u8]) -> Result<String, WantOfMemory> {
    match value_read(alloc, text) {
        Ok(told) => Ok(told),
        Err(ValueFault::BadValue) => Ok(String::from_str(alloc, "bad")?),
        Err(ValueFault::WantOfMemory) => Err(WantOfMemory),
    }
}
