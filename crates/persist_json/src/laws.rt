//! What is written is read, and is of one value.
ghost use Rattle.std.specs.Prelude.{◌≡◌, false, IfOk, IfErr};
ghost use Rattle.model_value.specs.Plain.{PlainValue};
ghost use Rattle.model_value.specs.Spelling.{IsValue};
ghost use Rattle.model_value.specs.View.{plain};
ghost use Rattle.saved_value.specs.Saving.{CanBeSaved, has_ref};
ghost use Rattle.persist_json.specs.JsonOf.{data_of};

use crate::fault::JsonFault;
use crate::reading::from_json;
use crate::writing::to_json;
use model_value::Value;
use std::alloc::Global;

/// No two values without objects have the same data.
pub fn data_is_of_one_value()
    ensures { (v w : PlainValue) → IsValue v → IsValue w → has_ref v ≡ false → has_ref w ≡ false → data_of v ≡ data_of w
        → v ≡ w }
{}

/// A value that can be saved, written and read again. Fails only where it is out of memory.
pub fn write_and_read(alloc: Global, value: &Value) -> Result<Value, JsonFault>
    requires { CanBeSaved (plain value.now) }
    ensures same { IfOk result (λ read. plain read ≡ plain value.now) }
    ensures want { IfErr result (λ fault. fault ≡ JsonFault.WantOfMemory) }
{
    let text = to_json(alloc, value)?;
    from_json(alloc, text.bytes())
}
