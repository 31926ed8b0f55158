//! What is written is read.
ghost use Rattle.std.specs.Prelude.{◌≡◌, ◌<◌, ◌^◌, IfErr, IfOk, Some, length, encode_utf8_all};
ghost use Rattle.byte_fields.specs.Fields.{whole};
ghost use Rattle.model_value.specs.Payload.{PlainPayload, IsPayload, payload_spelling, plain_payload, whole_payload};
ghost use Rattle.model_value.specs.Plain.{PlainValue, InBounds};
ghost use Rattle.model_value.specs.Reading.{bounded_at};
ghost use Rattle.model_value.specs.Spelling.{IsValue, value_spelling};
ghost use Rattle.model_value.specs.View.{plain};

use crate::fault::ValueFault;
use crate::payloads::{payload, read_payload};
use crate::reading::decode;
use crate::value::Value;
use crate::writing::encode;
use std::alloc::Global;
use tea_base::Text;

/// The spelling of a value in bounds is read as that value, and the spelling of a payload as that payload.
pub fn spellings_are_read()
    ensures value { (v : PlainValue) → IsValue v → InBounds v → whole bounded_at (value_spelling v) ≡ Some v }
    ensures payload { (p : PlainPayload) → IsPayload p → whole_payload (payload_spelling p) ≡ Some p }
{}

/// A value in bounds, written and read again. Fails for want of memory alone.
pub fn encode_and_decode(alloc: Global, value: &Value) -> Result<Value, ValueFault>
    requires { InBounds (plain value.now) }
    ensures same { IfOk result (λ read. plain read ≡ plain value.now) }
    ensures want { IfErr result (λ fault. fault ≡ ValueFault.WantOfMemory) }
{
    let bytes = encode(alloc, value)?;
    decode(alloc, bytes.bytes())
}

/// A payload whose texts have fewer than 2^32 bytes each and whose value is in bounds, written and read again. Fails for
/// want of memory alone.
pub fn write_and_read_payload(
    alloc: Global,
    scope: &Text,
    event: &Text,
    value: &Value,
) -> Result<(Text, Text, Value), ValueFault>
    requires scope { length (encode_utf8_all scope.now) < 2 ^ 32 }
    requires event { length (encode_utf8_all event.now) < 2 ^ 32 }
    requires bounds { InBounds (plain value.now) }
    ensures same { IfOk result (λ read. plain_payload read ≡ record {
      scope = scope.now;
      event = event.now;
      value = plain value.now;
    }) }
    ensures want { IfErr result (λ fault. fault ≡ ValueFault.WantOfMemory) }
{
    let bytes = payload(alloc, scope, event, value)?;
    read_payload(alloc, bytes.bytes())
}
