//! Payloads: what an event carries from a view to the models.
ghost use Rattle.std.specs.Prelude.{◌≡◌, ◌≢◌, ◌<◌, ◌^◌, IfOk, Err, length, encode_utf8_all};
ghost use Rattle.byte_fields.specs.Fields.{Decodes};
ghost use Rattle.model_value.specs.Payload.{PlainPayload, plain_payload, payload_spelling, whole_payload, IsPayload};
ghost use Rattle.model_value.specs.Plain.{weight as weight_of, InBounds};
ghost use Rattle.model_value.specs.View.{plain};

use crate::fault::ValueFault;
use crate::reading::{bounded_at, owned_text_at};
use crate::value::Value;
use crate::writing::put_value;
use byte_fields::Writer;
use std::alloc::Global;
use tea_base::{Blob, Text, WantOfMemory};

/// The one spelling of a scope, an event's name and a value, in memory of its own: two text fields, each of a length in
/// four bytes and so many bytes of UTF-8, and the value as [`encode`](crate::encode) writes it.
///
/// Each of the texts has to have fewer than 2^32 bytes, and the value a weight below 2^28; a value in bounds weighs less.
/// Fails for want of memory alone.
pub fn payload(
    alloc: Global,
    scope: &Text,
    event: &Text,
    value: &Value,
) -> Result<Blob, WantOfMemory>
    requires scope_fits { length (encode_utf8_all scope.now) < 2 ^ 32 }
    requires event_fits { length (encode_utf8_all event.now) < 2 ^ 32 }
    requires value_fits { weight_of (plain value.now) < 2 ^ 28 }
    ensures spelled { IfOk result (λ bytes. bytes
        ≡ payload_spelling (record { scope = scope.now; event = event.now; value = plain value.now })) }
    // What is written of a value in bounds is read again.
    ensures payload { IfOk result (λ _. InBounds (plain value.now)
        → IsPayload (record { scope = scope.now; event = event.now; value = plain value.now })) }
{
    let mut out = Writer::new(alloc);
    out.put_text(scope)?;
    out.put_text(event)?;
    put_value(&mut out, value)?;
    Ok(out.done())
}

/// The scope, the event's name and the value that the bytes spell, as [`payload`] writes them, in memory of their own.
///
/// `BadValue` comes exactly where no payload has this spelling: it comes too where bytes follow the value, or where the
/// value is not in bounds. As in [`decode`](crate::decode), no length and no count is trusted.
pub fn read_payload(alloc: Global, bytes: &[u8]) -> Result<(Text, Text, Value), ValueFault>
    ensures read { Decodes ValueFault.BadValue plain_payload result (whole_payload bytes.now) }
    // What is read is spelled so, and its value is in bounds.
    ensures spelled { IfOk result (λ read. bytes.now ≡ payload_spelling (plain_payload read)) }
    ensures bounds { IfOk result (λ read. InBounds (plain read.2)) }
    // No payload has a spelling that is refused.
    ensures bad { result ≡ Err ValueFault.BadValue → (p : PlainPayload) → IsPayload p → bytes.now ≢ payload_spelling p }
    // What is spelled so is read, unless memory runs out.
    ensures only { (p : PlainPayload) → IsPayload p → bytes.now ≡ payload_spelling p
        → IfOk result (λ read. plain_payload read ≡ p) }
{
    read_all(alloc, bytes)
}

#[tactic(auto, unfolding(crate::specs::Payload::payload_at))]
fn read_all(alloc: Global, bytes: &[u8]) -> Result<(Text, Text, Value), ValueFault>
    ensures { Decodes ValueFault.BadValue plain_payload result (whole_payload bytes.now) }
{
    let (scope, rest) = owned_text_at(alloc, bytes)?;
    let (event, rest) = owned_text_at(alloc, rest)?;
    let (value, rest) = bounded_at(alloc, rest)?;
    if !rest.is_empty() {
        return Err(ValueFault::BadValue);
    }
    Ok((scope, event, value))
}
