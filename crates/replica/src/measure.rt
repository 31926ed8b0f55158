//! How long a payload is. A length above 4,294,967,295 is told as that one.
ghost use Rattle.std.specs.Prelude.{◌≡◌, ◌-◌, ◌^◌, min, length, IfOk};
ghost use Rattle.byte_fields.specs.Fields.{text_field};
ghost use Rattle.model_value.specs.Payload.{payload_spelling};
ghost use Rattle.model_value.specs.Plain.{InBounds};
ghost use Rattle.model_value.specs.Spelling.{value_spelling};
ghost use Rattle.model_value.specs.View.{plain};

use model_value::{Value, encode};
use std::alloc::Global;
use tea_base::{Text, WantOfMemory};

/// The bytes of the length before a text.
const HEAD: u32 = 4;

/// How many bytes the payload of a scope, an event and a value has, without writing one of long texts.
pub(crate) fn payload_len(
    alloc: Global,
    scope: &Text,
    event: &Text,
    value: &Value,
) -> Result<u32, WantOfMemory>
    requires { InBounds (plain value.now) }
    ensures { IfOk result (λ len. len
        ≡ min (length (payload_spelling (record { scope = scope.now; event = event.now; value = plain value.now })))
        (2 ^ 32 - 1)) }
{
    let behind = value_len(alloc, value)?;
    Ok(
        text_len(scope)
            .saturating_add(text_len(event))
            .saturating_add(behind),
    )
}

fn text_len(text: &Text) -> u32
    ensures { result ≡ min (length (text_field text.now)) (2 ^ 32 - 1) }
{
    let len = text.bytes().len();
    if len > (u32::MAX - HEAD) as usize {
        return u32::MAX;
    }
    len as u32 + HEAD
}

fn value_len(alloc: Global, value: &Value) -> Result<u32, WantOfMemory>
    requires { InBounds (plain value.now) }
    ensures { IfOk result (λ len. len ≡ length (value_spelling (plain value.now))) }
{
    let bytes = encode(alloc, value)?;
    Ok(bytes.len() as u32)
}
