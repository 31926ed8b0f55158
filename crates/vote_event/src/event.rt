//! The event of a vote.
ghost use Rattle.std.specs.Prelude.{◌≡◌, IfOk, length};
ghost use Rattle.model_value.specs.Payload.{payload_spelling};
ghost use Rattle.model_value.specs.Plain.{InBounds};
ghost use Rattle.model_value.specs.View.{plain};
ghost use Rattle.vote_event.specs.VotePayload.{payload_of, vote_value, vote_payload};

use model_value::Value;
use std::alloc::Global;
use tea_base::{Text, WantOfMemory, push};

/// The parts of an event that is a vote.
#[derive(Drop)]
pub struct VoteEvent {
    pub scope: Text,
    pub event: Text,
    pub value: Value,
}

/// A list of the entry's number and the digest's hexadecimal digits in lower case.
fn vote_value(alloc: Global, at: u32, digest: &[u8; 32]) -> Result<Value, WantOfMemory>
    ensures { IfOk result (λ value. plain value ≡ vote_value at digest.now) }
{
    let digits = hex::encode(alloc, digest.as_slice())?;
    let digits = Text::copy(alloc, digits.as_str())?;
    let mut items = Vec::new(alloc);
    push(&mut items, Value::Int(i64::from(at)))?;
    push(&mut items, Value::Text(digits))?;
    Ok(Value::List(items))
}

/// The event by which a view votes on this entry: it names the digest that the view's world has directly after the entry. Its
/// payload has 102 bytes. Fails for want of memory alone.
pub fn vote_event(alloc: Global, at: u32, digest: &[u8; 32]) -> Result<VoteEvent, WantOfMemory>
    ensures vote { IfOk result (λ vote. payload_of vote ≡ vote_payload at digest.now) }
    ensures bounds { IfOk result (λ vote. InBounds (plain vote.value)) }
    ensures length { IfOk result (λ vote. length (payload_spelling (payload_of vote)) ≡ 102) }
{
    let value = vote_value(alloc, at, digest)?;
    Ok(VoteEvent {
        scope: Text::copy(alloc, "#vote")?,
        event: Text::copy(alloc, "digest")?,
        value,
    })
}
