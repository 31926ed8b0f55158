//! Which events of a log are votes.
ghost use Rattle.std.specs.Prelude.{◌≡◌, bytes_eq, IfOk};
ghost use Rattle.std.specs.Option.{option_map};
ghost use Rattle.hex.specs.Hex.{encode_lower};
ghost use Rattle.model_value.specs.Payload.{whole_payload};
ghost use Rattle.model_value.specs.View.{plain, plains};
ghost use Rattle.vote_book.specs.VoteBook.{ballot};
ghost use Rattle.command_votes.specs.VoteRead.{digest_of, entry_before, named_by, named_by_event, named_by_items, named_by_pair, named_in, vote_of};

use hex::FromHex;
use model_value::{Value, ValueFault, read_payload};
use std::alloc::Global;
use tea_base::{Entry, Text, WantOfMemory, What};

/// What a vote names: the entry that it is on, and a digest.
#[derive(Clone, Copy, Debug)]
pub struct Named {
    pub at: u32,
    pub digest: [u8; 32],
}

/// Whether these are the hexadecimal digits of a digest, in lower case.
fn are_digits_of(digits: &[u8], digest: &[u8; 32]) -> bool
    ensures { result ≡ bytes_eq (encode_lower digest.now) digits.now }
{
    let mut spelled = [0; 64];
    match hex::encode_to_slice(digest.as_slice(), &mut spelled) {
        Ok(()) => spelled.as_slice() == digits,
        Err(_) => unreachable!(),
    }
}

/// The digest whose hexadecimal digits these are, in lower case.
fn digest_of(digits: &[u8]) -> Option<[u8; 32]>
    ensures { result ≡ digest_of digits.now }
{
    let digest = <[u8; 32] as FromHex>::from_hex(digits).ok()?;
    are_digits_of(digits, &digest).then_some(digest)
}

/// A number as that of an entry before the entry `seq`.
fn entry_before(seq: u32, number: i64) -> Option<u32>
    ensures { result ≡ entry_before seq number }
{
    if 1 <= number && number < i64::from(seq) {
        Some(number as u32)
    } else {
        None
    }
}

/// What a number and a text name.
fn named_by_pair(seq: u32, number: &Value, digits: &Value) -> Option<Named>
    ensures { result ≡ named_by_pair seq (plain number.now) (plain digits.now) }
{
    match (number, digits) {
        (Value::Int(number), Value::Text(digits)) => {
            let at = entry_before(seq, *number)?;
            let digest = digest_of(digits.bytes())?;
            Some(Named { at, digest })
        }
        _ => None,
    }
}

/// What the items of a list name.
#[tactic(auto, using(crate::proofs::Items::short, crate::proofs::Items::long))]
fn named_by_items(seq: u32, items: &[Value]) -> Option<Named>
    ensures { result ≡ named_by_items seq (plains items.now) }
{
    match items {
        [number, digits] => named_by_pair(seq, number, digits),
        _ => None,
    }
}

/// What a value names.
fn named_by(seq: u32, value: &Value) -> Option<Named>
    ensures { result ≡ named_by seq (plain value.now) }
{
    match value {
        Value::List(items) => named_by_items(seq, items.as_slice()),
        _ => None,
    }
}

/// What the event with this payload names, if it is a vote. The event is the entry `seq`.
fn named_in(alloc: Global, seq: u32, payload: &[u8]) -> Result<Option<Named>, WantOfMemory>
    ensures { IfOk result (λ named. named ≡ named_in seq (whole_payload payload.now)) }
{
    match read_payload(alloc, payload) {
        Ok((scope, event, value)) => Ok(named_by_event(seq, &scope, &event, &value)),
        Err(ValueFault::BadValue) => Ok(None),
        Err(ValueFault::WantOfMemory) => Err(WantOfMemory),
    }
}

/// What an event names, if it is one of votes.
fn named_by_event(seq: u32, scope: &Text, event: &Text, value: &Value) -> Option<Named>
    ensures { result ≡ named_by_event seq (record { scope = scope.now; event = event.now; value = plain value.now }) }
{
    if scope.as_str() != "#vote" || event.as_str() != "digest" {
        return None;
    }
    named_by(seq, value)
}

/// What an entry names, if it is a vote.
pub fn vote_of(alloc: Global, entry: &Entry) -> Result<Option<Named>, WantOfMemory>
    ensures { IfOk result (λ named.
        option_map (λ named. ballot entry.now.seq entry.now.view named.at named.digest) named ≡ vote_of entry.now) }
{
    match &entry.what {
        What::Join | What::Exit => Ok(None),
        What::Event { payload, .. } => named_in(alloc, entry.seq, payload.bytes()),
    }
}
