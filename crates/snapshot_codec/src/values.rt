//! Values, as the spelling of a world and the id of a session have them.
ghost use Rattle.std.specs.Prelude.{◌≡◌, ◌<◌, ◌^◌, ◌++◌, ℕ, List, length, encode_utf8_all};
ghost use Rattle.std.specs.Int.{to_be_bytes, w32};
ghost use Rattle.byte_fields.specs.Fields.{text_field};
ghost use Rattle.sha2.specs.Hashers.{Holds256};
ghost use Rattle.model_value.specs.Plain.{weight as weight_of, weight_of_all};
ghost use Rattle.model_value.specs.Spelling.{item_count, items_spelling, value_spelling};
ghost use Rattle.model_value.specs.View.{plain, plains};
ghost use Rattle.snapshot_codec.specs.Spelling.{is_nil};

use model_value::Value;
use sha2::{Digest, Sha256};
use tea_base::Text;

/// Whether a value is nil.
pub fn is_nil(value: &Value) -> bool
    ensures { result ≡ is_nil (plain value.now) }
{
    matches!(value, Value::Nil)
}

// Each hasher below takes one spelling after what it holds.

/// Takes a text as how many bytes of UTF-8 it has, and these.
pub fn hash_text(hasher: &mut Sha256, text: &Text)
    requires { length (encode_utf8_all text.now) < 2 ^ 32 }
    ensures { (m : List ℕ) → Holds256 hasher.old m → Holds256 hasher.new (m ++ text_field text.now) }
{
    let length = text.bytes().len() as u32;
    hasher.update(length.to_be_bytes());
    hasher.update(text.bytes());
}

/// Takes the spelling of a value.
#[cycle(hash_value)]
#[tactic(auto, using(crate::proofs::Hashed::by_weight))]
pub fn hash_value(hasher: &mut Sha256, value: &Value)
    requires { weight_of (plain value.now) < 2 ^ 28 }
    ensures { (m : List ℕ) → Holds256 hasher.old m → Holds256 hasher.new (m ++ value_spelling (plain value.now)) }
{
    match value {
        Value::Nil => hasher.update([0]),
        Value::Bool(false) => hasher.update([1]),
        Value::Bool(true) => hasher.update([2]),
        Value::Int(number) => {
            hasher.update([3]);
            hasher.update(number.cast_unsigned().to_be_bytes());
        }
        Value::Text(text) => {
            hasher.update([4]);
            hash_text(hasher, text);
        }
        Value::Ref(object) => {
            hasher.update([5]);
            hasher.update(object.to_be_bytes());
        }
        Value::List(items) => {
            hasher.update([6]);
            hash_list(hasher, items);
        }
    }
}

#[cycle(hash_value)]
#[tactic(auto, using(crate::proofs::Hashed::by_weight))]
fn hash_list(hasher: &mut Sha256, items: &[Value])
    requires { weight_of_all (plains items.now) < 2 ^ 28 }
    ensures { (m : List ℕ) → Holds256 hasher.old m
        → Holds256 hasher.new (m ++ to_be_bytes w32 (item_count (plains items.now))
        ++ items_spelling (plains items.now)) }
{
    let count = items.len() as u32;
    hasher.update(count.to_be_bytes());
    hash_items(hasher, items);
}

#[cycle(hash_value)]
fn hash_items(hasher: &mut Sha256, items: &[Value])
    requires { weight_of_all (plains items.now) < 2 ^ 28 }
    ensures { (m : List ℕ) → Holds256 hasher.old m → Holds256 hasher.new (m ++ items_spelling (plains items.now)) }
{
    for item in items {
        hash_value(hasher, item);
    }
}
