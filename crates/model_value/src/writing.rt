//! The spelling of values.
ghost use Rattle.std.specs.Prelude.{◌≡◌, ◌≤◌, ◌<◌, ◌^◌, ◌*◌, ◌++◌, OnOk, IfOk, length};
ghost use Rattle.std.specs.Int.{to_be_bytes, w32};
ghost use Rattle.model_value.specs.Plain.{weight as weight_of, weight_of_all};
ghost use Rattle.model_value.specs.Spelling.{item_count, value_spelling, items_spelling, IsValue, AreValues};
ghost use Rattle.model_value.specs.View.{plain, plains};

use crate::value::Value;
use byte_fields::Writer;
use std::alloc::Global;
use tea_base::{Blob, WantOfMemory};

/// The one spelling of a value, in memory of its own: a byte for its kind, and what it holds. Numbers are big-endian.
///
/// | Kind | Spelling |
/// |---|---|
/// | Nil | 0 |
/// | Bool | 1 of false, 2 of true |
/// | Int | 3 and eight bytes in two's complement |
/// | Text | 4, how many bytes of UTF-8 (RFC 3629) there are in four bytes, and these |
/// | Ref | 5 and four bytes |
/// | List | 6, how many items there are in four bytes, and their spellings |
///
/// There are at most 16 bytes for each unit of the value's [`weight`](crate::weight). The weight has to be below 2^28,
/// so that texts have fewer than 2^32 bytes and lists fewer than 2^32 items; a value in bounds weighs less. Fails for
/// want of memory alone.
#[tactic(auto, using(crate::proofs::Spellings::by_spelling))]
pub fn encode(alloc: Global, value: &Value) -> Result<Blob, WantOfMemory>
    requires { weight_of (plain value.now) < 2 ^ 28 }
    ensures spelled { IfOk result (λ bytes. bytes ≡ value_spelling (plain value.now)) }
    ensures short { IfOk result (λ bytes. length bytes ≤ 16 * weight_of (plain value.now)) }
    // What is written is read again.
    ensures value { IfOk result (λ _. IsValue (plain value.now)) }
{
    let mut out = Writer::new(alloc);
    put_value(&mut out, value)?;
    Ok(out.done())
}

/// Writes the one spelling of a value behind what was written before, as [`encode`] says, and under its condition.
/// Fails for want of memory alone, and then nothing is said of what the writer holds.
#[cycle(put_value)]
#[tactic(auto, using(crate::proofs::Spellings::by_weight))]
pub fn put_value(out: &mut Writer, value: &Value) -> Result<(), WantOfMemory>
    requires { weight_of (plain value.now) < 2 ^ 28 }
    ensures spelled { OnOk result (out.new ≡ out.old ++ value_spelling (plain value.now)) }
    ensures value { OnOk result (IsValue (plain value.now)) }
{
    match value {
        Value::Nil => out.put_u8(0),
        Value::Bool(false) => out.put_u8(1),
        Value::Bool(true) => out.put_u8(2),
        Value::Int(number) => {
            out.put_u8(3)?;
            out.put_u64(number.cast_unsigned())
        }
        Value::Text(text) => {
            out.put_u8(4)?;
            out.put_text(text)
        }
        Value::Ref(object) => {
            out.put_u8(5)?;
            out.put_u32(*object)
        }
        Value::List(items) => {
            out.put_u8(6)?;
            put_list(out, items)
        }
    }
}

#[cycle(put_value)]
#[tactic(auto, using(crate::proofs::Spellings::by_weight))]
fn put_list(out: &mut Writer, items: &[Value]) -> Result<(), WantOfMemory>
    requires { weight_of_all (plains items.now) < 2 ^ 28 }
    ensures spelled { OnOk result (out.new ≡ out.old ++ to_be_bytes w32 (item_count (plains items.now))
        ++ items_spelling (plains items.now)) }
    ensures values { OnOk result (AreValues (plains items.now)) }
{
    out.put_count(items.len())?;
    put_items(out, items)
}

#[cycle(put_value)]
fn put_items(out: &mut Writer, items: &[Value]) -> Result<(), WantOfMemory>
    requires { weight_of_all (plains items.now) < 2 ^ 28 }
    ensures spelled { OnOk result (out.new ≡ out.old ++ items_spelling (plains items.now)) }
    ensures values { OnOk result (AreValues (plains items.now)) }
{
    for item in items {
        put_value(out, item)?;
    }
    Ok(())
}
