//! From values to their texts.
ghost use Rattle.std.specs.Prelude.{◌≡◌, ◌∷◌, [], ◌++◌, true, IfOk, OnOk, string_bytes};
ghost use Rattle.std.specs.Fmt.{decimal, signed_decimal};
ghost use Rattle.std.specs.Str.{all_scalars};
ghost use Rattle.model_tokens.specs.Spelling.{spelled_text};
ghost use Rattle.model_value.specs.Spelling.{IsValue, AreValues};
ghost use Rattle.model_value.specs.View.{plain, plains};
ghost use Rattle.value_text.specs.ValueText.{value_text, items_text};

use model_tokens::push_literal;
use model_value::Value;
use std::alloc::Global;
use tea_base::{Blob, Text, WantOfMemory};

/// The text of a value, in memory of its own. Fails for want of memory alone.
pub fn print_value(alloc: Global, value: &Value) -> Result<Blob, WantOfMemory>
    ensures text { IfOk result (λ text. text ≡ value_text (plain value.now)) }
    // What is printed is read again, if it is in bounds.
    ensures value { IfOk result (λ _. IsValue (plain value.now)) }
{
    let mut out = String::new(alloc);
    push_value(&mut out, value)?;
    Ok(Blob::from_vec(out.into_bytes()))
}

/// Appends the text of a value. Fails for want of memory alone, and then nothing is said of what `out` holds.
#[cycle(push_value)]
pub fn push_value(out: &mut String, value: &Value) -> Result<(), WantOfMemory>
    ensures text { OnOk result (string_bytes out.new ≡ string_bytes out.old ++ value_text (plain value.now)) }
    ensures value { OnOk result (IsValue (plain value.now)) }
{
    match value {
        Value::Nil => push_word(out, "nil"),
        Value::Bool(false) => push_word(out, "false"),
        Value::Bool(true) => push_word(out, "true"),
        Value::Int(number) => push_number(out, *number),
        Value::Text(text) => push_text(out, text),
        Value::Ref(object) => push_object(out, *object),
        Value::List(items) => push_list(out, items),
    }
}

#[cycle(push_value)]
fn push_list(out: &mut String, items: &[Value]) -> Result<(), WantOfMemory>
    ensures text { OnOk result (string_bytes out.new ≡ string_bytes out.old ++ 91
        ∷ (items_text (plains items.now) ++ 93 ∷ [])) }
    ensures values { OnOk result (AreValues (plains items.now)) }
{
    out.push_str("[")?;
    push_items(out, items)?;
    out.push_str("]")?;
    Ok(())
}

#[cycle(push_value)]
fn push_items(out: &mut String, items: &[Value]) -> Result<(), WantOfMemory>
    ensures text { OnOk result (string_bytes out.new ≡ string_bytes out.old ++ items_text (plains items.now)) }
    ensures values { OnOk result (AreValues (plains items.now)) }
{
    let Some((first, others)) = items.split_first() else {
        return Ok(());
    };
    push_value(out, first)?;
    for item in others {
        out.push_str(",")?;
        push_value(out, item)?;
    }
    Ok(())
}

fn push_word(out: &mut String, word: &str) -> Result<(), WantOfMemory>
    ensures { OnOk result (string_bytes out.new ≡ string_bytes out.old ++ word.now) }
{
    out.push_str(word)?;
    Ok(())
}

fn push_number(out: &mut String, number: i64) -> Result<(), WantOfMemory>
    ensures { OnOk result (string_bytes out.new ≡ string_bytes out.old ++ signed_decimal number) }
{
    write!(out, "{number}")?;
    Ok(())
}

fn push_object(out: &mut String, object: u32) -> Result<(), WantOfMemory>
    ensures { OnOk result (string_bytes out.new ≡ string_bytes out.old ++ 35 ∷ decimal object) }
{
    write!(out, "#{object}")?;
    Ok(())
}

/// Appends the literal of a text. Fails for want of memory alone, and then nothing is said of what `out` holds.
pub fn push_text(out: &mut String, text: &Text) -> Result<(), WantOfMemory>
    ensures literal { OnOk result (string_bytes out.new ≡ string_bytes out.old ++ spelled_text text.now) }
    ensures scalars { all_scalars text.now ≡ true }
{
    out.reserve(text.bytes().len())?;
    push_literal(out, text.as_str())
}
