//! The words of a line, a space before each.
ghost use Rattle.std.specs.Prelude.{◌≡◌, ◌++◌, ◌∷◌, OnOk, string_bytes};
ghost use Rattle.std.specs.Fmt.{decimal};
ghost use Rattle.model_tokens.specs.Spelling.{spelled_text};
ghost use Rattle.model_value.specs.View.{plain, plains, plain_values};
ghost use Rattle.value_text.specs.ValueText.{value_text, items_text};
ghost use Rattle.world_lines.specs.WorldLines.{spaced, method_text, arguments_text};

use crate::names::is_name;
use model_value::{Value, Values};
use tea_base::{Text, WantOfMemory};
use value_text::{push_text, push_value};

/// Appends a word.
pub fn push_word(line: &mut String, word: &str) -> Result<(), WantOfMemory>
    ensures { OnOk result (string_bytes line.new ≡ string_bytes line.old ++ spaced word.now) }
{
    line.push_str(" ")?;
    line.push_str(word)?;
    Ok(())
}

/// Appends a number in decimal.
pub fn push_number(line: &mut String, number: u64) -> Result<(), WantOfMemory>
    ensures { OnOk result (string_bytes line.new ≡ string_bytes line.old ++ spaced (decimal number)) }
{
    write!(line, " {number}")?;
    Ok(())
}

/// Appends the literal of a text.
pub fn push_literal(line: &mut String, text: &Text) -> Result<(), WantOfMemory>
    ensures { OnOk result (string_bytes line.new ≡ string_bytes line.old ++ spaced (spelled_text text.now)) }
{
    line.push_str(" ")?;
    push_text(line, text)
}

/// Appends the name of a method as it is, and what is no name as its literal.
pub fn push_method(line: &mut String, method: &Text) -> Result<(), WantOfMemory>
    ensures { OnOk result (string_bytes line.new ≡ string_bytes line.old ++ spaced (method_text method.now)) }
{
    if is_name(method.bytes()) {
        push_word(line, method.as_str())
    } else {
        push_literal(line, method)
    }
}

/// Appends the text of a value.
pub fn push_value_text(line: &mut String, value: &Value) -> Result<(), WantOfMemory>
    ensures { OnOk result (string_bytes line.new ≡ string_bytes line.old ++ spaced (value_text (plain value.now))) }
{
    line.push_str(" ")?;
    push_value(line, value)
}

/// Appends the texts of values, a comma between two.
fn push_items(line: &mut String, items: &[Value]) -> Result<(), WantOfMemory>
    ensures { OnOk result (string_bytes line.new ≡ string_bytes line.old ++ items_text (plains items.now)) }
{
    let Some((first, others)) = items.split_first() else {
        return Ok(());
    };
    push_value(line, first)?;
    for item in others {
        line.push_str(",")?;
        push_value(line, item)?;
    }
    Ok(())
}

/// Appends the value text of the list of arguments.
pub fn push_arguments(line: &mut String, args: &Values) -> Result<(), WantOfMemory>
    ensures { OnOk result (string_bytes line.new
        ≡ string_bytes line.old ++ spaced (arguments_text (plain_values args.now))) }
{
    line.push_str(" [")?;
    push_items(line, args.as_slice())?;
    line.push_str("]")?;
    Ok(())
}
