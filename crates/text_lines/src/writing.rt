//! From words and numbers to text.
ghost use Rattle.std.specs.Prelude.{◌≡◌, string_bytes, IfOk};
ghost use Rattle.text_lines.specs.Lines.{spell_numbers};

use std::alloc::Global;
use tea_base::WantOfMemory;

/// A word, and numbers in decimal, each behind a space.
pub fn spell_numbers(alloc: Global, word: &str, numbers: &[u64]) -> Result<String, WantOfMemory>
    ensures { IfOk result (λ text. string_bytes text ≡ spell_numbers word.now numbers.now) }
{
    let mut text = String::from_str(alloc, word)?;
    for number in numbers {
        text.push_str(" ")?;
        text.push_str(number.to_string(alloc)?.as_str())?;
    }
    Ok(text)
}
