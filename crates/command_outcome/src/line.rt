//! Lines of text.
ghost use Rattle.std.specs.Prelude.{◌≡◌, ◌++◌, string_bytes, codes, IfOk};

use tea_base::WantOfMemory;

/// Two pieces of text in a line.
pub fn line_of_parts(mut front: String, back: &str) -> Result<String, WantOfMemory>
    ensures { IfOk result (λ line. string_bytes line ≡ string_bytes front ++ back.now ++ codes "\n") }
{
    front.push_str(back)?;
    front.push_str("\n")?;
    Ok(front)
}
