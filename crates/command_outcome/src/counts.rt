//! How many classes and methods a program has.
ghost use Rattle.std.specs.Prelude.{◌≡◌, IfOk, string_bytes};
ghost use Rattle.model_tree.specs.Bounds.{ProgramFits};
ghost use Rattle.model_tree.specs.TreeView.{program_tree};
ghost use Rattle.model_solved.specs.Founding.{checked_tree};
ghost use Rattle.command_outcome.specs.ProgramText.{counts_line, method_count};

use model_solved::Checked;
use model_tree::Class;
use std::alloc::Global;
use tea_base::WantOfMemory;
use text_lines::spell_numbers;

/// How many methods all classes of a program have together.
fn method_count(classes: &[Class]) -> u64
    requires { ProgramFits (program_tree classes.now) }
    ensures { result ≡ method_count (program_tree classes.now) }
{
    let mut count = 0;
    for class in classes {
        count += class.methods.len() as u64;
    }
    count
}

/// The line of a program without faults: the numbers of its classes and of its methods.
pub fn counts_line(alloc: Global, program: &Checked) -> Result<String, WantOfMemory>
    ensures { IfOk result (λ line. string_bytes line ≡ counts_line (checked_tree program.now)) }
{
    let classes = program.program().classes();
    let mut line = spell_numbers(alloc, "classes", &[classes.len() as u64])?;
    let methods = spell_numbers(alloc, " methods", &[method_count(classes)])?;
    line.push_str(methods.as_str())?;
    line.push_str("\n")?;
    Ok(line)
}
