//! Checks programs.
ghost use Rattle.model_check.specs.Answer.{Checks};

use crate::class::{root, solve};
use model_solved::{CheckFault, Checked};
use model_tree::Program;
use std::alloc::Global;

/// Checks a program: answers it with its methods resolved, or its first fault in the order of the text. A program that
/// is refused is dropped. The resolved methods take memory, so it may want memory whether or not there is a fault.
pub fn check(alloc: Global, program: Program) -> Result<Checked, CheckFault>
    ensures { Checks result program }
{
    let classes = solve(alloc, program.classes())?;
    let root = root(program.classes())?;
    Ok(Checked::of_parts(program, root, classes))
}
