//! The method that a new object starts with.
ghost use Rattle.std.specs.Prelude.{◌≡◌, IfOk, Some, slice_get};
ghost use Rattle.model_tree.specs.Tree.{ClassTree};
ghost use Rattle.model_solved.specs.Founding.{checked_tree};
ghost use Rattle.model_eval.specs.Meaning.{init as init_name};
ghost use Rattle.model_eval.specs.Answer.{HasInit};

use model_solved::Checked;
use std::alloc::Global;
use tea_base::{Text, WantOfMemory};

/// The name `init`, where the class has a method of this name.
pub fn init_of(alloc: Global, program: &Checked, class: u16) -> Result<Option<Text>, WantOfMemory>
    ensures { IfOk result (λ found. (c : ClassTree) → slice_get (checked_tree program.now) class ≡ Some c
        → HasInit found c) }
{
    let init = init(alloc)?;
    match program.method(class, &init) {
        None => Ok(None),
        Some(_) => Ok(Some(init)),
    }
}

fn init(alloc: Global) -> Result<Text, WantOfMemory>
    ensures { IfOk result (λ name. name ≡ init_name) }
{
    Text::copy(alloc, "init")
}
