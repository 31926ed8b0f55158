//! Programs.
ghost use Rattle.std.specs.Prelude.{◌≡◌};
ghost use Rattle.model_tree.specs.TreeView.{program_tree};
ghost use Rattle.model_tree.specs.Program.{IsProgram};
ghost use Rattle.model_tree.specs.Bounds.{ProgramFits};

use crate::tree::Class;
use std::marker::Model;

/// A program: the tree of some text that `parse` reads, so it keeps the bounds of the language.
#[derive(Debug, Drop)]
pub struct Program {
    classes: Vec<Class>,
}

impl Model for Program {
    ghost use Rattle.std.specs.Prelude.{List};
    ghost use Rattle.model_tree.specs.declared.tree.Class.{Class as Held};
    ghost use Rattle.model_tree.specs.TreeView.{program_tree};
    ghost use Rattle.model_tree.specs.Program.{IsProgram};
    ghost use Rattle.std.specs.Coded.{codes};
    ghost use Rattle.model_tree.specs.contracts.tree.Stmt as stmt;

    ghost Value = { List Held };

    ghost coded = { Prim.hlevel (codes, stmt.the_row.coded) };

    ghost view = { λ program. program.classes.items };

    ghost invariant = { λ program. IsProgram (program_tree program.classes.items) };
}

impl Program {
    /// The program with these classes, which some text spells.
    pub fn of_classes(classes: Vec<Class>) -> Program
        requires { IsProgram (program_tree classes.items) }
        ensures { result ≡ classes.items }
    {
        Program { classes }
    }

    /// Its classes, in the order of the text.
    pub fn classes(&self) -> &[Class]
        ensures classes { result.now ≡ self.now }
        ensures program { IsProgram (program_tree self.now) }
        ensures fits { ProgramFits (program_tree self.now) }
    {
        &self.classes
    }
}
