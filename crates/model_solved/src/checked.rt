//! Checked programs.
ghost use Rattle.std.specs.Prelude.{◌≡◌, IfOk, length, map, None, option_and_then, slice_get};
ghost use Rattle.model_tree.specs.TreeView.{method_tree, program_tree};
ghost use Rattle.model_value.specs.Plain.{nil};
ghost use Rattle.model_value.specs.View.{plain};
ghost use Rattle.saved_value.specs.Saving.{CanBeSaved};
ghost use Rattle.model_solved.specs.Founding.{checked_tree};
ghost use Rattle.model_tree.specs.Tree.{root_name};
ghost use Rattle.model_solved.specs.Faults.{first_fault};
ghost use Rattle.model_solved.specs.Methods.{field_count, field_counts, method_named, IsChecked, IsClass, FindsMethod};
ghost use Rattle.model_solved.specs.SolvedView.{solved_method};

use crate::names::is_name;
use crate::solved::Solved;
use model_tree::{Method, Program};
use model_value::Value;
use saved_value::Saved;
use std::alloc::Global;
use std::marker::Model;
use tea_base::{List, Numbers, Text, WantOfMemory};

/// A program without faults, with its methods resolved, and its persisted value: the one with which its sessions are
/// founded, nil where there is none. Contracts see it as its classes, which are numbered from 0 in the order of the text, and that value.
/// What it is asked takes no memory, but for `field_counts`.
#[derive(Drop)]
pub struct Checked {
    program: Program,
    root: u16,
    classes: Vec<Vec<Solved>>,
    persisted: Saved,
}

impl Model for Checked {
    ghost use Rattle.std.specs.Prelude.{map};
    ghost use Rattle.std.specs.Coded.{codes};
    ghost use Rattle.model_tree.specs.contracts.tree.Stmt as stmt;
    ghost use Rattle.model_tree.specs.TreeView.{program_tree};
    ghost use Rattle.model_solved.specs.SolvedView.{solved_method};
    ghost use Rattle.model_solved.specs.Founding.{CheckedView, coded_checked};
    ghost use Rattle.model_solved.specs.Methods.{IsChecked};

    ghost Value = { CheckedView };

    ghost coded = { coded_checked (Prim.hlevel (codes, stmt.the_row.coded)) };

    ghost view = { λ checked. record { classes = checked.program; persisted = checked.persisted } };

    ghost invariant = { λ checked.
        IsChecked (program_tree checked.program) checked.root
        (map (λ methods. map solved_method methods.items) checked.classes.items) };
}

impl Checked {
    /// The program without faults that is made of these parts: the program itself, the number of its class Root, and its
    /// methods resolved. Its persisted value is nil.
    pub fn of_parts(program: Program, root: u16, classes: Vec<Vec<Solved>>) -> Checked
        requires { IsChecked (program_tree program) root
            (map (λ methods. map solved_method methods.items) classes.items) }
        ensures { result ≡ record { classes = program; persisted = nil } }
    {
        Checked {
            program,
            root,
            classes,
            persisted: Saved::none(),
        }
    }

    /// The same program with this persisted value, which has to be one that can be saved.
    pub fn with_persisted(self, value: Value) -> Checked
        requires { CanBeSaved (plain value) }
        ensures { result ≡ record self { persisted = plain value } }
    {
        Checked {
            persisted: Saved::of(value),
            ..self
        }
    }

    /// The persisted value.
    pub fn persisted(&self) -> &Value
        ensures value { plain result.now ≡ self.now.persisted }
        ensures fit { CanBeSaved self.now.persisted }
    {
        self.persisted.value()
    }

    /// The program itself.
    pub fn program(&self) -> &Program
        ensures program { result.now ≡ self.now.classes }
        ensures faultless { first_fault (checked_tree self.now) ≡ None }
    {
        &self.program
    }

    /// How many classes it has.
    pub fn classes(&self) -> u32
        ensures { result ≡ length self.now.classes }
    {
        self.program.classes().len() as u32
    }

    /// How many fields a class has, if there is such a class.
    pub fn fields(&self, class: u16) -> Option<u32>
        ensures { result ≡ field_count (checked_tree self.now) class }
    {
        let class = self.program.classes().get(usize::from(class))?;
        Some(class.fields.len() as u32)
    }

    /// How many fields each class has, in the order of the classes. Fails for want of memory alone.
    pub fn field_counts(&self, alloc: Global) -> Result<Numbers, WantOfMemory>
        ensures { IfOk result (λ counts. counts ≡ field_counts (checked_tree self.now)) }
    {
        let classes = self.program.classes();
        let mut counts = Vec::new(alloc);
        for class in classes {
            counts.push(class.fields.len() as u32)?;
        }
        Ok(List::from_vec(counts))
    }

    /// The number of the class named Root.
    pub fn root(&self) -> u16
        ensures { IsClass (checked_tree self.now) result root_name }
    {
        self.root
    }

    /// The method of that name in that class, resolved, if there is one.
    pub fn method(&self, class: u16, name: &Text) -> Option<&Solved>
        ensures { FindsMethod result (checked_tree self.now) class name.now }
    {
        let declared = self.program.classes().get(usize::from(class))?;
        let solved = self.classes.get(usize::from(class))?;
        let place = method_place(&declared.methods, name)?;
        solved.get(place)
    }
}

/// The place of the method of that name among methods.
fn method_place(methods: &[Method], name: &Text) -> Option<usize>
    ensures { let trees = map method_tree methods.now in option_and_then (slice_get trees) result
        ≡ method_named name.now trees }
{
    for i in 0..methods.len() {
        if is_name(name, &methods[i].name) {
            return Some(i);
        }
    }
    None
}
