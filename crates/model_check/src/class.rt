//! Methods and classes: their first fault, or what stands for them.
ghost use Rattle.std.specs.Prelude.{◌≡◌, ◌≤◌, ◌++◌, [], length, map};
ghost use Rattle.model_tree.specs.Bounds.{most_members, most_arguments};
ghost use Rattle.model_tree.specs.Tree.{root_name};
ghost use Rattle.model_tree.specs.TreeView.{method_tree, class_tree, program_tree};
ghost use Rattle.model_solved.specs.declared.fault.CheckFault.TheVariants.{NoRoot};
ghost use Rattle.model_check.specs.Answer.{Solves};
ghost use Rattle.model_solved.specs.Faults.{is_among, missing_from, faults_of_name, faults_of_method, faults_of_methods, faults_of_class, faults_of_classes};
ghost use Rattle.model_solved.specs.Methods.{IsClass};
ghost use Rattle.model_solved.specs.SolvedView.{solved_method};
ghost use Rattle.model_check.specs.Solving.{solve_method, solve_methods, HaveFewParameters, IsSolvable, AreSolvable};

use crate::names::{all_once, is_root, once};
use crate::scope::Scope;
use crate::statement::block;
use model_solved::{CheckFault, Solved, is_name};
use model_tree::{Class, Method};
use std::alloc::Global;
use tea_base::{Text, push};

/// What stands for the methods of each class.
#[tactic(auto, using(crate::proofs::First::by_first, crate::proofs::Trees::by_items))]
pub fn solve(alloc: Global, classes: &[Class]) -> Result<Vec<Vec<Solved>>, CheckFault>
    requires few_classes { length classes.now ≤ most_members }
    requires solvable { AreSolvable (program_tree classes.now) }
    ensures { let names = map (λ c. c.name) classes.now in let tree = program_tree classes.now
        in Solves result (faults_of_classes names [] tree) (λ s.
        map (λ methods. map solved_method methods.items) s.items ≡ map (solve_methods names) tree) }
{
    let mut solved = Vec::new(alloc);
    for i in 0..classes.len() {
        push(
            &mut solved,
            next_class(alloc, classes, &classes[..i], &classes[i])?,
        )?;
    }
    Ok(solved)
}

/// The number of the class named `Root`.
pub fn root(classes: &[Class]) -> Result<u16, CheckFault>
    requires { length classes.now ≤ most_members }
    ensures { Solves result (missing_from (map (λ c. c.name) classes.now) root_name NoRoot) (λ number.
        IsClass (program_tree classes.now) number root_name) }
{
    let mut number = 0;
    for class in classes {
        if is_root(class) {
            return Ok(number);
        }
        number += 1;
    }
    Err(CheckFault::NoRoot)
}

fn has_class(classes: &[Class], name: &Text) -> bool
    ensures { result ≡ is_among name.now (map (λ c. c.name) classes.now) }
{
    for class in classes {
        if is_name(name, &class.name) {
            return true;
        }
    }
    false
}

fn has_method(methods: &[Method], name: &Text) -> bool
    ensures { result ≡ is_among name.now (map (λ m. m.name) methods.now) }
{
    for method in methods {
        if is_name(name, &method.name) {
            return true;
        }
    }
    false
}

/// A class that stands behind others.
#[tactic(auto, using(crate::proofs::First::by_first))]
fn next_class(
    alloc: Global,
    classes: &[Class],
    before: &[Class],
    next: &Class,
) -> Result<Vec<Solved>, CheckFault>
    requires few_classes { length classes.now ≤ most_members }
    requires solvable { IsSolvable (class_tree next.now) }
    ensures { let names = map (λ c. c.name) classes.now
        in Solves result (faults_of_name (map (λ c. c.name) before.now) next.now.name
        ++ faults_of_class names (class_tree next.now)) (λ s. map solved_method s.items
        ≡ solve_methods names (class_tree next.now)) }
{
    once(has_class(before, &next.name), &next.name)?;
    class(alloc, classes, next)
}

#[tactic(auto, using(crate::proofs::First::by_first))]
fn class(alloc: Global, classes: &[Class], class: &Class) -> Result<Vec<Solved>, CheckFault>
    requires few_classes { length classes.now ≤ most_members }
    requires solvable { IsSolvable (class_tree class.now) }
    ensures { let names = map (λ c. c.name) classes.now
        in Solves result (faults_of_class names (class_tree class.now)) (λ s. map solved_method s.items
        ≡ solve_methods names (class_tree class.now)) }
{
    all_once(&class.fields)?;
    methods(alloc, classes, &class.fields, &class.methods)
}

#[tactic(auto, using(crate::proofs::First::by_first, crate::proofs::Trees::by_items))]
fn methods(
    alloc: Global,
    classes: &[Class],
    fields: &[Text],
    methods: &[Method],
) -> Result<Vec<Solved>, CheckFault>
    requires few_classes { length classes.now ≤ most_members }
    requires few_fields { length fields.now ≤ most_members }
    requires few_parameters { HaveFewParameters (map method_tree methods.now) }
    ensures { let names = map (λ c. c.name) classes.now in let trees = map method_tree methods.now
        in Solves result (faults_of_methods names fields.now [] trees) (λ s. map solved_method s.items
        ≡ map (solve_method names fields.now) trees) }
{
    let mut solved = Vec::new(alloc);
    for i in 0..methods.len() {
        push(
            &mut solved,
            next_method(alloc, classes, fields, &methods[..i], &methods[i])?,
        )?;
    }
    Ok(solved)
}

/// A method that stands behind others.
#[tactic(auto, using(crate::proofs::First::by_first))]
fn next_method(
    alloc: Global,
    classes: &[Class],
    fields: &[Text],
    before: &[Method],
    next: &Method,
) -> Result<Solved, CheckFault>
    requires few_classes { length classes.now ≤ most_members }
    requires few_fields { length fields.now ≤ most_members }
    requires few_parameters { length (method_tree next.now).params ≤ most_arguments }
    ensures { let names = map (λ c. c.name) classes.now
        in Solves result (faults_of_name (map (λ m. m.name) before.now) next.now.name
        ++ faults_of_method names fields.now (method_tree next.now)) (λ s. solved_method s
        ≡ solve_method names fields.now (method_tree next.now)) }
{
    once(has_method(before, &next.name), &next.name)?;
    method(alloc, classes, fields, next)
}

#[tactic(auto, using(crate::proofs::First::by_first))]
fn method(
    alloc: Global,
    classes: &[Class],
    fields: &[Text],
    method: &Method,
) -> Result<Solved, CheckFault>
    requires few_classes { length classes.now ≤ most_members }
    requires few_fields { length fields.now ≤ most_members }
    requires few_parameters { length (method_tree method.now).params ≤ most_arguments }
    ensures { let names = map (λ c. c.name) classes.now
        in Solves result (faults_of_method names fields.now (method_tree method.now)) (λ s. solved_method s
        ≡ solve_method names fields.now (method_tree method.now)) }
{
    all_once(&method.params)?;
    let mut scope = Scope::of_params(alloc, &method.params)?;
    let body = block(alloc, classes, fields, &mut scope, &method.body)?;
    Ok(Solved {
        params: method.params.len() as u32,
        slots: scope.slots,
        body,
    })
}
