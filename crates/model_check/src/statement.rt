//! Statements: their first fault, or what stands for them.
ghost use Rattle.std.specs.Prelude.{◌≡◌, ◌≤◌, max, length, map, OnOk};
ghost use Rattle.model_tree.specs.Bounds.{most_members};
ghost use Rattle.model_tree.specs.TreeView.{statement_tree, statement_trees};
ghost use Rattle.model_check.specs.Answer.{Solves};
ghost use Rattle.model_solved.specs.Faults.{faults_of_statement, faults_of_statements};
ghost use Rattle.model_solved.specs.Scopes.{scope_behind, slots_of_statement, slots_of_statements};
ghost use Rattle.model_solved.specs.SolvedView.{solved_statement, solved_statements};
ghost use Rattle.model_check.specs.Solving.{solve_statement, solve_statements};

use crate::expression::expression;
use crate::names::{field, is_among, local, once};
use crate::scope::Scope;
use model_solved::{CheckFault, SolvedStmt};
use model_tree::{Class, Stmt};
use std::alloc::Global;
use tea_base::{Text, push};

/// What stands for a block in a program with these classes, in a class with these fields. Behind it those names are in scope
/// that were in scope before.
#[cycle(statement)]
#[tactic(auto, using(crate::proofs::First::by_first, crate::proofs::Trees::by_items))]
pub fn block(
    alloc: Global,
    classes: &[Class],
    fields: &[Text],
    scope: &mut Scope,
    stmts: &[Stmt],
) -> Result<Vec<SolvedStmt>, CheckFault>
    requires few_classes { length classes.now ≤ most_members }
    requires few_fields { length fields.now ≤ most_members }
    ensures solved { let names = map (λ c. c.name) classes.now in let trees = statement_trees stmts.now
        in Solves result (faults_of_statements names fields.now scope.old.names.items trees) (λ s.
        solved_statements s.items ≡ solve_statements names fields.now scope.old.names.items trees) }
    ensures scope { OnOk result (scope.new.names.items ≡ scope.old.names.items) }
    ensures slots { OnOk result (scope.new.slots
        ≡ max scope.old.slots (slots_of_statements scope.old.names.items (statement_trees stmts.now))) }
{
    let before = scope.names.len();
    let mut solved = Vec::new(alloc);
    for stmt in stmts {
        push(&mut solved, statement(alloc, classes, fields, scope, stmt)?)?;
    }
    scope.leave(before);
    Ok(solved)
}

#[cycle(statement)]
#[tactic(auto, using(crate::proofs::First::by_first, crate::proofs::Trees::by_items))]
fn statement(
    alloc: Global,
    classes: &[Class],
    fields: &[Text],
    scope: &mut Scope,
    stmt: &Stmt,
) -> Result<SolvedStmt, CheckFault>
    requires few_classes { length classes.now ≤ most_members }
    requires few_fields { length fields.now ≤ most_members }
    ensures solved { let names = map (λ c. c.name) classes.now in let tree = statement_tree stmt.now
        in Solves result (faults_of_statement names fields.now scope.old.names.items tree) (λ s. solved_statement s
        ≡ solve_statement names fields.now scope.old.names.items tree) }
    ensures scope { OnOk result (scope.new.names.items ≡ scope_behind scope.old.names.items (statement_tree stmt.now)) }
    ensures slots { OnOk result (scope.new.slots
        ≡ max scope.old.slots (slots_of_statement scope.old.names.items (statement_tree stmt.now))) }
{
    match stmt {
        Stmt::Let { name, value } => {
            once(is_among(name, &scope.names), name)?;
            let value = expression(alloc, classes, fields, scope, value)?;
            let slot = scope.enter(name)?;
            Ok(SolvedStmt::Let { slot, value })
        }
        Stmt::Assign { name, value } => {
            let slot = local(scope, name)?;
            let value = expression(alloc, classes, fields, scope, value)?;
            Ok(SolvedStmt::Assign { slot, value })
        }
        Stmt::SetField { name, value } => {
            let slot = field(fields, name)?;
            let value = expression(alloc, classes, fields, scope, value)?;
            Ok(SolvedStmt::SetField { slot, value })
        }
        Stmt::If { test, yes, no } => {
            let test = expression(alloc, classes, fields, scope, test)?;
            let yes = block(alloc, classes, fields, scope, yes)?;
            let no = match no {
                Some(no) => Some(block(alloc, classes, fields, scope, no)?),
                None => None,
            };
            Ok(SolvedStmt::If { test, yes, no })
        }
        Stmt::While { test, body } => {
            let test = expression(alloc, classes, fields, scope, test)?;
            let body = block(alloc, classes, fields, scope, body)?;
            Ok(SolvedStmt::While { test, body })
        }
        Stmt::Return { value } => Ok(SolvedStmt::Return {
            value: expression(alloc, classes, fields, scope, value)?,
        }),
        Stmt::Do { value } => Ok(SolvedStmt::Do {
            value: expression(alloc, classes, fields, scope, value)?,
        }),
    }
}
