//! Expressions: their first fault, or what stands for them.
ghost use Rattle.std.specs.Prelude.{◌≡◌, ◌≤◌, length, map, IfOk};
ghost use Rattle.model_tree.specs.Bounds.{most_members};
ghost use Rattle.model_tree.specs.Tree.{unary as unary_tree, builtin as builtin_tree, create as create_tree};
ghost use Rattle.model_tree.specs.TreeView.{expression_tree, expression_trees};
ghost use Rattle.model_check.specs.Answer.{Solves};
ghost use Rattle.model_solved.specs.Faults.{faults_of_expression, faults_of_expressions};
ghost use Rattle.model_solved.specs.SolvedTree as solved;
ghost use Rattle.model_solved.specs.SolvedView.{solved_expression, solved_expressions};
ghost use Rattle.model_check.specs.Solving.{solve_expression, solve_expressions};

use crate::builtin::called_builtin;
use crate::names::{class_number, field, local};
use crate::scope::Scope;
use model_solved::{CheckFault, SolvedExpr};
use model_tree::{BinaryOp, Class, Expr, UnaryOp};
use std::alloc::Global;
use tea_base::{Text, WantOfMemory, push};

/// What stands for an expression in a program with these classes, in a class with these fields.
pub fn expression(
    alloc: Global,
    classes: &[Class],
    fields: &[Text],
    scope: &Scope,
    expr: &Expr,
) -> Result<SolvedExpr, CheckFault>
    requires few_classes { length classes.now ≤ most_members }
    requires few_fields { length fields.now ≤ most_members }
    ensures { let names = map (λ c. c.name) classes.now in let tree = expression_tree expr.now
        in Solves result (faults_of_expression names fields.now scope.now.names.items tree) (λ s. solved_expression s
        ≡ solve_expression names fields.now scope.now.names.items tree) }
{
    let context = Context {
        alloc,
        classes,
        fields,
        scope,
    };
    context.expression(expr)
}

/// Where an expression stands: in a program with these classes, in a class with these fields, where these names are in scope.
#[derive(Clone, Copy)]
struct Context<'a> {
    alloc: Global,
    classes: &'a [Class],
    fields: &'a [Text],
    scope: &'a Scope,
}

impl Context<'_> {
    #[cycle(expression)]
    #[tactic(auto, using(crate::proofs::First::by_first, crate::proofs::Trees::by_items))]
    fn expression(&self, expr: &Expr) -> Result<SolvedExpr, CheckFault>
        requires few_classes { length self.now.classes.now ≤ most_members }
        requires few_fields { length self.now.fields.now ≤ most_members }
        ensures { let context = self.now in let names = map (λ c. c.name) context.classes.now
            in let tree = expression_tree expr.now
            in Solves result (faults_of_expression names context.fields.now context.scope.now.names.items tree) (λ s.
            solved_expression s ≡ solve_expression names context.fields.now context.scope.now.names.items tree) }
    {
        match expr {
            Expr::Nil => Ok(SolvedExpr::Nil),
            Expr::Bool(truth) => Ok(SolvedExpr::Bool(*truth)),
            Expr::Int(number) => Ok(SolvedExpr::Int(*number)),
            Expr::Text(text) => Ok(SolvedExpr::Text(text.try_clone()?)),
            Expr::This => Ok(SolvedExpr::This),
            Expr::Local { name } => Ok(SolvedExpr::Local {
                slot: local(self.scope, name)?,
            }),
            Expr::Field { name } => Ok(SolvedExpr::Field {
                slot: field(self.fields, name)?,
            }),
            Expr::List { items } => Ok(SolvedExpr::List {
                items: self.expressions(items)?,
            }),
            Expr::Unary { op, of } => self.unary(*op, of),
            Expr::Binary { op, left, right } => {
                let left = self.expression(left)?;
                let right = self.expression(right)?;
                Ok(new_binary(self.alloc, *op, left, right)?)
            }
            Expr::Builtin { name, args } => self.builtin(name, args),
            Expr::Call { object, name, args } => {
                let object = self.expression(object)?;
                let args = self.expressions(args)?;
                Ok(new_call(self.alloc, object, name, args)?)
            }
            Expr::Future {
                object,
                delay,
                name,
                args,
            } => {
                let object = self.expression(object)?;
                let delay = self.expression(delay)?;
                let args = self.expressions(args)?;
                Ok(new_future(self.alloc, object, delay, name, args)?)
            }
            Expr::Create { class, options } => self.create(class, options),
        }
    }

    #[cycle(expression)]
    #[tactic(auto, using(crate::proofs::First::by_first, crate::proofs::Trees::by_items))]
    fn expressions(&self, exprs: &[Expr]) -> Result<Vec<SolvedExpr>, CheckFault>
        requires few_classes { length self.now.classes.now ≤ most_members }
        requires few_fields { length self.now.fields.now ≤ most_members }
        ensures { let context = self.now in let names = map (λ c. c.name) context.classes.now
            in let trees = expression_trees exprs.now
            in Solves result (faults_of_expressions names context.fields.now context.scope.now.names.items trees) (λ s.
            solved_expressions s.items ≡ solve_expressions names context.fields.now context.scope.now.names.items
            trees) }
    {
        let mut solved = Vec::new(self.alloc);
        for expr in exprs {
            push(&mut solved, self.expression(expr)?)?;
        }
        Ok(solved)
    }

    #[cycle(expression)]
    #[tactic(auto, using(crate::proofs::First::by_first, crate::proofs::Trees::by_items))]
    fn unary(&self, op: UnaryOp, of: &Expr) -> Result<SolvedExpr, CheckFault>
        requires few_classes { length self.now.classes.now ≤ most_members }
        requires few_fields { length self.now.fields.now ≤ most_members }
        ensures { let context = self.now in let names = map (λ c. c.name) context.classes.now
            in let tree = unary_tree op (expression_tree of.now)
            in Solves result (faults_of_expression names context.fields.now context.scope.now.names.items tree) (λ s.
            solved_expression s ≡ solve_expression names context.fields.now context.scope.now.names.items tree) }
    {
        let of = self.expression(of)?;
        Ok(new_unary(self.alloc, op, of)?)
    }

    #[cycle(expression)]
    #[tactic(auto, using(crate::proofs::First::by_first, crate::proofs::Trees::by_items))]
    fn builtin(&self, name: &Text, args: &[Expr]) -> Result<SolvedExpr, CheckFault>
        requires few_classes { length self.now.classes.now ≤ most_members }
        requires few_fields { length self.now.fields.now ≤ most_members }
        ensures { let context = self.now in let names = map (λ c. c.name) context.classes.now
            in let tree = builtin_tree name.now (expression_trees args.now)
            in Solves result (faults_of_expression names context.fields.now context.scope.now.names.items tree) (λ s.
            solved_expression s ≡ solve_expression names context.fields.now context.scope.now.names.items tree) }
    {
        let name = called_builtin(name, args.len())?;
        let args = self.expressions(args)?;
        Ok(SolvedExpr::Builtin { name, args })
    }

    #[cycle(expression)]
    #[tactic(auto, using(crate::proofs::First::by_first, crate::proofs::Trees::by_items))]
    fn create(&self, class: &Text, options: &Expr) -> Result<SolvedExpr, CheckFault>
        requires few_classes { length self.now.classes.now ≤ most_members }
        requires few_fields { length self.now.fields.now ≤ most_members }
        ensures { let context = self.now in let names = map (λ c. c.name) context.classes.now
            in let tree = create_tree class.now (expression_tree options.now)
            in Solves result (faults_of_expression names context.fields.now context.scope.now.names.items tree) (λ s.
            solved_expression s ≡ solve_expression names context.fields.now context.scope.now.names.items tree) }
    {
        let class = class_number(self.classes, class)?;
        let options = self.expression(options)?;
        Ok(new_create(self.alloc, class, options)?)
    }
}

fn new_unary(alloc: Global, op: UnaryOp, of: SolvedExpr) -> Result<SolvedExpr, WantOfMemory>
    ensures { IfOk result (λ s. solved_expression s ≡ solved.unary op (solved_expression of)) }
{
    Ok(SolvedExpr::Unary {
        op,
        of: Box::new(alloc, of)?,
    })
}

fn new_binary(
    alloc: Global,
    op: BinaryOp,
    left: SolvedExpr,
    right: SolvedExpr,
) -> Result<SolvedExpr, WantOfMemory>
    ensures { IfOk result (λ s. solved_expression s
        ≡ solved.binary op (solved_expression left) (solved_expression right)) }
{
    Ok(SolvedExpr::Binary {
        op,
        left: Box::new(alloc, left)?,
        right: Box::new(alloc, right)?,
    })
}

fn new_call(
    alloc: Global,
    object: SolvedExpr,
    name: &Text,
    args: Vec<SolvedExpr>,
) -> Result<SolvedExpr, WantOfMemory>
    ensures { IfOk result (λ s. solved_expression s
        ≡ solved.call (solved_expression object) name.now (solved_expressions args.items)) }
{
    Ok(SolvedExpr::Call {
        object: Box::new(alloc, object)?,
        name: name.clone()?,
        args,
    })
}

fn new_future(
    alloc: Global,
    object: SolvedExpr,
    delay: SolvedExpr,
    name: &Text,
    args: Vec<SolvedExpr>,
) -> Result<SolvedExpr, WantOfMemory>
    ensures { IfOk result (λ s. solved_expression s
        ≡ solved.future (solved_expression object) (solved_expression delay) name.now (solved_expressions args.items)) }
{
    Ok(SolvedExpr::Future {
        object: Box::new(alloc, object)?,
        delay: Box::new(alloc, delay)?,
        name: name.clone()?,
        args,
    })
}

fn new_create(alloc: Global, class: u16, options: SolvedExpr) -> Result<SolvedExpr, WantOfMemory>
    ensures { IfOk result (λ s. solved_expression s ≡ solved.create class (solved_expression options)) }
{
    Ok(SolvedExpr::Create {
        class,
        options: Box::new(alloc, options)?,
    })
}
