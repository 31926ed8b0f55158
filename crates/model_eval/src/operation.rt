//! Operators of two sides.
ghost use Rattle.std.specs.Prelude.{◌≡◌, IfSome, Some};
ghost use Rattle.std.specs.Option.{option_copied, option_map};
ghost use Rattle.model_solved.specs.SolvedView.{solved_expression};
ghost use Rattle.model_value.specs.Plain.{int};
ghost use Rattle.model_value.specs.View.{plain, plain_values};
ghost use Rattle.model_eval.specs.Operators.{truly as truth_of_right};
ghost use Rattle.world_state.specs.Answer.{Answers, running};
ghost use Rattle.model_eval.specs.Answer.{EvaluatesBoth, GivesInt, evaluates_by, operates_by};

use crate::evaluator::enter;
use crate::here::Here;
use crate::operator::{operate, operate_on_ints, truth};
use model_solved::SolvedExpr;
use model_tree::BinaryOp;
use model_value::Value;
use world_state::{Budget, EvalStop, State};

/// An operator with its two sides.
#[derive(Clone, Copy)]
pub struct Operation<'a> {
    pub op: BinaryOp,
    pub left: &'a SolvedExpr,
    pub right: &'a SolvedExpr,
}

impl Here<'_> {
    /// What an operator gives of its sides, where so many more may be open. No value is made of sides that are Ints already.
    #[cycle(evaluate)]
    #[inline(always)]
    #[tactic(auto, using(crate::proofs::Steps::by_room))]
    pub fn evaluate_operation(
        &self,
        room: u32,
        operation: Operation<'_>,
        locals: &[Value],
        state: &mut State,
        budget: &mut Budget,
    ) -> Result<Value, EvalStop>
        ensures { let inside = record (self.now.starter) { room = room } in
            Answers result state.new budget.new
            (operates_by inside self.now.object operation.entry.op (solved_expression operation.entry.left.now)
            (solved_expression operation.entry.right.now) (plain_values locals.now) (running state.old budget.old)) }
    {
        match self.int_sides(operation, locals, state) {
            Some((left, right)) => {
                // Each of the two leaves takes a step of its own, and holds nothing open.
                enter(room, budget)?;
                enter(room, budget)?;
                operate_on_ints(operation.op, left, right)
            }
            None => self.evaluate_sides(room, operation, locals, state, budget),
        }
    }

    /// The same, whatever the sides are. This slow way stands in an inlined function of its own, with a `?` at its end, so that
    /// the fast way has none of its temporaries.
    #[cycle(evaluate)]
    #[inline(always)]
    fn evaluate_sides(
        &self,
        room: u32,
        operation: Operation<'_>,
        locals: &[Value],
        state: &mut State,
        budget: &mut Budget,
    ) -> Result<Value, EvalStop>
        ensures { let inside = record (self.now.starter) { room = room } in
            Answers result state.new budget.new
            (operates_by inside self.now.object operation.entry.op (solved_expression operation.entry.left.now)
            (solved_expression operation.entry.right.now) (plain_values locals.now) (running state.old budget.old)) }
    {
        let here = self.with_room(room);
        Ok(here.evaluate_binary(operation, locals, state, budget)?)
    }

    /// The Ints of both sides, where these are leaves and the operator evaluates both. The right one is asked first: it is the
    /// one that more often has parts of its own, and then the left one is not read.
    #[inline(always)]
    fn int_sides(
        &self,
        operation: Operation<'_>,
        locals: &[Value],
        state: &State,
    ) -> Option<(i64, i64)>
        ensures { let object = self.now.object in
            IfSome result (λ ints. EvaluatesBoth operation.entry.op
            × GivesInt state.now object (solved_expression operation.entry.left.now) (plain_values locals.now) ints.0
            × GivesInt state.now object (solved_expression operation.entry.right.now)
            (plain_values locals.now) ints.1) }
    {
        if matches!(operation.op, BinaryOp::Or | BinaryOp::And) {
            return None;
        }
        let right = self.int_of_leaf(operation.right, locals, state)?;
        let left = self.int_of_leaf(operation.left, locals, state)?;
        Some((left, right))
    }

    /// The Int that a leaf gives, where it gives one.
    #[inline(always)]
    fn int_of_leaf(&self, leaf: &SolvedExpr, locals: &[Value], state: &State) -> Option<i64>
        ensures { IfSome result (λ number.
            GivesInt state.now self.now.object (solved_expression leaf.now) (plain_values locals.now) number) }
    {
        match leaf {
            SolvedExpr::Int(number) => Some(*number),
            SolvedExpr::Local { slot } => held_int(locals.get(*slot)),
            SolvedExpr::Field { slot } => held_int(state.objects.field(self.object, *slot)),
            _ => None,
        }
    }

    /// What an operator gives of its sides. It is not inlined, since each place that evaluates an expression would hold it.
    #[cycle(evaluate)]
    #[inline(never)]
    pub fn evaluate_binary(
        &self,
        operation: Operation<'_>,
        locals: &[Value],
        state: &mut State,
        budget: &mut Budget,
    ) -> Result<Value, EvalStop>
        ensures { let here = self.now in
            Answers result state.new budget.new
            (operates_by here.starter here.object operation.entry.op (solved_expression operation.entry.left.now)
            (solved_expression operation.entry.right.now) (plain_values locals.now) (running state.old budget.old)) }
    {
        let (left, right) = (operation.left, operation.right);
        match operation.op {
            BinaryOp::Or => return self.evaluate_or(left, right, locals, state, budget),
            BinaryOp::And => return self.evaluate_and(left, right, locals, state, budget),
            _ => {}
        }
        let left = self.evaluate(left, locals, state, budget)?;
        let right = self.evaluate(right, locals, state, budget)?;
        operate(operation.op, left, right)
    }

    /// What `||` gives. The right side is evaluated only where the left is false.
    #[cycle(evaluate)]
    fn evaluate_or(
        &self,
        left: &SolvedExpr,
        right: &SolvedExpr,
        locals: &[Value],
        state: &mut State,
        budget: &mut Budget,
    ) -> Result<Value, EvalStop>
        ensures { let here = self.now in
            Answers result state.new budget.new
            (operates_by here.starter here.object BinaryOp.Or (solved_expression left.now) (solved_expression right.now)
            (plain_values locals.now) (running state.old budget.old)) }
    {
        let value = self.evaluate(left, locals, state, budget)?;
        if truth(&value)? {
            Ok(Value::Bool(true))
        } else {
            self.evaluate_truth(right, locals, state, budget)
        }
    }

    /// What `&&` gives. The right side is evaluated only where the left is true.
    #[cycle(evaluate)]
    fn evaluate_and(
        &self,
        left: &SolvedExpr,
        right: &SolvedExpr,
        locals: &[Value],
        state: &mut State,
        budget: &mut Budget,
    ) -> Result<Value, EvalStop>
        ensures { let here = self.now in
            Answers result state.new budget.new
            (operates_by here.starter here.object BinaryOp.And (solved_expression left.now)
            (solved_expression right.now) (plain_values locals.now) (running state.old budget.old)) }
    {
        let value = self.evaluate(left, locals, state, budget)?;
        if truth(&value)? {
            self.evaluate_truth(right, locals, state, budget)
        } else {
            Ok(Value::Bool(false))
        }
    }

    /// The right side of `||` and `&&`, which has to be a truth.
    #[cycle(evaluate)]
    fn evaluate_truth(
        &self,
        right: &SolvedExpr,
        locals: &[Value],
        state: &mut State,
        budget: &mut Budget,
    ) -> Result<Value, EvalStop>
        ensures { let here = self.now in
            Answers result state.new budget.new
            (truth_of_right (evaluates_by here.starter here.object (solved_expression right.now)
            (plain_values locals.now)) (running state.old budget.old)) }
    {
        let value = self.evaluate(right, locals, state, budget)?;
        Ok(Value::Bool(truth(&value)?))
    }
}

/// The Int that a place holds, where it is one.
#[inline(always)]
fn held_int(place: Option<&Value>) -> Option<i64>
    ensures { IfSome result (λ number. option_map plain (option_copied place.entry) ≡ Some (int number)) }
{
    match place {
        Some(Value::Int(number)) => Some(*number),
        _ => None,
    }
}
