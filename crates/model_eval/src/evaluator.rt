//! Expressions and statements, form by form.
ghost use Rattle.std.specs.Prelude.{[], ◌∷◌, ◌<◌, ◌≡◌, IfOk, Some, None, slice_get};
ghost use Rattle.model_tree.specs.Tree.{ClassTree};
ghost use Rattle.model_solved.specs.Founding.{checked_tree};
ghost use Rattle.model_solved.specs.SolvedView.{solved_expression, solved_expressions, solved_statement, solved_statements, solved_method};
ghost use Rattle.model_value.specs.Plain.{ref};
ghost use Rattle.model_value.specs.View.{plain, plain_values};
ghost use Rattle.world_state.specs.Running.{and_then, Gives};
ghost use Rattle.model_eval.specs.Builtins.{run_builtin, on_event};
ghost use Rattle.model_eval.specs.Publishing.{run_handlers, handle, publish, tell_handlers};
ghost use Rattle.model_eval.specs.Meaning.{call_on, create_object, run_init};
ghost use Rattle.model_eval.specs.Slots.{block as block_of, room_inside, evaluate_all, expression_row as row_of_expression, in_turn, loop_turns, perform, statement_row as row_of_statement};
ghost use Rattle.world_state.specs.Answer.{Answers, Did, running};
ghost use Rattle.model_eval.specs.Answer.{AnswersAll, Enters, Proceeds, TakesStep, evaluates_by, executes_by, notice_of, starts_by};
ghost use Rattle.world_state.specs.declared.state.State.{State};

use crate::arguments::handler_args;
use crate::builtins::answer;
use crate::calls::Event;
use crate::events::announce;
use crate::here::{Here, Starter};
use crate::locals::{Frame, assign, declare, get_local, leave};
use crate::messages::send;
use crate::methods::init_of;
use crate::operation::Operation;
use crate::operator::{operate_on_one, truth};
use crate::values::{list_of, literal, only};
use model_solved::{Builtin, Solved, SolvedExpr, SolvedStmt};
use model_value::{Value, Values};
use pubsub::Handler;
use tea_base::{List, Text};
use world_state::{Budget, EvalStop, Fault, State, get_slot, is_held, make, set_slot};

/// What follows on a statement.
#[derive(Drop)]
pub enum Flow {
    /// The next one.
    Next,
    /// The method ends with the value that its frame holds.
    Return,
}

impl Here<'_> {
    /// What an expression gives. The forms that programs have most come first, and take no call where they have no parts.
    #[cycle(evaluate)]
    #[inline(always)]
    #[tactic(auto, using(crate::proofs::Steps::by_room))]
    pub fn evaluate(
        &self,
        expr: &SolvedExpr,
        locals: &[Value],
        state: &mut State,
        budget: &mut Budget,
    ) -> Result<Value, EvalStop>
        ensures { let here = self.now in
            Answers result state.new budget.new
            (evaluates_by here.starter here.object (solved_expression expr.now) (plain_values locals.now)
            (running state.old budget.old)) }
    {
        let room = enter(self.starter.room, budget)?;
        match expr {
            SolvedExpr::Int(number) => Ok(Value::Int(*number)),
            SolvedExpr::Local { slot } => get_local(self.starter.alloc, locals, *slot),
            SolvedExpr::Field { slot } => get_slot(self.starter.alloc, state, self.object, *slot),
            SolvedExpr::Binary { op, left, right } => {
                let operation = Operation {
                    op: *op,
                    left,
                    right,
                };
                self.evaluate_operation(room, operation, locals, state, budget)
            }
            _ => self.evaluate_inside(room, expr, locals, state, budget),
        }
    }

    /// What an expression gives, where so many more may be open. This slow way stands in an inlined function of its own, with
    /// a `?` at its end, so that the forms without parts have none of its temporaries.
    #[cycle(evaluate)]
    #[inline(always)]
    fn evaluate_inside(
        &self,
        room: u32,
        expr: &SolvedExpr,
        locals: &[Value],
        state: &mut State,
        budget: &mut Budget,
    ) -> Result<Value, EvalStop>
        ensures { let inside = record (self.now.starter) { room = room } in
            Answers result state.new budget.new
            (row_of_expression (checked_tree inside.program.now) (evaluates_by inside)
            (starts_by inside) self.now.object (solved_expression expr.now) (plain_values locals.now)
            (running state.old budget.old)) }
    {
        let here = self.with_room(room);
        Ok(here.expression_row(expr, locals, state, budget)?)
    }

    /// What each form of expressions gives, once it is entered. Ints, locals, fields and operators do not come here, since they
    /// are taken before; with them the table is whole. It is not inlined, since each place that evaluates would hold it.
    #[cycle(evaluate)]
    #[inline(never)]
    fn expression_row(
        &self,
        expr: &SolvedExpr,
        locals: &[Value],
        state: &mut State,
        budget: &mut Budget,
    ) -> Result<Value, EvalStop>
        ensures { let here = self.now in
            Answers result state.new budget.new
            (row_of_expression (checked_tree here.starter.program.now) (evaluates_by here.starter)
            (starts_by here.starter) here.object (solved_expression expr.now) (plain_values locals.now)
            (running state.old budget.old)) }
    {
        match expr {
            SolvedExpr::Nil => Ok(Value::Nil),
            SolvedExpr::Bool(truth) => Ok(Value::Bool(*truth)),
            SolvedExpr::Int(number) => Ok(Value::Int(*number)),
            SolvedExpr::Text(text) => literal(text),
            SolvedExpr::This => Ok(Value::Ref(self.object)),
            SolvedExpr::Local { slot } => get_local(self.starter.alloc, locals, *slot),
            SolvedExpr::Field { slot } => get_slot(self.starter.alloc, state, self.object, *slot),
            SolvedExpr::List { items } => {
                let values = self.evaluate_all(items, locals, state, budget)?;
                list_of(values, budget)
            }
            SolvedExpr::Unary { op, of } => {
                let value = self.evaluate(of, locals, state, budget)?;
                operate_on_one(*op, &value)
            }
            SolvedExpr::Binary { op, left, right } => {
                let operation = Operation {
                    op: *op,
                    left,
                    right,
                };
                self.evaluate_binary(operation, locals, state, budget)
            }
            SolvedExpr::Builtin { name, args } => {
                let values = self.evaluate_all(args, locals, state, budget)?;
                self.call_builtin(*name, &values, state, budget)
            }
            SolvedExpr::Call { object, name, args } => {
                let object = self.evaluate(object, locals, state, budget)?;
                let values = self.evaluate_all(args, locals, state, budget)?;
                self.starter.call(&object, name, values, state, budget)
            }
            SolvedExpr::Future {
                object,
                delay,
                name,
                args,
            } => {
                let object = self.evaluate(object, locals, state, budget)?;
                let delay = self.evaluate(delay, locals, state, budget)?;
                let values = self.evaluate_all(args, locals, state, budget)?;
                send(state, &object, &delay, name, values)
            }
            SolvedExpr::Create { class, options } => {
                let options = self.evaluate(options, locals, state, budget)?;
                self.starter.create(*class, options, state, budget)
            }
        }
    }

    /// What expressions give, from the first one on.
    #[cycle(evaluate)]
    fn evaluate_all(
        &self,
        exprs: &[SolvedExpr],
        locals: &[Value],
        state: &mut State,
        budget: &mut Budget,
    ) -> Result<Values, EvalStop>
        ensures { let here = self.now in
            AnswersAll result state.new budget.new
            (evaluate_all (evaluates_by here.starter) here.object (solved_expressions exprs.now)
            (plain_values locals.now) [] (running state.old budget.old)) }
    {
        let mut values = List::new(self.starter.alloc);
        for expr in exprs {
            let value = self.evaluate(expr, locals, state, budget)?;
            values.push(value)?;
        }
        Ok(values)
    }

    /// What a builtin answers. Publishing alone starts methods.
    #[cycle(evaluate)]
    fn call_builtin(
        &self,
        builtin: Builtin,
        args: &Values,
        state: &mut State,
        budget: &mut Budget,
    ) -> Result<Value, EvalStop>
        ensures { let here = self.now in
            Answers result state.new budget.new
            (run_builtin (checked_tree here.starter.program.now) (starts_by here.starter) builtin here.object
            (plain_values args.now) (running state.old budget.old)) }
    {
        match builtin {
            Builtin::Publish => self.starter.publish(args.as_slice(), state, budget),
            _ => answer(self, builtin, args, state, budget),
        }
    }

    /// Runs a statement.
    #[cycle(evaluate)]
    #[tactic(auto, using(crate::proofs::Steps::by_room))]
    fn execute(
        &self,
        stmt: &SolvedStmt,
        frame: &mut Frame,
        state: &mut State,
        budget: &mut Budget,
    ) -> Result<Flow, EvalStop>
        ensures { let here = self.now in
            Proceeds result frame.new state.new budget.new
            (executes_by here.starter here.object (solved_statement stmt.now) (plain_values frame.old.locals.items)
            (running state.old budget.old)) }
    {
        let room = enter(self.starter.room, budget)?;
        self.with_room(room)
            .statement_row(stmt, frame, state, budget)
    }

    /// What each form of statements does, once it is entered.
    #[cycle(evaluate)]
    fn statement_row(
        &self,
        stmt: &SolvedStmt,
        frame: &mut Frame,
        state: &mut State,
        budget: &mut Budget,
    ) -> Result<Flow, EvalStop>
        ensures { let here = self.now in
            Proceeds result frame.new state.new budget.new
            (row_of_statement (evaluates_by here.starter) (executes_by here.starter) here.object
            (solved_statement stmt.now) (plain_values frame.old.locals.items) (running state.old budget.old)) }
    {
        match stmt {
            SolvedStmt::Let { slot, value } => {
                let value = self.evaluate(value, &frame.locals, state, budget)?;
                declare(&mut frame.locals, *slot, value)?;
                Ok(Flow::Next)
            }
            SolvedStmt::Assign { slot, value } => {
                let value = self.evaluate(value, &frame.locals, state, budget)?;
                assign(&mut frame.locals, *slot, value);
                Ok(Flow::Next)
            }
            SolvedStmt::SetField { slot, value } => {
                let value = self.evaluate(value, &frame.locals, state, budget)?;
                set_slot(state, self.object, *slot, value)?;
                Ok(Flow::Next)
            }
            SolvedStmt::If { test, yes, no } => {
                let value = self.evaluate(test, &frame.locals, state, budget)?;
                if truth(&value)? {
                    self.run_block(yes, frame, state, budget)
                } else if let Some(block) = no {
                    self.run_block(block, frame, state, budget)
                } else {
                    Ok(Flow::Next)
                }
            }
            SolvedStmt::While { test, body } => self.run_loop(test, body, frame, state, budget),
            SolvedStmt::Return { value } => {
                let value = self.evaluate(value, &frame.locals, state, budget)?;
                frame.returned = value;
                Ok(Flow::Return)
            }
            SolvedStmt::Do { value } => {
                self.evaluate(value, &frame.locals, state, budget)?;
                Ok(Flow::Next)
            }
        }
    }

    /// Runs a loop. Each test takes a step of fuel, so there are at most so many turns as there are steps left. It is not
    /// inlined, so that other statements hold nothing of it.
    #[cycle(evaluate)]
    #[inline(never)]
    #[tactic(auto, using(crate::proofs::Steps::by_turn))]
    fn run_loop(
        &self,
        test: &SolvedExpr,
        body: &[SolvedStmt],
        frame: &mut Frame,
        state: &mut State,
        budget: &mut Budget,
    ) -> Result<Flow, EvalStop>
        ensures { let here = self.now in
            Proceeds result frame.new state.new budget.new
            (loop_turns budget.old.fuel (evaluates_by here.starter) (executes_by here.starter) here.object
            (solved_expression test.now) (solved_statements body.now) (plain_values frame.old.locals.items)
            (running state.old budget.old)) }
    {
        let turns = budget.fuel;
        for _turn in 0..turns {
            let value = self.evaluate(test, &frame.locals, state, budget)?;
            if !truth(&value)? {
                return Ok(Flow::Next);
            }
            let flow = self.run_block(body, frame, state, budget)?;
            if matches!(flow, Flow::Return) {
                return Ok(flow);
            }
        }
        // No step is left, and another test would end so too.
        Err(EvalStop::Fault(Fault::Fuel))
    }

    /// Runs a block. Behind a block the locals are those that were there before it.
    #[cycle(evaluate)]
    #[tactic(auto, using(crate::proofs::Steps::by_local))]
    fn run_block(
        &self,
        stmts: &[SolvedStmt],
        frame: &mut Frame,
        state: &mut State,
        budget: &mut Budget,
    ) -> Result<Flow, EvalStop>
        ensures { let here = self.now in
            Proceeds result frame.new state.new budget.new
            (block_of (executes_by here.starter) here.object (solved_statements stmts.now)
            (plain_values frame.old.locals.items) (running state.old budget.old)) }
    {
        let before = frame.locals.len();
        let flow = self.run_in_turn(stmts, frame, state, budget)?;
        if matches!(flow, Flow::Next) {
            leave(&mut frame.locals, before);
        }
        Ok(flow)
    }

    /// Runs statements one behind another, until one returns.
    #[cycle(evaluate)]
    fn run_in_turn(
        &self,
        stmts: &[SolvedStmt],
        frame: &mut Frame,
        state: &mut State,
        budget: &mut Budget,
    ) -> Result<Flow, EvalStop>
        ensures { let here = self.now in
            Proceeds result frame.new state.new budget.new
            (in_turn (executes_by here.starter) here.object (solved_statements stmts.now)
            (plain_values frame.old.locals.items) (running state.old budget.old)) }
    {
        for stmt in stmts {
            let flow = self.execute(stmt, frame, state, budget)?;
            if matches!(flow, Flow::Return) {
                return Ok(flow);
            }
        }
        Ok(Flow::Next)
    }
}

impl Starter<'_> {
    /// Starts a method on an object.
    #[cycle(evaluate)]
    pub fn start(
        &self,
        object: u32,
        method: &Text,
        args: Values,
        state: &mut State,
        budget: &mut Budget,
    ) -> Result<Value, EvalStop>
        ensures { Answers result state.new budget.new
            (starts_by self.now object method.now (plain_values args) (running state.old budget.old)) }
    {
        let class = match state.objects.class(object) {
            None => return Err(EvalStop::Fault(Fault::NoObject)),
            Some(class) => class,
        };
        match self.program.method(class, method) {
            None => Err(EvalStop::Fault(Fault::NoMethod)),
            Some(solved) => self.perform(object, solved, args, state, budget),
        }
    }

    /// Runs a method on an object.
    #[cycle(evaluate)]
    fn perform(
        &self,
        object: u32,
        solved: &Solved,
        args: Values,
        state: &mut State,
        budget: &mut Budget,
    ) -> Result<Value, EvalStop>
        ensures { Answers result state.new budget.new
            (perform (checked_tree self.now.program.now) self.now.room object (solved_method solved.now)
            (plain_values args) (running state.old budget.old)) }
    {
        if args.len() != solved.params as usize {
            return Err(EvalStop::Fault(Fault::Arity));
        }
        let here = Here {
            starter: *self,
            object,
        };
        let mut frame = Frame::new(args.into_vec());
        match here.run_in_turn(&solved.body, &mut frame, state, budget)? {
            Flow::Next => Ok(Value::Nil),
            Flow::Return => Ok(frame.returned),
        }
    }

    /// Starts a method on what a value refers to.
    #[cycle(evaluate)]
    fn call(
        &self,
        object: &Value,
        method: &Text,
        args: Values,
        state: &mut State,
        budget: &mut Budget,
    ) -> Result<Value, EvalStop>
        ensures { Answers result state.new budget.new
            (call_on (starts_by self.now) (plain object.now) method.now (plain_values args)
            (running state.old budget.old)) }
    {
        match object {
            Value::Ref(object) => self.start(*object, method, args, state, budget),
            _ => Err(EvalStop::Fault(Fault::BadKind)),
        }
    }

    /// A new object of a class, whose method `init` starts with the options, where its class has one.
    #[cycle(evaluate)]
    fn create(
        &self,
        class: u16,
        options: Value,
        state: &mut State,
        budget: &mut Budget,
    ) -> Result<Value, EvalStop>
        ensures { let tree = checked_tree self.now.program.now in
            Answers result state.new budget.new
            (create_object (starts_by self.now) class (slice_get tree class) (plain options)
            (running state.old budget.old)) }
    {
        // A checked program has each class that it makes objects of.
        let Some(fields) = self.program.fields(class) else {
            return Err(EvalStop::Fault(Fault::BadKind));
        };
        let id = make(self.alloc, state, class, fields)?;
        self.initialise(class, id, options, state, budget)
    }

    /// Starts the method `init` of a new object, where its class has one, and answers the object.
    #[cycle(evaluate)]
    fn initialise(
        &self,
        class: u16,
        id: u32,
        options: Value,
        state: &mut State,
        budget: &mut Budget,
    ) -> Result<Value, EvalStop>
        ensures { let tree = checked_tree self.now.program.now in (c : ClassTree) → slice_get tree class ≡ Some c →
            Answers result state.new budget.new
            (run_init (starts_by self.now) c (plain options) id (running state.old budget.old)) }
    {
        match init_of(self.alloc, self.program, class)? {
            None => Ok(Value::Ref(id)),
            Some(init) => self.start_init(id, &init, options, state, budget),
        }
    }

    /// Starts a method of a new object with the one argument, and answers the object.
    #[cycle(evaluate)]
    fn start_init(
        &self,
        id: u32,
        init: &Text,
        options: Value,
        state: &mut State,
        budget: &mut Budget,
    ) -> Result<Value, EvalStop>
        ensures { Answers result state.new budget.new
            (and_then (starts_by self.now id init.now (plain options ∷ []) (running state.old budget.old)) (λ _.
            Gives (ref id))) }
    {
        let args = only(self.alloc, options)?;
        self.start(id, init, args, state, budget)?;
        Ok(Value::Ref(id))
    }

    /// Publishes an event: its scope, its name and a value, where it has these three arguments.
    #[cycle(evaluate)]
    fn publish(
        &self,
        args: &[Value],
        state: &mut State,
        budget: &mut Budget,
    ) -> Result<Value, EvalStop>
        ensures { Answers result state.new budget.new
            (on_event (publish (checked_tree self.now.program.now) (starts_by self.now)) (plain_values args.now)
            (running state.old budget.old)) }
    {
        match args {
            [scope, name, value] => self.publish_to(scope, name, value, state, budget),
            // A checked program gives three arguments.
            _ => Err(EvalStop::Fault(Fault::BadKind)),
        }
    }

    /// Publishes an event, where its scope and its name are texts.
    #[cycle(evaluate)]
    fn publish_to(
        &self,
        scope: &Value,
        name: &Value,
        value: &Value,
        state: &mut State,
        budget: &mut Budget,
    ) -> Result<Value, EvalStop>
        ensures { Answers result state.new budget.new
            (on_event (publish (checked_tree self.now.program.now) (starts_by self.now))
            (plain scope.now ∷ plain name.now ∷ plain value.now ∷ []) (running state.old budget.old)) }
    {
        match (scope, name) {
            (Value::Text(scope), Value::Text(name)) => {
                let event = Event {
                    scope,
                    name,
                    value,
                    sender: None,
                };
                self.publish_event(&event, state, budget)
            }
            _ => Err(EvalStop::Fault(Fault::BadKind)),
        }
    }

    /// An event stands behind all that was published, and models are told of it.
    #[cycle(evaluate)]
    fn publish_event(
        &self,
        event: &Event<'_>,
        state: &mut State,
        budget: &mut Budget,
    ) -> Result<Value, EvalStop>
        requires { event.now.sender ≡ None }
        ensures { Answers result state.new budget.new
            (publish (checked_tree self.now.program.now) (starts_by self.now) event.now.scope.now event.now.name.now
            (plain event.now.value.now) (running state.old budget.old)) }
    {
        announce(self.alloc, event, state)?;
        self.tell(event, state, budget)?;
        Ok(Value::Nil)
    }

    /// Tells models of an event: the methods that are subscribed to it now start with the value, in order, each unless its
    /// object is gone. One with two parameters also gets the view that sent it.
    #[cycle(evaluate)]
    pub fn tell(
        &self,
        event: &Event<'_>,
        state: &mut State,
        budget: &mut Budget,
    ) -> Result<(), EvalStop>
        ensures { Did result state.new budget.new
            (tell_handlers (checked_tree self.now.program.now)
            (starts_by self.now) event.now.scope.now event.now.name.now (notice_of event.now)
            (running state.old budget.old)) }
    {
        let handlers = state.topics.handlers(event.scope, event.name)?;
        self.tell_all(handlers.as_slice(), event, state, budget)
    }

    /// Starts the methods that handle an event, in order.
    #[cycle(evaluate)]
    fn tell_all(
        &self,
        handlers: &[Handler],
        event: &Event<'_>,
        state: &mut State,
        budget: &mut Budget,
    ) -> Result<(), EvalStop>
        ensures { Did result state.new budget.new
            (run_handlers (checked_tree self.now.program.now) (starts_by self.now) (notice_of event.now) handlers.now
            (running state.old budget.old)) }
    {
        for handler in handlers {
            self.tell_one(handler, event, state, budget)?;
        }
        Ok(())
    }

    /// Starts one such method and takes a step for it, unless its object is gone.
    #[cycle(evaluate)]
    fn tell_one(
        &self,
        handler: &Handler,
        event: &Event<'_>,
        state: &mut State,
        budget: &mut Budget,
    ) -> Result<(), EvalStop>
        ensures { Did result state.new budget.new
            (handle (checked_tree self.now.program.now) (starts_by self.now) (notice_of event.now) handler.now
            (running state.old budget.old)) }
    {
        if !is_held(state, handler.object) {
            return Ok(());
        }
        take_step(budget)?;
        let args = handler_args(self, handler, event, state)?;
        self.start(handler.object, &handler.method, args, state, budget)?;
        Ok(())
    }
}

/// Enters a statement or an expression, where so many may be open: takes a step, and answers how many more may be open.
pub fn enter(room: u32, budget: &mut Budget) -> Result<u32, EvalStop>
    ensures answers { Enters result budget.new (λ (state : State). room_inside room (running state budget.old)) }
    ensures less { IfOk result (λ inside. inside < room) }
{
    take_step(budget)?;
    if room == 0 {
        return Err(EvalStop::Fault(Fault::Depth));
    }
    Ok(room - 1)
}

/// Takes a step of fuel.
fn take_step(budget: &mut Budget) -> Result<(), EvalStop>
    ensures { TakesStep result budget.old budget.new }
{
    if budget.fuel == 0 {
        return Err(EvalStop::Fault(Fault::Fuel));
    }
    budget.fuel -= 1;
    Ok(())
}
