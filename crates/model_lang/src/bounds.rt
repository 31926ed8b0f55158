//! The bounds of a program.
ghost use Rattle.std.specs.Prelude.{◌≡◌, ◌↔◌, ◌≤◌, IsTrue, map};
ghost use Rattle.model_tree.specs.TreeView.{expression_tree, expression_trees, statement_tree, statement_trees, method_tree, program_tree};
ghost use Rattle.model_tree.specs.Bounds.{greatest, count_after, most_nested, most_arguments, how_many, above as too_many, first_found, many_arguments as many_in_expression, all_many_arguments, many_in_statement, many_in_block, many_in_methods, many_parameters, many_fields as too_many_fields, many_methods as too_many_methods, first_excess as first_passed};
ghost use Rattle.model_lang.specs.Counts.{count_symbol};

use model_tokens::{Symbol, Token};
use model_tree::{Bound, Class, Expr, Method, Stmt};

/// The most bytes of a program's text.
pub const MOST_PROGRAM_BYTES: usize = 65_536;

/// The most brackets that are open at a token, and the most operators since the last `,`, `;`, `{` or `}`.
pub const MOST_NESTED: usize = 32;

/// The most fields of a class, and the most methods.
const MOST_MEMBERS: usize = 256;

/// The most parameters of a method, and the most arguments of a call or a future.
const MOST_ARGUMENTS: usize = 16;

/// What is counted along the tokens of a text.
#[derive(Clone, Copy, Debug, PartialEq, Eq)]
pub enum TokenCount {
    /// Brackets that are open. A closing one closes the last, of whatever kind, if there is one.
    Brackets,
    /// Operators since the last `,`, `;`, `{` or `}`.
    Operators,
}

/// Whether a count stays within the bound at each token.
#[tactic(auto, using(crate::proofs::Counts::by_greatest))]
pub fn stays_low(tokens: &[Token], what: TokenCount) -> bool
    ensures { IsTrue result ↔ greatest (count_symbol what) 0 tokens.now ≤ most_nested }
{
    let mut count = 0;
    for token in tokens {
        count = after_token(what, count, token);
        if count > MOST_NESTED {
            return false;
        }
    }
    true
}

fn after_token(what: TokenCount, count: usize, token: &Token) -> usize
    requires { count ≤ most_nested }
    ensures { result ≡ count_after (count_symbol what) count token.now }
{
    match token {
        Token::Symbol(symbol) => after_symbol(what, count, *symbol),
        _ => count,
    }
}

fn after_symbol(what: TokenCount, count: usize, symbol: Symbol) -> usize
    requires { count ≤ most_nested }
    ensures { result ≡ count_symbol what count symbol }
{
    match what {
        TokenCount::Brackets => match symbol {
            Symbol::OpenBrace | Symbol::OpenRound | Symbol::OpenSquare => count + 1,
            Symbol::CloseBrace | Symbol::CloseRound | Symbol::CloseSquare => {
                count.saturating_sub(1)
            }
            _ => count,
        },
        TokenCount::Operators => match symbol {
            Symbol::Comma | Symbol::Semicolon | Symbol::OpenBrace | Symbol::CloseBrace => 0,
            Symbol::OpenRound
            | Symbol::CloseRound
            | Symbol::OpenSquare
            | Symbol::CloseSquare
            | Symbol::Assign => count,
            _ => count + 1,
        },
    }
}

/// The first bound that a program passes, with the first count that is above it.
pub fn first_excess(classes: &[Class]) -> Option<(Bound, u64)>
    ensures { result ≡ first_passed (program_tree classes.now) }
{
    if let Some(count) = above(classes.len(), MOST_MEMBERS) {
        return Some((Bound::Classes, count));
    }
    if let Some(count) = many_fields(classes) {
        return Some((Bound::Fields, count));
    }
    if let Some(count) = many_methods(classes) {
        return Some((Bound::Methods, count));
    }
    let count = in_classes(classes)?;
    Some((Bound::Parameters, count))
}

/// A count that is above its bound.
fn above(count: usize, most: usize) -> Option<u64>
    ensures { result ≡ too_many most count }
{
    if count > most {
        return Some(count as u64);
    }
    None
}

/// The first of two counts that are above a bound.
fn first_count(one: Option<u64>, other: Option<u64>) -> Option<u64>
    ensures { result ≡ first_found one other }
{
    match one {
        Some(found) => Some(found),
        None => other,
    }
}

fn many_fields(classes: &[Class]) -> Option<u64>
    ensures { result ≡ too_many_fields (program_tree classes.now) }
{
    for class in classes {
        if let Some(count) = above(class.fields.len(), MOST_MEMBERS) {
            return Some(count);
        }
    }
    None
}

fn many_methods(classes: &[Class]) -> Option<u64>
    ensures { result ≡ too_many_methods (program_tree classes.now) }
{
    for class in classes {
        if let Some(count) = above(class.methods.len(), MOST_MEMBERS) {
            return Some(count);
        }
    }
    None
}

fn in_classes(classes: &[Class]) -> Option<u64>
    ensures { result ≡ many_parameters (program_tree classes.now) }
{
    for class in classes {
        if let Some(count) = in_methods(&class.methods) {
            return Some(count);
        }
    }
    None
}

fn in_methods(methods: &[Method]) -> Option<u64>
    ensures { result ≡ many_in_methods (map method_tree methods.now) }
{
    for method in methods {
        let params = above(method.params.len(), MOST_ARGUMENTS);
        if let Some(count) = first_count(params, in_statements(&method.body)) {
            return Some(count);
        }
    }
    None
}

#[cycle(statements)]
fn in_statements(statements: &[Stmt]) -> Option<u64>
    ensures { result ≡ many_in_block (statement_trees statements.now) }
{
    for statement in statements {
        if let Some(count) = in_statement(statement) {
            return Some(count);
        }
    }
    None
}

#[cycle(statements)]
fn in_statement(statement: &Stmt) -> Option<u64>
    ensures { result ≡ many_in_statement (statement_tree statement.now) }
{
    match statement {
        Stmt::Let { value, .. }
        | Stmt::Assign { value, .. }
        | Stmt::SetField { value, .. }
        | Stmt::Return { value }
        | Stmt::Do { value } => in_expression(value),
        Stmt::If {
            test,
            yes,
            no: None,
        } => first_count(in_expression(test), first_count(in_statements(yes), None)),
        Stmt::If {
            test,
            yes,
            no: Some(no),
        } => first_count(
            in_expression(test),
            first_count(in_statements(yes), in_statements(no)),
        ),
        Stmt::While { test, body } => first_count(in_expression(test), in_statements(body)),
    }
}

#[cycle(expressions)]
fn in_expressions(expressions: &[Expr]) -> Option<u64>
    ensures { result ≡ all_many_arguments (expression_trees expressions.now) }
{
    for expression in expressions {
        if let Some(count) = in_expression(expression) {
            return Some(count);
        }
    }
    None
}

#[cycle(expressions)]
#[tactic(auto, using(crate::proofs::Counts::by_count))]
fn in_arguments(args: &[Expr]) -> Option<u64>
    ensures { result ≡ first_found (too_many most_arguments (how_many (expression_trees args.now)))
        (all_many_arguments (expression_trees args.now)) }
{
    first_count(above(args.len(), MOST_ARGUMENTS), in_expressions(args))
}

#[cycle(expressions)]
fn in_expression(expression: &Expr) -> Option<u64>
    ensures { result ≡ many_in_expression (expression_tree expression.now) }
{
    match expression {
        Expr::Nil
        | Expr::Bool(_)
        | Expr::Int(_)
        | Expr::Text(_)
        | Expr::This
        | Expr::Local { .. }
        | Expr::Field { .. } => None,
        Expr::List { items } => in_expressions(items),
        Expr::Unary { of, .. } => in_expression(of),
        Expr::Binary { left, right, .. } => first_count(in_expression(left), in_expression(right)),
        Expr::Builtin { args, .. } => in_expressions(args),
        Expr::Call { object, args, .. } => first_count(in_expression(object), in_arguments(args)),
        Expr::Future {
            object,
            delay,
            args,
            ..
        } => first_count(
            in_expression(object),
            first_count(in_expression(delay), in_arguments(args)),
        ),
        Expr::Create { options, .. } => in_expression(options),
    }
}
