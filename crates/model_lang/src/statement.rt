//! Statements and blocks, read from tokens.
ghost use Rattle.std.specs.Prelude.{[], length, map};
ghost use Rattle.model_lang.specs.Answer.{ParsesPart, FindsName};
ghost use Rattle.model_tree.specs.TreeView.{statement_tree, expression_tree};
ghost use Rattle.model_lang.specs.Reader.{read_block, read_actions, read_action, read_if, read_else, read_while, read_test, read_simple, read_let, read_ended, assign_head as read_assigned, set_at as read_set};

use crate::expression::expression;
use crate::fault::ParseStop;
use crate::front::{expect_symbol, name, name_at, symbol, word};
use model_tokens::{Symbol, Token, Word};
use model_tree::{Expr, Stmt};
use std::alloc::Global;
use tea_base::{Text, push};

/// Reads the statements of a block behind its opening brace, and the closing one. At most `room` blocks may stand one in
/// another.
#[cycle(block)]
#[tactic(auto, using(crate::proofs::Turns::by_room))]
pub fn block(
    alloc: Global,
    room: usize,
    tokens: &[Token],
) -> Result<(Vec<Stmt>, &[Token]), ParseStop>
    ensures { ParsesPart (λ found. map statement_tree found.items) result (read_block room tokens.now) }
{
    if room == 0 {
        return Err(ParseStop::at(tokens));
    }
    statements(alloc, room - 1, tokens)
}

#[cycle(block)]
#[tactic(auto, using(crate::proofs::Turns::by_turn))]
fn statements(
    alloc: Global,
    room: usize,
    tokens: &[Token],
) -> Result<(Vec<Stmt>, &[Token]), ParseStop>
    ensures { ParsesPart (λ found. map statement_tree found.items) result
        (read_actions (read_block room) (length tokens.now) [] tokens.now) }
{
    let mut found = Vec::new(alloc);
    let mut rest = tokens;
    for _turn in 0..tokens.len() {
        if let Some(behind) = symbol(rest, Symbol::CloseBrace) {
            return Ok((found, behind));
        }
        let (next, behind) = statement(alloc, room, rest)?;
        push(&mut found, next)?;
        rest = behind;
    }
    Err(ParseStop::at(rest))
}

#[cycle(block)]
fn statement(alloc: Global, room: usize, tokens: &[Token]) -> Result<(Stmt, &[Token]), ParseStop>
    ensures { ParsesPart statement_tree result (read_action (read_block room) tokens.now) }
{
    if let Some(rest) = word(tokens, Word::If) {
        return choice(alloc, room, rest);
    }
    if let Some(rest) = word(tokens, Word::While) {
        return while_statement(alloc, room, rest);
    }
    if let Some(rest) = word(tokens, Word::Let) {
        return declaration(alloc, rest);
    }
    if let Some(rest) = word(tokens, Word::Return) {
        let (value, rest) = value_end(alloc, rest)?;
        return Ok((Stmt::Return { value }, rest));
    }
    simple(alloc, tokens)
}

/// Behind `if`.
#[cycle(block)]
fn choice(alloc: Global, room: usize, tokens: &[Token]) -> Result<(Stmt, &[Token]), ParseStop>
    ensures { ParsesPart statement_tree result (read_if (read_block room) tokens.now) }
{
    let (test, rest) = condition(alloc, tokens)?;
    let (yes, rest) = block(alloc, room, rest)?;
    match word(rest, Word::Else) {
        Some(rest) => otherwise(alloc, room, test, yes, rest),
        None => Ok((
            Stmt::If {
                test,
                yes,
                no: None,
            },
            rest,
        )),
    }
}

/// Behind `else`.
#[cycle(block)]
#[tactic(auto, using(crate::proofs::Elses::else_tree))]
fn otherwise(
    alloc: Global,
    room: usize,
    test: Expr,
    yes: Vec<Stmt>,
    tokens: &[Token],
) -> Result<(Stmt, &[Token]), ParseStop>
    ensures { ParsesPart statement_tree result
        (read_else (read_block room) (expression_tree test) (map statement_tree yes.items) tokens.now) }
{
    let rest = expect_symbol(tokens, Symbol::OpenBrace)?;
    let (no, rest) = block(alloc, room, rest)?;
    Ok((
        Stmt::If {
            test,
            yes,
            no: Some(no),
        },
        rest,
    ))
}

/// Behind `while`.
#[cycle(block)]
fn while_statement(
    alloc: Global,
    room: usize,
    tokens: &[Token],
) -> Result<(Stmt, &[Token]), ParseStop>
    ensures { ParsesPart statement_tree result (read_while (read_block room) tokens.now) }
{
    let (test, rest) = condition(alloc, tokens)?;
    let (body, rest) = block(alloc, room, rest)?;
    Ok((Stmt::While { test, body }, rest))
}

/// An expression in round brackets, and the opening brace behind it.
fn condition(alloc: Global, tokens: &[Token]) -> Result<(Expr, &[Token]), ParseStop>
    ensures { ParsesPart expression_tree result (read_test tokens.now) }
{
    let rest = expect_symbol(tokens, Symbol::OpenRound)?;
    let (test, rest) = expression(alloc, rest)?;
    let rest = expect_symbol(rest, Symbol::CloseRound)?;
    let rest = expect_symbol(rest, Symbol::OpenBrace)?;
    Ok((test, rest))
}

/// Behind `let`.
fn declaration(alloc: Global, tokens: &[Token]) -> Result<(Stmt, &[Token]), ParseStop>
    ensures { ParsesPart statement_tree result (read_let tokens.now) }
{
    let (name, rest) = name(tokens)?;
    let rest = expect_symbol(rest, Symbol::Assign)?;
    let (value, rest) = value_end(alloc, rest)?;
    Ok((Stmt::Let { name, value }, rest))
}

/// A statement that begins with no word of its own.
fn simple(alloc: Global, tokens: &[Token]) -> Result<(Stmt, &[Token]), ParseStop>
    ensures { ParsesPart statement_tree result (read_simple tokens.now) }
{
    if let Some((name, rest)) = assigned_at(tokens) {
        let name = name.try_clone()?;
        let (value, rest) = value_end(alloc, rest)?;
        return Ok((Stmt::Assign { name, value }, rest));
    }
    if let Some((name, rest)) = set_at(tokens) {
        let name = name.try_clone()?;
        let (value, rest) = value_end(alloc, rest)?;
        return Ok((Stmt::SetField { name, value }, rest));
    }
    let (value, rest) = value_end(alloc, tokens)?;
    Ok((Stmt::Do { value }, rest))
}

/// A name and a `=`.
fn assigned_at(tokens: &[Token]) -> Option<(&Text, &[Token])>
    ensures { FindsName result (read_assigned tokens.now) }
{
    let (name, rest) = name_at(tokens)?;
    let rest = symbol(rest, Symbol::Assign)?;
    Some((name, rest))
}

/// `this`, `.`, a name and a `=`.
fn set_at(tokens: &[Token]) -> Option<(&Text, &[Token])>
    ensures { FindsName result (read_set tokens.now) }
{
    let rest = word(tokens, Word::This)?;
    let rest = symbol(rest, Symbol::Dot)?;
    assigned_at(rest)
}

/// An expression and the `;` behind it.
fn value_end(alloc: Global, tokens: &[Token]) -> Result<(Expr, &[Token]), ParseStop>
    ensures { ParsesPart expression_tree result (read_ended tokens.now) }
{
    let (value, rest) = expression(alloc, tokens)?;
    let rest = expect_symbol(rest, Symbol::Semicolon)?;
    Ok((value, rest))
}
