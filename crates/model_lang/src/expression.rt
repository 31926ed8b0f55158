//! Expressions, read from tokens.
ghost use Rattle.std.specs.Prelude.{◌-◌, [], map, Result, Ok, Err};
ghost use Rattle.model_lang.specs.Answer.{ParsesPart, FindsName, Makes};
ghost use Rattle.model_tree.specs.Tree.{binary, call, create, expressions_of, future, unary};
ghost use Rattle.model_tree.specs.TreeView.{expression_tree};
ghost use Rattle.model_lang.specs.Lines.{line_number};
ghost use Rattle.model_lang.specs.Reader.{read_expression, read_operator_line, read_unary, read_post, read_suffix, read_call, read_future, read_prim, read_word, read_opened, read_named, read_this, field_at as read_field, read_create, read_args, read_more};

use crate::fault::ParseStop;
use crate::front::{call_head, create_head, expect_symbol, message_head, name_at, symbol, word};
use crate::operators::{Line, operator_at, sign_at};
use model_tokens::{Symbol, Token, Word};
use model_tree::{BinaryOp, Expr, UnaryOp};
use std::alloc::Global;
use tea_base::{Text, WantOfMemory, push};

/// Reads `expr`, with at most as many signs and brackets one in another as there are tokens.
pub fn expression(alloc: Global, tokens: &[Token]) -> Result<(Expr, &[Token]), ParseStop>
    ensures { ParsesPart expression_tree result (read_expression tokens.now) }
{
    line(alloc, tokens.len(), Line::Or, tokens)
}

/// An expression of this line or a tighter one.
#[cycle(line)]
#[tactic(auto, using(crate::proofs::Turns::by_line))]
fn line(
    alloc: Global,
    room: usize,
    line: Line,
    tokens: &[Token],
) -> Result<(Expr, &[Token]), ParseStop>
    ensures { ParsesPart expression_tree result (read_operator_line (read_unary room) (line_number line) tokens.now) }
{
    let (mut left, mut rest) = inner(alloc, room, line, tokens)?;
    for _turn in 0..line.turns(tokens.len()) {
        let Some((op, more)) = operator_at(line, rest) else {
            return Ok((left, rest));
        };
        let (right, behind) = inner(alloc, room, line, more)?;
        left = new_binary(alloc, op, left, right)?;
        rest = behind;
    }
    Ok((left, rest))
}

/// A side of an operator of this line.
#[cycle(line)]
fn inner(
    alloc: Global,
    room: usize,
    line: Line,
    tokens: &[Token],
) -> Result<(Expr, &[Token]), ParseStop>
    ensures { ParsesPart expression_tree result
        (read_operator_line (read_unary room) (line_number line - 1) tokens.now) }
{
    match line.tighter() {
        Some(tighter) => crate::expression::line(alloc, room, tighter, tokens),
        None => unary(alloc, room, tokens),
    }
}

fn new_unary(alloc: Global, op: UnaryOp, of: Expr) -> Result<Expr, WantOfMemory>
    ensures { Makes result (unary op (expression_tree of)) }
{
    Ok(Expr::Unary {
        op,
        of: Box::new(alloc, of)?,
    })
}

fn new_binary(alloc: Global, op: BinaryOp, left: Expr, right: Expr) -> Result<Expr, WantOfMemory>
    ensures { Makes result (binary op (expression_tree left) (expression_tree right)) }
{
    Ok(Expr::Binary {
        op,
        left: Box::new(alloc, left)?,
        right: Box::new(alloc, right)?,
    })
}

fn new_call(alloc: Global, object: Expr, name: &Text, args: Vec<Expr>) -> Result<Expr, WantOfMemory>
    ensures { Makes result (call (expression_tree object) name.now (expressions_of (map expression_tree args.items))) }
{
    Ok(Expr::Call {
        object: Box::new(alloc, object)?,
        name: name.clone()?,
        args,
    })
}

fn new_future(
    alloc: Global,
    object: Expr,
    delay: Expr,
    name: &Text,
    args: Vec<Expr>,
) -> Result<Expr, WantOfMemory>
    ensures { Makes result (future (expression_tree object) (expression_tree delay) name.now
        (expressions_of (map expression_tree args.items))) }
{
    Ok(Expr::Future {
        object: Box::new(alloc, object)?,
        delay: Box::new(alloc, delay)?,
        name: name.clone()?,
        args,
    })
}

fn new_create(alloc: Global, class: &Text, options: Expr) -> Result<Expr, WantOfMemory>
    ensures { Makes result (create class.now (expression_tree options)) }
{
    Ok(Expr::Create {
        class: class.clone()?,
        options: Box::new(alloc, options)?,
    })
}

/// Reads `unary = ("-" | "!") unary | post`.
#[cycle(line)]
#[tactic(auto, using(crate::proofs::Turns::by_room))]
fn unary(alloc: Global, room: usize, tokens: &[Token]) -> Result<(Expr, &[Token]), ParseStop>
    ensures { ParsesPart expression_tree result (read_unary room tokens.now) }
{
    if room == 0 {
        return Err(ParseStop::at(tokens));
    }
    let Some((op, rest)) = sign_at(tokens) else {
        return post(alloc, room - 1, tokens);
    };
    let (of, rest) = unary(alloc, room - 1, rest)?;
    Ok((new_unary(alloc, op, of)?, rest))
}

/// A prim, and the calls and futures behind it.
#[cycle(line)]
#[tactic(auto, using(crate::proofs::Turns::by_turn))]
fn post(alloc: Global, room: usize, tokens: &[Token]) -> Result<(Expr, &[Token]), ParseStop>
    ensures { ParsesPart expression_tree result (read_post (read_operator_line (read_unary room) 6) tokens.now) }
{
    let (mut object, mut rest) = prim(alloc, room, tokens)?;
    for _turn in 0..tokens.len() {
        let Some(behind) = symbol(rest, Symbol::Dot) else {
            return Ok((object, rest));
        };
        (object, rest) = suffix(alloc, room, object, behind)?;
    }
    Ok((object, rest))
}

/// Behind the `.` of a call or a future.
#[cycle(line)]
fn suffix(
    alloc: Global,
    room: usize,
    object: Expr,
    tokens: &[Token],
) -> Result<(Expr, &[Token]), ParseStop>
    ensures { ParsesPart expression_tree result
        (read_suffix (read_operator_line (read_unary room) 6) (expression_tree object) tokens.now) }
{
    match word(tokens, Word::Future) {
        Some(rest) => future(alloc, room, object, rest),
        None => call(alloc, room, object, tokens),
    }
}

#[cycle(line)]
#[tactic(auto, using(crate::proofs::Heads::by_head))]
fn call(
    alloc: Global,
    room: usize,
    object: Expr,
    tokens: &[Token],
) -> Result<(Expr, &[Token]), ParseStop>
    ensures { ParsesPart expression_tree result
        (read_call (read_operator_line (read_unary room) 6) (expression_tree object) tokens.now) }
{
    let (name, rest) = call_head(tokens)?;
    let (args, rest) = arguments(alloc, room, Symbol::CloseRound, rest)?;
    Ok((new_call(alloc, object, name, args)?, rest))
}

/// Behind `.future`.
#[cycle(line)]
#[tactic(auto, using(crate::proofs::Heads::by_head))]
fn future(
    alloc: Global,
    room: usize,
    object: Expr,
    tokens: &[Token],
) -> Result<(Expr, &[Token]), ParseStop>
    ensures { ParsesPart expression_tree result
        (read_future (read_operator_line (read_unary room) 6) (expression_tree object) tokens.now) }
{
    let rest = expect_symbol(tokens, Symbol::OpenRound)?;
    let (delay, rest) = line(alloc, room, Line::Or, rest)?;
    let (name, rest) = message_head(rest)?;
    let (args, rest) = arguments(alloc, room, Symbol::CloseRound, rest)?;
    Ok((new_future(alloc, object, delay, name, args)?, rest))
}

#[cycle(line)]
fn prim(alloc: Global, room: usize, tokens: &[Token]) -> Result<(Expr, &[Token]), ParseStop>
    ensures { ParsesPart expression_tree result (read_prim (read_operator_line (read_unary room) 6) tokens.now) }
{
    match tokens.split_first() {
        Some((Token::Number(number), rest)) => Ok((Expr::Int(*number), rest)),
        Some((Token::Text(text), rest)) => Ok((Expr::Text(text.try_clone()?), rest)),
        Some((Token::Name(name), rest)) => builtin_or_local(alloc, room, name.try_clone()?, rest),
        Some((Token::Word(word), rest)) => word_prim(alloc, room, *word, rest),
        Some((Token::Symbol(symbol), rest)) => bracket_prim(alloc, room, *symbol, rest),
        _ => Err(ParseStop::at(tokens)),
    }
}

/// Behind a name: the arguments of a builtin, or nothing.
#[cycle(line)]
fn builtin_or_local(
    alloc: Global,
    room: usize,
    name: Text,
    tokens: &[Token],
) -> Result<(Expr, &[Token]), ParseStop>
    ensures { ParsesPart expression_tree result (read_named (read_operator_line (read_unary room) 6) name tokens.now) }
{
    let Some(rest) = symbol(tokens, Symbol::OpenRound) else {
        return Ok((Expr::Local { name }, tokens));
    };
    let (args, rest) = arguments(alloc, room, Symbol::CloseRound, rest)?;
    Ok((Expr::Builtin { name, args }, rest))
}

/// Behind a word.
#[cycle(line)]
fn word_prim(
    alloc: Global,
    room: usize,
    word: Word,
    tokens: &[Token],
) -> Result<(Expr, &[Token]), ParseStop>
    ensures { ParsesPart expression_tree result (read_word (read_operator_line (read_unary room) 6) word tokens.now) }
{
    match word {
        Word::Nil => Ok((Expr::Nil, tokens)),
        Word::True => Ok((Expr::Bool(true), tokens)),
        Word::False => Ok((Expr::Bool(false), tokens)),
        Word::This => this(tokens),
        Word::Create => create(alloc, room, tokens),
        _ => Err(ParseStop::before(tokens)),
    }
}

/// Behind `this`.
fn this(tokens: &[Token]) -> Result<(Expr, &[Token]), ParseStop>
    ensures { ParsesPart expression_tree result (read_this tokens.now) }
{
    let Some((name, rest)) = field_at(tokens) else {
        return Ok((Expr::This, tokens));
    };
    Ok((
        Expr::Field {
            name: name.try_clone()?,
        },
        rest,
    ))
}

/// `.` and a name that no `(` follows.
fn field_at(tokens: &[Token]) -> Option<(&Text, &[Token])>
    ensures { FindsName result (read_field tokens.now) }
{
    let rest = symbol(tokens, Symbol::Dot)?;
    let (name, rest) = name_at(rest)?;
    match symbol(rest, Symbol::OpenRound) {
        Some(_) => None,
        None => Some((name, rest)),
    }
}

#[cycle(line)]
#[tactic(auto, using(crate::proofs::Heads::by_head))]
fn create(alloc: Global, room: usize, tokens: &[Token]) -> Result<(Expr, &[Token]), ParseStop>
    ensures { ParsesPart expression_tree result (read_create (read_operator_line (read_unary room) 6) tokens.now) }
{
    let (class, rest) = create_head(tokens)?;
    let (options, rest) = line(alloc, room, Line::Or, rest)?;
    let rest = expect_symbol(rest, Symbol::CloseRound)?;
    Ok((new_create(alloc, class, options)?, rest))
}

/// Behind a symbol that opens an expression in brackets or a list.
#[cycle(line)]
fn bracket_prim(
    alloc: Global,
    room: usize,
    bracket: Symbol,
    tokens: &[Token],
) -> Result<(Expr, &[Token]), ParseStop>
    ensures { ParsesPart expression_tree result
        (read_opened (read_operator_line (read_unary room) 6) bracket tokens.now) }
{
    match bracket {
        Symbol::OpenRound => {
            let (inside, rest) = line(alloc, room, Line::Or, tokens)?;
            let rest = expect_symbol(rest, Symbol::CloseRound)?;
            Ok((inside, rest))
        }
        Symbol::OpenSquare => {
            let (items, rest) = arguments(alloc, room, Symbol::CloseSquare, tokens)?;
            Ok((Expr::List { items }, rest))
        }
        _ => Err(ParseStop::before(tokens)),
    }
}

/// Reads `args = [expr ("," expr)*]?`, and the closing bracket.
#[cycle(line)]
fn arguments(
    alloc: Global,
    room: usize,
    close: Symbol,
    tokens: &[Token],
) -> Result<(Vec<Expr>, &[Token]), ParseStop>
    ensures { ParsesPart (λ args. map expression_tree args.items) result
        (read_args close (read_operator_line (read_unary room) 6) tokens.now) }
{
    let mut found = Vec::new(alloc);
    if let Some(rest) = symbol(tokens, close) {
        return Ok((found, rest));
    }
    let (first, rest) = line(alloc, room, Line::Or, tokens)?;
    push(&mut found, first)?;
    further(alloc, room, close, tokens.len(), found, rest)
}

#[cycle(line)]
#[tactic(auto, using(crate::proofs::Turns::by_turn))]
fn further(
    alloc: Global,
    room: usize,
    close: Symbol,
    turns: usize,
    mut found: Vec<Expr>,
    tokens: &[Token],
) -> Result<(Vec<Expr>, &[Token]), ParseStop>
    ensures { ParsesPart (λ args. map expression_tree args.items) result
        (read_more close (read_operator_line (read_unary room) 6) turns (map expression_tree found.items) tokens.now) }
{
    let mut rest = tokens;
    for _turn in 0..turns {
        let Some(more) = symbol(rest, Symbol::Comma) else {
            let behind = expect_symbol(rest, close)?;
            return Ok((found, behind));
        };
        let (next, behind) = line(alloc, room, Line::Or, more)?;
        push(&mut found, next)?;
        rest = behind;
    }
    Err(ParseStop::at(rest))
}
