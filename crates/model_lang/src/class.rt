//! Classes, read from the front of the tokens.
ghost use Rattle.std.specs.Prelude.{[], length, map};
ghost use Rattle.model_lang.specs.Answer.{ParsesPart, ReadsAll};
ghost use Rattle.model_tree.specs.TreeView.{class_tree, method_tree};
ghost use Rattle.model_lang.specs.Reader.{read_class, read_members, read_fields, read_methods, read_method, read_body, read_params, read_further, read_program};

use crate::fault::ParseStop;
use crate::front::{class_name, expect_symbol, expect_word, name, symbol, word};
use crate::statement::block;
use model_tokens::{Symbol, Token, Word};
use model_tree::{Class, Method};
use std::alloc::Global;
use tea_base::{Text, push};

/// Reads `program = class class*`, all the tokens.
#[tactic(auto, using(crate::proofs::Turns::by_turn))]
pub fn program(alloc: Global, tokens: &[Token]) -> Result<Vec<Class>, ParseStop>
    ensures { ReadsAll result (read_program tokens.now) }
{
    let mut found = Vec::new(alloc);
    let (first, mut rest) = class(alloc, tokens)?;
    push(&mut found, first)?;
    for _turn in 0..tokens.len() {
        if rest.is_empty() {
            return Ok(found);
        }
        let (next, behind) = class(alloc, rest)?;
        push(&mut found, next)?;
        rest = behind;
    }
    if !rest.is_empty() {
        return Err(ParseStop::at(rest));
    }
    Ok(found)
}

/// Reads `class = "class" CName "{" ("field" name ";")* method* "}"`.
fn class(alloc: Global, tokens: &[Token]) -> Result<(Class, &[Token]), ParseStop>
    ensures { ParsesPart class_tree result (read_class tokens.now) }
{
    let rest = expect_word(tokens, Word::Class)?;
    let (name, rest) = class_name(rest)?;
    let rest = expect_symbol(rest, Symbol::OpenBrace)?;
    members(alloc, name, rest)
}

fn members(alloc: Global, name: Text, tokens: &[Token]) -> Result<(Class, &[Token]), ParseStop>
    ensures { ParsesPart class_tree result (read_members name tokens.now) }
{
    let (fields, rest) = fields(alloc, tokens)?;
    let (methods, rest) = methods(alloc, rest)?;
    let class = Class {
        name,
        fields,
        methods,
    };
    Ok((class, rest))
}

#[tactic(auto, using(crate::proofs::Turns::by_turn))]
fn fields(alloc: Global, tokens: &[Token]) -> Result<(Vec<Text>, &[Token]), ParseStop>
    ensures { ParsesPart (λ found. found.items) result (read_fields (length tokens.now) [] tokens.now) }
{
    let mut found = Vec::new(alloc);
    let mut rest = tokens;
    for _turn in 0..tokens.len() {
        let Some(behind) = word(rest, Word::Field) else {
            return Ok((found, rest));
        };
        let (field, behind) = name(behind)?;
        rest = expect_symbol(behind, Symbol::Semicolon)?;
        push(&mut found, field)?;
    }
    Ok((found, rest))
}

/// Methods, up to the closing brace.
#[tactic(auto, using(crate::proofs::Turns::by_turn))]
fn methods(alloc: Global, tokens: &[Token]) -> Result<(Vec<Method>, &[Token]), ParseStop>
    ensures { ParsesPart (λ found. map method_tree found.items) result
        (read_methods (length tokens.now) [] tokens.now) }
{
    let mut found = Vec::new(alloc);
    let mut rest = tokens;
    for _turn in 0..tokens.len() {
        if let Some(behind) = symbol(rest, Symbol::CloseBrace) {
            return Ok((found, behind));
        }
        let (next, behind) = method(alloc, rest)?;
        push(&mut found, next)?;
        rest = behind;
    }
    Err(ParseStop::at(rest))
}

fn method(alloc: Global, tokens: &[Token]) -> Result<(Method, &[Token]), ParseStop>
    ensures { ParsesPart method_tree result (read_method tokens.now) }
{
    let (name, rest) = name(tokens)?;
    let rest = expect_symbol(rest, Symbol::OpenRound)?;
    let (params, rest) = params(alloc, rest)?;
    body(alloc, name, params, rest)
}

fn body(
    alloc: Global,
    name: Text,
    params: Vec<Text>,
    tokens: &[Token],
) -> Result<(Method, &[Token]), ParseStop>
    ensures { ParsesPart method_tree result (read_body name params.items tokens.now) }
{
    let rest = expect_symbol(tokens, Symbol::OpenBrace)?;
    let (body, rest) = block(alloc, rest.len(), rest)?;
    let method = Method { name, params, body };
    Ok((method, rest))
}

/// Parameters, and the closing bracket.
fn params(alloc: Global, tokens: &[Token]) -> Result<(Vec<Text>, &[Token]), ParseStop>
    ensures { ParsesPart (λ found. found.items) result (read_params tokens.now) }
{
    let mut found = Vec::new(alloc);
    if let Some(rest) = symbol(tokens, Symbol::CloseRound) {
        return Ok((found, rest));
    }
    let (first, rest) = name(tokens)?;
    push(&mut found, first)?;
    further(tokens.len(), found, rest)
}

#[tactic(auto, using(crate::proofs::Turns::by_turn))]
fn further(
    turns: usize,
    mut found: Vec<Text>,
    tokens: &[Token],
) -> Result<(Vec<Text>, &[Token]), ParseStop>
    ensures { ParsesPart (λ found. found.items) result (read_further turns found.items tokens.now) }
{
    let mut rest = tokens;
    for _turn in 0..turns {
        let Some(behind) = symbol(rest, Symbol::Comma) else {
            let behind = expect_symbol(rest, Symbol::CloseRound)?;
            return Ok((found, behind));
        };
        let (next, behind) = name(behind)?;
        push(&mut found, next)?;
        rest = behind;
    }
    Err(ParseStop::at(rest))
}
