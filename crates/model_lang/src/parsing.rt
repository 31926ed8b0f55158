//! A text, read as a program.
ghost use Rattle.std.specs.Prelude.{◌≡◌, ℕ, List, length};
ghost use Rattle.model_tokens.specs.declared.token.Token.{Token as Held};
ghost use Rattle.model_tree.specs.Tree.{ProgramTree};
ghost use Rattle.model_tree.specs.Grammar.{Derives};
ghost use Rattle.model_tree.specs.Program.{IsRead, Reading, IsReading};
ghost use Rattle.model_lang.specs.Answer.{Parses, ParsesTokens, IsPlaced};

use crate::bounds::{MOST_NESTED, MOST_PROGRAM_BYTES, TokenCount, first_excess, stays_low};
use crate::class::program;
use crate::fault::{LangFault, ParseStop};
use model_tokens::{Token, TokenFault, one_division, place_of_fault, place_of_token, tokens};
use model_tree::{Bound, Class, Program};
use std::alloc::Global;

/// The first count of brackets or operators that is above the bound.
const ONE_TOO_MANY: u64 = MOST_NESTED as u64 + 1;

/// Reads the program that a text spells.
///
/// # Errors
///
/// `TooLarge` and `Syntax`, of which the first in this order comes: more than 65,536 bytes; no list of tokens; more than 32
/// brackets that are open at a token; more than 32 operators since the last `,`, `;`, `{` or `}`; tokens that are no
/// program; more than 256 classes; a class with more than 256 fields; one with more than 256 methods; more than 16
/// parameters of a method or arguments of a call or a future.
pub fn parse(alloc: Global, text: &[u8]) -> Result<Program, LangFault>
    ensures reading { Parses result text.now }
    ensures place { IsPlaced result (length text.now) }
{
    if text.len() > MOST_PROGRAM_BYTES {
        return Err(LangFault::TooLarge {
            what: Bound::Bytes,
            count: text.len() as u64,
        });
    }
    let tokens = match tokens(alloc, text) {
        Ok(tokens) => tokens,
        Err(TokenFault::NoToken) => {
            return Err(LangFault::Syntax {
                at: place_of_fault(text),
            });
        }
        Err(TokenFault::WantOfMemory) => return Err(LangFault::WantOfMemory),
    };
    // If these tokens are refused, so is the text, which is divided in no other way.
    one_division(); // for the prover
    Ok(Program::of_classes(whole(alloc, text, tokens.as_slice())?))
}

/// The classes that all the tokens of this text spell.
fn whole(alloc: Global, text: &[u8], tokens: &[Token]) -> Result<Vec<Class>, LangFault>
    ensures reading { ParsesTokens result tokens.now }
    ensures place { IsPlaced result (length text.now) }
{
    if !stays_low(tokens, TokenCount::Brackets) {
        return Err(LangFault::TooLarge {
            what: Bound::Brackets,
            count: ONE_TOO_MANY,
        });
    }
    if !stays_low(tokens, TokenCount::Operators) {
        return Err(LangFault::TooLarge {
            what: Bound::Operators,
            count: ONE_TOO_MANY,
        });
    }
    let classes = match program(alloc, tokens) {
        Ok(classes) => classes,
        Err(ParseStop::NoProgram { left }) => {
            return Err(LangFault::Syntax {
                at: place_of_token(text, tokens.len().saturating_sub(left)),
            });
        }
        Err(ParseStop::WantOfMemory) => return Err(LangFault::WantOfMemory),
    };
    match first_excess(&classes) {
        Some((what, count)) => Err(LangFault::TooLarge { what, count }),
        None => Ok(classes),
    }
}

/// The grammar is unambiguous: tokens stand for one program, or for none.
pub fn one_derivation()
    ensures { (tokens : List Held) (tree other : ProgramTree) → Derives tokens tree → Derives tokens other
        → tree ≡ other }
{}

/// A text is read as one tree, or as none.
pub fn one_tree()
    ensures { (text : List ℕ) (tree other : ProgramTree) → IsRead text tree → IsRead text other → tree ≡ other }
{
    one_division();
}

/// Of each text one thing comes: a program, none, or a bound that it passes.
pub fn one_reading()
    ensures one { (text : List ℕ) (reading other : Reading) → IsReading text reading → IsReading text other
        → reading ≡ other }
    ensures some { (text : List ℕ) → ¬ ((reading : Reading) → ¬ IsReading text reading) }
{
    one_division();
}
