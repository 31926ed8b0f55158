//! Hints on programs that are refused.
use crate::names::names_hint;
use crate::place::{Source, push_hint};
use crate::syntax::syntax_hint;
use crate::tokens::{is_operator, spelling, token_span};
use model_lang::{LangFault, parse};
use model_tokens::{TokenFault, place_of_token, tokens};
use model_tree::Bound;
use std::alloc::Global;
use tea_base::WantOfMemory;

/// How many brackets are open at most, and how many operators follow one another.
const MOST_NESTED: usize = 32;

/// The first token at which more brackets are open, or more operators have come, than may be.
fn first_above(alloc: Global, text: &[u8], what: Bound) -> Result<usize, WantOfMemory> {
    let tokens = match tokens(alloc, text) {
        Ok(tokens) => tokens,
        Err(TokenFault::NoToken) => return Ok(0),
        Err(TokenFault::WantOfMemory) => return Err(WantOfMemory),
    };
    let mut count: usize = 0;
    for (number, token) in tokens.as_slice().iter().enumerate() {
        count = counted(what, count, spelling(Some(token)));
        if count > MOST_NESTED {
            return Ok(place_of_token(text, number) as usize);
        }
    }
    Ok(0)
}

/// How many are open, or have come, after a token.
fn counted(what: Bound, count: usize, word: &str) -> usize {
    if what == Bound::Brackets {
        return match word {
            "(" | "[" | "{" => count.saturating_add(1),
            ")" | "]" | "}" => count.saturating_sub(1),
            _ => count,
        };
    }
    match word {
        "," | ";" | "{" | "}" => 0,
        "." | "!" => count.saturating_add(1),
        _ if is_operator(word) => count.saturating_add(1),
        _ => count,
    }
}

/// What is too large, in words.
fn bound_text(what: Bound) -> &'static str {
    match what {
        Bound::Bytes => "the program has more than 65,536 bytes",
        Bound::Brackets =>
            "more than 32 brackets are open: give a part of the expression a name by `let`, or make it a method",
        Bound::Operators =>
            "more than 32 operators follow one another without a `,`, `;`, `{` or `}`: divide the expression by `let`",
        Bound::Classes => "the program has more than 256 classes",
        Bound::Fields => "a class has more than 256 fields: a list holds many values in one field",
        Bound::Methods => "a class has more than 256 methods",
        Bound::Parameters =>
            "a method, a call or a `future` has more than 16 parameters: hand over a list",
    }
}

/// A hint on a bound that a program passes.
fn bound_hint(alloc: Global, source: Source<'_, '_>, what: Bound) -> Result<String, WantOfMemory> {
    let Source { file, text } = source;
    let message = bound_text(what);
    match what {
        Bound::Brackets | Bound::Operators => {
            let mut out = String::new(alloc);
            let at = first_above(alloc, text, what)?;
            push_hint(alloc, &mut out, source, token_span(text, at), message)?;
            Ok(out)
        }
        _ => Ok(format!(in alloc; "{file}: {message}\n")?),
    }
}

/// Hints on a text that is refused as a program, up to twenty.
pub fn program_hint(alloc: Global, source: Source<'_, '_>) -> Result<String, WantOfMemory> {
    let text = source.text;
    match parse(alloc, text) {
        Ok(_program) => match tokens(alloc, text) {
            Ok(tokens) => names_hint(alloc, source, tokens.as_slice()),
            Err(TokenFault::NoToken) => Ok(String::new(alloc)),
            Err(TokenFault::WantOfMemory) => Err(WantOfMemory),
        },
        Err(LangFault::Syntax { at }) => syntax_hint(alloc, source, at as usize),
        Err(LangFault::TooLarge { what, .. }) => bound_hint(alloc, source, what),
        Err(LangFault::WantOfMemory) => Err(WantOfMemory),
    }
}
