//! Canonical texts of programs.
use model_lang::{LangFault, parse};
use model_print::print;
use model_tree::Bound;
use std::alloc::Global;
use tea_base::{Blob, WantOfMemory};

/// The canonical text of a program, as bytes.
fn print_canonical(alloc: Global, text: &[u8]) -> Result<Blob, LangFault> {
    let program = parse(alloc, text)?;
    Ok(print(alloc, &program)?)
}

/// The word for a bound.
fn word_of(bound: Bound) -> &'static str {
    match bound {
        Bound::Bytes => "bytes",
        Bound::Brackets => "brackets",
        Bound::Operators => "operators",
        Bound::Classes => "classes",
        Bound::Fields => "fields",
        Bound::Methods => "methods",
        Bound::Parameters => "parameters",
    }
}

/// The canonical text of a program, or why the text is none.
pub(crate) fn canonical(alloc: Global, text: &[u8]) -> Result<String, WantOfMemory> {
    match print_canonical(alloc, text) {
        Ok(printed) => Ok(String::from_utf8_lossy(alloc, printed.bytes())?),
        Err(LangFault::Syntax { at }) => Ok(format!(in alloc; "syntax {at}")?),
        Err(LangFault::TooLarge { what, count }) => {
            Ok(format!(in alloc; "too-large {} {count}", word_of(what))?)
        }
        Err(LangFault::WantOfMemory) => Err(WantOfMemory),
    }
}
