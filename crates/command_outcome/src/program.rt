//! Programs, read from their texts and checked.
ghost use Rattle.std.specs.Prelude.{◌≡◌, [], ◌∷◌, ◌++◌, IfOk, codes};
ghost use Rattle.text_lines.specs.Lines.{spell_numbers};
ghost use Rattle.command_outcome.specs.ProgramText.{bound_word, named_line};
ghost use Rattle.command_outcome.specs.declared.program.ProgramFault.TheVariants.{WantOfMemory};
ghost use Rattle.command_outcome.specs.ProgramEnd.{IsUnread, IsUnsound, ProgramEnd};

use model_check::check;
use model_lang::{LangFault, parse};
use model_solved::{CheckFault, Checked};
use model_tree::Bound;
use std::alloc::Global;
use tea_base::{Blob, Text, WantOfMemory};
use text_lines::spell_numbers;

/// Why a text gives no program.
#[derive(Debug, Drop)]
pub enum ProgramFault {
    /// It is refused, with the line that tells why.
    Refused { line: Blob },
    WantOfMemory,
}

impl From<tea_base::WantOfMemory> for ProgramFault {
    ghost from_gives = { λ _ fault. fault ≡ WantOfMemory };

    fn from(_: tea_base::WantOfMemory) -> Self {
        ProgramFault::WantOfMemory
    }
}

/// The line of words and a number.
fn numbered_line(alloc: Global, words: &str, number: u64) -> Result<Blob, WantOfMemory>
    ensures { IfOk result (λ line. line ≡ spell_numbers words.now (number ∷ []) ++ codes "\n") }
{
    let mut line = spell_numbers(alloc, words, &[number])?;
    line.push_str("\n")?;
    Ok(Blob::from_vec(line.into_bytes()))
}

/// What a bound that is passed is told by.
fn bound_word(what: Bound) -> &'static str
    ensures { result.now ≡ bound_word what }
{
    match what {
        Bound::Bytes => "too-large bytes",
        Bound::Brackets => "too-large brackets",
        Bound::Operators => "too-large operators",
        Bound::Classes => "too-large classes",
        Bound::Fields => "too-large fields",
        Bound::Methods => "too-large methods",
        Bound::Parameters => "too-large parameters",
    }
}

/// The fault of a text that is not read, with its line.
fn reading_fault(alloc: Global, fault: LangFault) -> Result<ProgramFault, WantOfMemory>
    ensures { IfOk result (IsUnread fault) }
{
    match fault {
        LangFault::Syntax { at } => Ok(ProgramFault::Refused {
            line: numbered_line(alloc, "syntax", u64::from(at))?,
        }),
        LangFault::TooLarge { what, count } => Ok(ProgramFault::Refused {
            line: numbered_line(alloc, bound_word(what), count)?,
        }),
        LangFault::WantOfMemory => Ok(ProgramFault::WantOfMemory),
    }
}

/// A line of a word and a name.
fn named_line(alloc: Global, word: &str, name: &Text) -> Result<Blob, WantOfMemory>
    ensures { IfOk result (λ line. line ≡ named_line word.now name.now) }
{
    let mut line = String::from_str(alloc, word)?;
    line.push_str(name.as_str())?;
    line.push_str("\n")?;
    Ok(Blob::from_vec(line.into_bytes()))
}

/// The fault of a program that a check refuses, with its line.
fn soundness_fault(alloc: Global, fault: CheckFault) -> Result<ProgramFault, WantOfMemory>
    ensures { IfOk result (IsUnsound fault) }
{
    let line = match fault {
        CheckFault::Twice { name } => named_line(alloc, "twice ", &name)?,
        CheckFault::NoName { name } => named_line(alloc, "no-name ", &name)?,
        CheckFault::NoClass { name } => named_line(alloc, "no-class ", &name)?,
        CheckFault::NoField { name } => named_line(alloc, "no-field ", &name)?,
        CheckFault::Count { name } => named_line(alloc, "count ", &name)?,
        CheckFault::NoRoot => Blob::copy(alloc, b"no-root\n")?,
        CheckFault::WantOfMemory => return Err(WantOfMemory),
    };
    Ok(ProgramFault::Refused { line })
}

/// The program that a text spells, without faults.
pub fn read_program(alloc: Global, text: &[u8]) -> Result<Checked, ProgramFault>
    ensures { ProgramEnd result text.now }
{
    let program = match parse(alloc, text) {
        Ok(program) => program,
        Err(fault) => return Err(reading_fault(alloc, fault)?),
    };
    match check(alloc, program) {
        Ok(checked) => Ok(checked),
        Err(fault) => Err(soundness_fault(alloc, fault)?),
    }
}
