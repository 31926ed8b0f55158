//! The command `check`: how many classes and methods a program has, or its first fault.
ghost use Rattle.std.specs.Prelude.{◌<◌};
ghost use Rattle.model_solved.specs.Founding.{checked_tree};
ghost use Rattle.commands.specs.Verdict.{Free, OfProgram, Only, count_verdict};
ghost use Rattle.commands.specs.Work.{IsBoundedNext, Leads, reads_left};

use crate::work::Next;
use command_outcome::{CommandRefusal, Outcome, ProgramFault, Puts, counts_line, read_program};
use model_solved::Checked;
use std::alloc::Global;
use tea_base::{Blob, WantOfMemory};

/// What comes of a program without faults.
fn count(alloc: Global, program: &Checked) -> Next
    ensures leads { Leads result (Free (Only (count_verdict (checked_tree program.now)))) }
    ensures bounded { IsBoundedNext result }
    ensures fewer { reads_left result < 1 }
{
    match counts_line(alloc, program) {
        Ok(line) => Next::Gives(Outcome {
            files: Puts::new(alloc),
            text: Blob::from_vec(line.into_bytes()),
        }),
        Err(WantOfMemory) => Next::WantOfMemory,
    }
}

/// `check PROGRAM`, once its program was read.
pub(crate) fn check(alloc: Global, text: &[u8]) -> Next
    ensures leads { Leads result (Free (OfProgram (λ tree. Only (count_verdict tree)) text.now)) }
    ensures bounded { IsBoundedNext result }
    ensures fewer { reads_left result < 1 }
{
    match read_program(alloc, text) {
        Ok(program) => count(alloc, &program),
        Err(ProgramFault::Refused { line }) => Next::Refuses(CommandRefusal::Program { line }),
        Err(ProgramFault::WantOfMemory) => Next::WantOfMemory,
    }
}
