//! The command `votes`: what the votes on a recorded session come to.
ghost use Rattle.std.specs.Prelude.{◌<◌};
ghost use Rattle.commands.specs.Verdict.{Free, OfLog, Only, votes_verdict};
ghost use Rattle.commands.specs.Work.{IsBoundedNext, Leads, reads_left};

use crate::opening::read_log;
use crate::work::Next;
use command_outcome::{CommandRefusal, Input, Outcome, Puts};
use session_log::{Log, LogFault};
use std::alloc::Global;
use tea_base::{Blob, WantOfMemory};

/// What comes of a log.
fn count(alloc: Global, log: &Log) -> Next
    ensures leads { Leads result (Free (Only (votes_verdict log.now.entries))) }
    ensures bounded { IsBoundedNext result }
    ensures fewer { reads_left result < 1 }
{
    match command_votes::votes(alloc, log) {
        Ok(text) => Next::Gives(Outcome {
            files: Puts::new(alloc),
            text: Blob::from_vec(text.into_bytes()),
        }),
        Err(WantOfMemory) => Next::WantOfMemory,
    }
}

/// `votes LOG`, once its log was read.
pub(crate) fn votes(alloc: Global, bytes: &[u8]) -> Next
    ensures leads { Leads result (Free (OfLog (λ source. Only (votes_verdict source.stored.log)) bytes.now)) }
    ensures bounded { IsBoundedNext result }
    ensures fewer { reads_left result < 1 }
{
    match read_log(alloc, bytes) {
        Ok(source) => count(alloc, &source.stored.log),
        Err(LogFault::BadLog) => Next::Refuses(CommandRefusal::Input(Input::Log)),
        Err(LogFault::WantOfMemory) => Next::WantOfMemory,
    }
}
