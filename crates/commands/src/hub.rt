//! The command `hub`: a script's requests to many sessions, their replies, and each session as it is stored after them.
ghost use Rattle.std.specs.Prelude.{◌<◌};
ghost use Rattle.command_hub.specs.HubScript.{AreNamed, hub_script_of};
ghost use Rattle.commands.specs.Verdict.{Free, OfHubScript, Only, hub_verdict};
ghost use Rattle.commands.specs.Work.{IsBoundedNext, Leads, reads_left};

use crate::work::Next;
use command_hub::{HubLines, hub_outcome, read_hub_script};
use command_outcome::{CommandRefusal, Input};
use std::alloc::Global;
use tea_base::{Text, WantOfMemory};

/// What comes of the requests.
fn answer(alloc: Global, logs: Option<Text>, lines: &HubLines) -> Next
    requires { AreNamed lines.now }
    ensures leads { Leads result (Free (Only (hub_verdict logs lines.now))) }
    ensures bounded { IsBoundedNext result }
    ensures fewer { reads_left result < 1 }
{
    match hub_outcome(alloc, logs, lines) {
        Ok(outcome) => Next::Gives(outcome),
        Err(WantOfMemory) => Next::WantOfMemory,
    }
}

/// `hub SCRIPT [--logs PREFIX]`, once its script was read.
pub(crate) fn hub(alloc: Global, logs: Option<Text>, script: &[u8]) -> Next
    ensures leads { Leads result (Free (OfHubScript logs (hub_script_of script.now))) }
    ensures bounded { IsBoundedNext result }
    ensures fewer { reads_left result < 1 }
{
    match read_hub_script(alloc, script) {
        Ok(Some(lines)) => answer(alloc, logs, &lines),
        Ok(None) => Next::Refuses(CommandRefusal::Input(Input::Script)),
        Err(WantOfMemory) => Next::WantOfMemory,
    }
}
