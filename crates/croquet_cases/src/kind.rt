//! What cases are of, and what they come to.
use crate::net_case::{NetCase, NetCommand};
use crate::net_run::run_case;
use crate::telling::told_run;
use crate::words::text_of;
use crate::{command, moments, stretch};
use case_lines::CaseFault;
use std::sync::Wait;
use std::thread::Threads;

/// What cases are of.
#[derive(Clone, Copy, Drop)]
pub(crate) enum CommandCases {
    Commands,
    Inspects,
    Traces,
    Views,
    Lives,
    Reflectors,
}

impl CommandCases {
    /// The kind of a word, if there is one.
    pub(crate) fn of_word(word: &str) -> Option<CommandCases> {
        match word {
            "commands" => Some(CommandCases::Commands),
            "inspects" => Some(CommandCases::Inspects),
            "traces" => Some(CommandCases::Traces),
            "views" => Some(CommandCases::Views),
            "lives" => Some(CommandCases::Lives),
            "reflectors" => Some(CommandCases::Reflectors),
            _ => None,
        }
    }
}

/// What the bytes of a case come to, in one line.
pub(crate) fn outcome<R: Threads + Wait + Sync + AllocGlobal>(
    rt: &R,
    kind: CommandCases,
    case: &[u8],
) -> Result<String, CaseFault> {
    let case = text_of(case)?;
    match kind {
        CommandCases::Commands => command::outcome(rt, case),
        CommandCases::Inspects => moments::outcome(rt, case),
        CommandCases::Traces => stretch::outcome(rt, case),
        CommandCases::Views => tell_net_case(rt, NetCommand::Join, case),
        CommandCases::Lives => tell_net_case(rt, NetCommand::Live, case),
        CommandCases::Reflectors => tell_net_case(rt, NetCommand::Reflect, case),
    }
}

fn tell_net_case<R: Threads + Wait + Sync + AllocGlobal>(
    rt: &R,
    command: NetCommand,
    case: &str,
) -> Result<String, CaseFault> {
    let case = NetCase::read(rt.alloc(), command, case)?;
    let run = run_case(rt, &case)?;
    Ok(told_run(rt.alloc(), &case, &run)?)
}
