//! A case of `join` or `reflect`, and its parts.
use crate::faults::{Faults, NONE};
use crate::words::{add_numbers, number_of};
use case_lines::{CaseFault, lines_of};
use std::alloc::Global;
use tea_base::Numbers;

/// What stands between two parts.
const BETWEEN: &str = " | ";

/// Which command a case is of.
#[derive(Clone, Copy)]
pub(crate) enum NetCommand {
    Join,
    /// `join` whose lines come to its run.
    Live,
    Reflect,
}

/// A case: words of the command, what its files hold, its links as they are written, and what fails.
#[derive(Drop)]
pub(crate) struct NetCase<'a> {
    pub(crate) command: NetCommand,
    pub(crate) name: &'a str,
    pub(crate) address: &'a str,
    /// The number of the view, or how many links the reflector accepts.
    pub(crate) number: &'a str,
    pub(crate) program: &'a str,
    pub(crate) script: Vec<u8>,
    /// The lines of the script, divided by ` / `.
    pub(crate) lines: &'a str,
    /// Which calls of the feed tell nothing.
    pub(crate) idle: Numbers,
    pub(crate) links: Vec<&'a str>,
    pub(crate) faults: Faults,
}

impl<'a> NetCase<'a> {
    /// The case that is written so.
    pub(crate) fn read(
        alloc: Global,
        command: NetCommand,
        case: &'a str,
    ) -> Result<NetCase<'a>, CaseFault> {
        let mut parts = case.split(BETWEEN);
        let head = parts.next().unwrap_or_default();
        let program = parts.next().ok_or(CaseFault::NoCase)?;
        let mut case = NetCase::of_words(alloc, command, head, program)?;
        for part in parts {
            case.add(part)?;
        }
        Ok(case)
    }

    /// A case of `NAME VIEW SCRIPT`, or of `NAME N`, and a program, with no link.
    fn of_words(
        alloc: Global,
        command: NetCommand,
        head: &'a str,
        program: &'a str,
    ) -> Result<NetCase<'a>, CaseFault> {
        let (name, rest) = head.split_once(' ').ok_or(CaseFault::NoCase)?;
        let (number, script) = match command {
            NetCommand::Join | NetCommand::Live => rest.split_once(' ').ok_or(CaseFault::NoCase)?,
            NetCommand::Reflect => (rest, "-"),
        };
        let script = if script == "-" { "" } else { script };
        Ok(NetCase {
            command,
            name,
            address: "localhost:8080",
            number,
            program,
            script: lines_of(alloc, script.as_bytes())?,
            lines: script,
            idle: Numbers::new(alloc),
            links: Vec::new(alloc),
            faults: NONE,
        })
    }

    /// Adds a part that stands behind the program.
    fn add(&mut self, part: &'a str) -> Result<(), CaseFault> {
        if let Some(address) = part.strip_prefix("address ") {
            self.address = address;
        } else if let Some(digits) = part.strip_prefix("fail net ") {
            self.faults.failing_net = number_of(digits)?;
        } else if let Some(digits) = part.strip_prefix("fail file ") {
            self.faults.failing_file = number_of(digits)?;
        } else if let Some(digits) = part.strip_prefix("fail output ") {
            self.faults.failing_output = number_of(digits)?;
        } else if let Some(digits) = part.strip_prefix("want output ") {
            self.faults.wanting_output = number_of(digits)?;
        } else if let Some(digits) = part.strip_prefix("fail feed ") {
            self.faults.failing_feed = number_of(digits)?;
        } else if let Some(digits) = part.strip_prefix("idle ") {
            add_numbers(&mut self.idle, digits)?;
        } else {
            self.links.push(part)?;
        }
        Ok(())
    }
}
