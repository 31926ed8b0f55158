//! A session whose log a script makes, and what a command prints of it.
use crate::faults::NONE;
use crate::run::Given;
use case_lines::{CaseFault, lines_of, told_lines};
use std::alloc::Global;
use std::sync::Wait;
use std::thread::Threads;
use tea_base::{Blob, WantOfMemory};

/// What a command prints, and its status. It finds a session's log under the name `l`, which `stamp` makes of a script.
pub(crate) fn outcome<R: Threads + Wait + Sync + AllocGlobal>(
    rt: &R,
    mut given: Given,
    script: &str,
) -> Result<String, CaseFault> {
    let log = stamped(rt, script)?;
    given.add_file("l", log.bytes())?;
    let run = given.run(rt, NONE)?;
    Ok(told_lines(rt.alloc(), run.text.bytes(), run.status.number())?)
}

/// The log that `stamp` makes of a script.
fn stamped<R: Threads + Wait + Sync + AllocGlobal>(
    rt: &R,
    script: &str,
) -> Result<Blob, CaseFault> {
    let mut given = Given::new(rt.alloc());
    given.add_words("stamp s --log l")?;
    add_lines(rt.alloc(), &mut given, "s", script)?;
    let run = given.run(rt, NONE)?;
    run.file(rt.alloc(), "l")?.ok_or(CaseFault::NoCase)
}

/// Adds a file of lines, which are divided by ` / `; `-` is no line.
pub(crate) fn add_lines(
    alloc: Global,
    given: &mut Given,
    name: &str,
    lines: &str,
) -> Result<(), WantOfMemory> {
    if lines == "-" {
        return given.add_file(name, b"");
    }
    given.add_file(name, lines_of(alloc, lines.as_bytes())?.as_slice())
}

/// The parts of a text before and after the first place where another one is.
pub(crate) fn parted<'a>(text: &'a str, between: &str) -> Result<(&'a str, &'a str), CaseFault> {
    text.split_once(between).ok_or(CaseFault::NoCase)
}
