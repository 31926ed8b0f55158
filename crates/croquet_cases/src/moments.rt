//! Moments of a session whose log a script makes.
use crate::recorded::{self, add_lines, parted};
use crate::run::Given;
use case_lines::CaseFault;
use std::alloc::Global;
use std::sync::Wait;
use std::thread::Threads;
use tea_base::WantOfMemory;

/// What `inspect` prints of a session, and its status: `NAME EVERY SCRIPT | QUERIES | PROGRAM`. The log is that which `stamp` makes of
/// the script. The lines of the script and of the queries are divided by ` / `, and `-` is no line.
pub(crate) fn outcome<R: Threads + Wait + Sync + AllocGlobal>(
    rt: &R,
    case: &str,
) -> Result<String, CaseFault> {
    let (head, rest) = parted(case, " | ")?;
    let (name, rest_of_head) = parted(head, " ")?;
    let (every, script) = parted(rest_of_head, " ")?;
    let mut given = Given::new(rt.alloc());
    add_words(rt.alloc(), &mut given, name, every)?;
    add_files(rt.alloc(), &mut given, rest)?;
    recorded::outcome(rt, given, script)
}

fn add_words(
    alloc: Global,
    given: &mut Given,
    name: &str,
    every: &str,
) -> Result<(), WantOfMemory> {
    given.add_words(format!(in alloc; "inspect p {name} l {every} q")?.as_str())
}

/// Adds the files of `QUERIES | PROGRAM`.
fn add_files(alloc: Global, given: &mut Given, parts: &str) -> Result<(), CaseFault> {
    let (queries, program) = parted(parts, " | ")?;
    add_lines(alloc, given, "q", queries)?;
    given.add_file("p", program.as_bytes())?;
    Ok(())
}
