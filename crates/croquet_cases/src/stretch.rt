//! What ran in a session whose log a script makes.
use crate::recorded::{self, parted};
use crate::run::Given;
use case_lines::CaseFault;
use std::alloc::Global;
use std::sync::Wait;
use std::thread::Threads;
use tea_base::WantOfMemory;

/// What `trace` prints of a session, and its status: `NAME FROM TO SCRIPT | PROGRAM`. The log is that which `stamp` makes of the
/// script. Its lines are divided by ` / `, and `-` is no line.
pub(crate) fn outcome<R: Threads + Wait + Sync + AllocGlobal>(
    rt: &R,
    case: &str,
) -> Result<String, CaseFault> {
    let (head, program) = parted(case, " | ")?;
    let (name, rest_of_head) = parted(head, " ")?;
    let (from, rest_of_times) = parted(rest_of_head, " ")?;
    let (to, script) = parted(rest_of_times, " ")?;
    let mut given = Given::new(rt.alloc());
    add_words(rt.alloc(), &mut given, name, from, to)?;
    given.add_file("p", program.as_bytes())?;
    recorded::outcome(rt, given, script)
}

fn add_words(
    alloc: Global,
    given: &mut Given,
    name: &str,
    from: &str,
    to: &str,
) -> Result<(), WantOfMemory> {
    given.add_words(format!(in alloc; "trace p {name} l {from} {to}")?.as_str())
}
