//! Runs in which any growth of memory may be refused. Each word of the command line is a run, and prints a line.
//!
//! | Word | The run | Its line |
//! |---|---|---|
//! | `session` | a view joins, sends sixteen events into room that was prepared, and offers a snapshot; another view joins; all entries are pulled and made frames | `session entries N horizon TIME kept TIME frames N` |
//! | `replica` | a replica takes the frames of a log | `replica published N digest HEX` |
//!
//! Where a call of the session, of a cursor or of the replica is out of memory, the run looks at what the call promises to leave, and goes on. A line that begins with
//! `BROKEN PROMISE` says which promise was not kept; the status is then 1. Where memory runs out anywhere else the line is `memory`, and the status is 8.
#![tactic(auto)]

mod halt;
mod replica_run;
mod session_run;

use crate::halt::Halt;
use std::alloc::Global;
use std::env::{self, Env};
use std::io;
use std::process::ExitCode;

fn main(rt: HostRuntime) -> ExitCode {
    match run_all(&rt) {
        Ok(()) => ExitCode::from(0),
        Err(halt) => told(&rt, halt),
    }
}

/// Prints the line of a halt, and gives its status.
fn told<R: Print>(rt: &R, halt: Halt) -> ExitCode {
    let line = halt.line();
    match println!(rt; "{line}") {
        Ok(()) => ExitCode::from(halt.status()),
        Err(_) => ExitCode::from(Halt::Failed.status()),
    }
}

/// Makes the run of each word, and prints its line.
fn run_all<R: Env + Print + AllocGlobal>(rt: &R) -> Result<(), Halt> {
    let words: Vec<String> = words(rt)?;
    for word in &words {
        let line = run(rt.alloc(), word.as_str())?;
        println!(rt; "{line}")?;
    }
    Ok(())
}

fn words<R: Env + AllocGlobal>(rt: &R) -> io::Result<Vec<String>> {
    Ok(env::args(rt)?.skip(1).collect(rt.alloc())?)
}

/// The line of the run of a word.
fn run(alloc: Global, word: &str) -> Result<String, Halt> {
    match word {
        "session" => session_run::line(alloc),
        "replica" => replica_run::line(alloc),
        _ => Err(Halt::Failed),
    }
}
