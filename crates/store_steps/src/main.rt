//! Steps of the system's stores. Each line of the standard input is a step. The answer is printed before the next line is read.
//!
//! | Step | What is done | Answers |
//! |---|---|---|
//! | `found NAME HEX` | a file is put that holds these bytes | `done` |
//! | `open NAME LIMIT` | a store is opened, and kept until another one is or it goes back | `absent`, `there HEX`, `too large LEN` |
//! | `append HEX`, `sync`, `cut LEN` | that is done to the store that was opened | `done` |
//! | `back` | the store that was opened is given back | `done` |
//!
//! A step that was not done answers `failed`, or `memory` where it was out of memory. What is no step answers `no step`.
#![tactic(auto)]

mod bench;
mod step;

use crate::bench::Bench;
use crate::step::read_step;
use std::io;

fn main(rt: HostRuntime) -> io::Result<()> {
    let mut bench = Bench::new(&rt);
    for line in rt.lines(rt.alloc()) {
        let step = read_step(rt.alloc(), line?.as_str())?;
        let answer = bench.take(step)?;
        println!(rt; "{answer}")?;
    }
    Ok(())
}
