//! Cases of sessions. `session_cases KIND FILE ..` prints each line of the files with ` = ` and what it comes to.
//!
//! | Kind | A case | What it comes to |
//! |---|---|---|
//! | `client` | bytes in hexadecimal digits | the frame of a view that they spell |
//! | `server` | the same | the frame of a reflector that they spell |
//!
//! A frame that is read is written, read and written again: where its bytes are others, they stand behind it.
#![tactic(auto)]

mod client;
mod fault;
mod kind;
mod server;

use crate::kind::SessionCases;
use case_lines::print_files;
use std::io;

fn main(rt: HostRuntime) -> io::Result<()> {
    print_files::<SessionCases, HostRuntime>(&rt)
}
