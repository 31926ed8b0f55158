//! What the program does, over any files, clock, net and output: [`croquet`] reads the words of a command and runs it.
//!
//! The commands themselves are functions of the bytes that they read; they stand in `commands`. The run of a view stands in
//! `view_shell`, that of a live view in `live_shell`, that of a reflector in `reflect_server` or, by posts, in `reflect_posts`, that of a host in `host_server` or `host_posts`, and a drill in `drill`. Here their files are read,
//! handed over and written, and the text is printed, or the line of the one fault.
#![tactic(auto)]

mod drilling;
mod giving;
mod hosting;
mod keeping;
mod kept;
mod living;
mod posting;
mod reflecting;
mod serving;
mod status;
mod telling;
mod top;
mod visiting;

pub use status::Status;
pub use telling::tell_want_of_memory;
pub use top::{Turn, begin, croquet};
