//! The configuration of a host: which sessions it has, each with its name and its program, and whether it makes sessions on demand.
#![tactic(auto)]

mod programs;
mod reading;

pub use programs::programs_of;
pub use reading::{Config, MOST_SESSIONS, SessionLine, SessionLines, read_config};
