//! The store of a session's journal: opened, founded before that where it is known with what, and cut to what was read of it, so that the
//! session goes on with its keeper.
#![tactic(auto)]

mod going_on;
mod laws;
mod opening;

pub use going_on::go_on;
pub use laws::safe_bytes_are_read;
pub use opening::{OpeningFault, open_journal};
