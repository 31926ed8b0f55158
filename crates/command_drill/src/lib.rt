//! What the command `drill` gives: the log, the snapshot of each view, and the line of the drill.
#![tactic(auto)]

mod drilled;

pub use drilled::{Drilled, drilled_outcome};
