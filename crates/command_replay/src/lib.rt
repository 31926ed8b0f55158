//! What the command `replay` gives: the world to which a recorded session leads, by its line and its snapshot.
#![tactic(auto)]

mod recording;
mod world_run;

pub use recording::Recording;
pub use world_run::{Told, plain_of, tell_replay};
