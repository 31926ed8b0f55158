//! The messages to come of a world, and which of them is due first.
#![tactic(auto)]

mod heap;
mod pending;
mod queue;
mod steps;

pub use queue::Queue;
pub use steps::Steps;
