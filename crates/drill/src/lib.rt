//! A drill: up to eight workers in threads on one shared session, each with a replica, that publish, are cut off, resend, lose their worlds and join again
//! from offered snapshots. In the end each replica has the replay of the log.
#![tactic(auto)]

mod calls;
mod drilling;
mod ending;
mod finished;
mod laws;
mod program;
mod report;
mod size;
mod taking;
mod trust;
mod turns;
mod worker;

pub use drilling::drill;
pub use laws::drills_are_sound;
pub use report::{DrillReport, Replicas};
pub use size::Size;
pub use trust::TrustReplay;
