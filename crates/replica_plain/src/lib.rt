//! The replica of a view over any world that meets a few laws, as a table, and that it follows the log by what it is served.
#![tactic(auto)]

mod fault;
mod how;
mod laws;

pub use fault::{PublishRefusal, ReplicaFault};
pub use how::How;
pub use laws::{events_are_given, numbers_stand, replicas_agree, served_is_read};
