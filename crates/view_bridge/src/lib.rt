//! What a view shows of the events that models published: topics that it is subscribed to, each with a handling.
#![tactic(auto)]

mod events;
mod laws;
mod topic;
mod topics;

pub use laws::events_are_handled_by_topic;
pub use topic::{Handling, Topic};
pub use topics::ViewTopics;
