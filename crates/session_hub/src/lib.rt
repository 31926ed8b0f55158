//! Many sessions in one place, each as if it were alone.
#![tactic(auto)]

mod hub;
mod laws;
mod reply;

pub use hub::{Hub, MOST_SESSIONS};
pub use laws::sessions_are_apart;
pub use reply::HubReply;
