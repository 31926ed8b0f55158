//! The subscriptions of a world: which methods handle which events.
#![tactic(auto)]

mod events;
mod handler;
mod index;
mod subscription;
mod topics;

pub use handler::{Handler, Handlers};
pub use topics::Topics;
