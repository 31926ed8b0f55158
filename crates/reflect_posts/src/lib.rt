//! A session that is reflected until it is to stop: so many posts, each a thread that serves one link after the other from its own share of a net.
//!
//! [`reflect_on`] says what comes of it: one history, in which each link that gave a frame has its talk, and whose play the session's keeper holds.
//! [`reflect_unkept_on`] is for a session without a keeper.
#![tactic(auto)]

mod preparing;
mod reflecting;
mod rows;
mod service;
mod sharing;

pub use reflecting::{reflect_on, reflect_unkept_on};
pub use service::{PostServer, ReflectedOn};
