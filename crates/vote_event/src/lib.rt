//! The event by which a view votes on an entry of its session.
#![tactic(auto)]

mod event;

pub use event::{VoteEvent, vote_event};
