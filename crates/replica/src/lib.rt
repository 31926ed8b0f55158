//! Replicas: what a view knows of a session, and what it makes of the frames that it is sent.
#![tactic(auto)]

mod laws;
mod measure;
mod outbox;
mod replica;
mod sending;
mod session_world;

pub use laws::{
    equal_snapshots, replica_crosses_threads, replica_follows, resumed_follows,
    snapshots_are_honest, ticks_bring_rest, worlds_replay, worlds_stand,
};
pub use replica::Replica;
