//! Worlds: what a participant computes from a program, a session's id and the entries of its log.
#![tactic(auto)]

mod fault;
mod laws;
mod messages;
mod opening;
mod resuming;
mod simulation;
mod told;
mod turns;
mod world;

pub use fault::WorldFault;
pub use laws::{
    advance_rests, advance_steps, advance_twice, at_rest_stays, entry_tells_what_is_heard,
    external_after, external_keeps_valid, first_message_opens, first_world_is_valid, replay_folds,
    replay_rests, resumed_world_is_valid, turns_advance, world_crosses_threads, world_decides,
};
pub use told::{HeardEvent, RanMessage};
pub use world::World;
