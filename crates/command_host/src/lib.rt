//! What the command `host` asks for and gives: the sessions that are to be hosted, with the places of their files, and after the host how the
//! connections ended and what each session has come to.
#![tactic(auto)]

mod hosting;
mod outcome;
mod text;

pub use hosting::{Hosting, LogPlaces, Rooms, log_places, on_demand_places, rooms_for};
pub use outcome::{hosted_outcome, posts_outcome};
