//! Bytes that are appended, and then stay where they are in memory.
#![tactic(auto)]

mod chunks;
mod laws;
mod region;

pub use laws::a_place_keeps_its_bytes;
pub use region::{Place, Region};
