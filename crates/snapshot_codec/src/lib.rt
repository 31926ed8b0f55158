//! The one spelling of a world, read and written, its digest, and the ids of sessions.
#![tactic(auto)]

mod digests;
mod fault;
mod laws;
mod parts;
mod reading;
mod values;
mod writing;

pub use digests::{digest, session_id};
pub use fault::SnapFault;
pub use laws::{again, snapshot_is_of_its_world};
pub use reading::unsnap;
pub use writing::snapshot;
