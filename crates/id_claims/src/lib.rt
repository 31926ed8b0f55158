//! Ids of sessions that threads claim: each id that was claimed has one place in a list, which only grows.
#![tactic(auto)]

mod claims;
mod ids;
pub mod knowledge;
mod laws;
mod rule;

pub use claims::{ClaimPass, Claims};
pub use ids::MOST_IDS;
pub use laws::{claims_cross_threads, pass_crosses_threads, place_stays};
