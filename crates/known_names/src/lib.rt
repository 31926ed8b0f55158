//! The names by which the objects of a world are known, found by search.
#![tactic(auto)]

mod known;
mod names;

pub use names::Names;
