//! The builtins of the modelling language that need no world.
#![tactic(auto)]

mod builtin;
mod fault;
mod laws;
mod numbers;
mod parts;
mod texts;

pub use builtin::{Pure, apply};
pub use fault::BuiltinStop;
pub use laws::{numbers_are_read_as_they_are_spelled, values_are_in_bounds};
