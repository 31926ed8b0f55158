//! The meaning of programs: what a method does to a world.
#![tactic(auto)]

mod arguments;
mod builtins;
mod calls;
mod evaluator;
mod events;
mod here;
mod laws;
mod locals;
mod messages;
mod method;
mod methods;
mod operation;
mod operator;
mod values;

pub use arguments::both;
pub use builtins::session_text;
pub use calls::{Call, Event};
pub use laws::{loops_end_by_fuel_alone, method_keeps, telling_keeps};
pub use method::{run_method, tell_models};
