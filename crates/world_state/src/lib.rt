//! A world as a message runs on it: its stores side by side, what is done to its objects, their names and its saved value, and how
//! a message ends before its time.
#![tactic(auto)]

mod fault;
mod known;
mod objects;
mod saving;
mod state;
mod values;

pub use fault::{EvalStop, Fault};
pub use known::{be_known, known_object};
pub use objects::{destroy, get_slot, is_held, make, set_slot};
pub use saving::persist;
pub use state::{Budget, State};
pub use values::copy_value;
