//! Saved values as JSON (RFC 8259).
#![tactic(auto)]

mod fault;
mod laws;
mod reading;
mod writing;

pub use fault::JsonFault;
pub use laws::{data_is_of_one_value, write_and_read};
pub use reading::from_json;
pub use writing::{MOST_JSON, to_json};
