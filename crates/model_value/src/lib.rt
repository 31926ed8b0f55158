//! The values of the modelling language, and payloads: what an event carries.
#![tactic(auto)]

mod fault;
mod laws;
mod measure;
mod payloads;
mod reading;
mod value;
mod writing;

pub use fault::ValueFault;
pub use laws::{encode_and_decode, spellings_are_read, write_and_read_payload};
pub use measure::{
    MOST_DEPTH, MOST_WEIGHT, are_in_bounds, depth, in_bounds, room_behind_text, room_behind_value,
    room_behind_values, text_fits, text_weight, values_weight, weight,
};
pub use payloads::{payload, read_payload};
pub use reading::{bounded_at, decode, owned_text_at};
pub use value::{Value, Values, copy, copy_all, copy_values, nils, same};
pub use writing::{encode, put_value};
