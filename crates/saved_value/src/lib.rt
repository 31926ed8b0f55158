//! Values that a model saves for a later session: values in bounds that name no object.
#![tactic(auto)]

mod refs;
mod saved;

pub use refs::{can_be_saved, holds_ref};
pub use saved::Saved;
