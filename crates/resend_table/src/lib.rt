//! What a session keeps of its entries to answer a view that comes again: how each view stands, and where its events are.
#![tactic(auto)]

mod stand;
mod table;

pub use stand::{Kind, Stand};
pub use table::Resend;
