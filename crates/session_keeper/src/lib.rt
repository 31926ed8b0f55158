//! The journal of a session as its keeper.
#![tactic(auto)]

mod keeper;

pub use keeper::JournalKeeper;
