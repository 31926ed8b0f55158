//! A connection of a view to its session: what its frames ask, how they are answered, and how far the log was sent.
#![tactic(auto)]

mod act;
mod cursor;
mod early;
mod frames;
mod laws;

pub use act::Act;
pub use cursor::{Cursor, MOST_PULLED};
pub use early::{Early, open};
pub use laws::{batches_stream, replies_fit};
