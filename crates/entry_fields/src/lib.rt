//! What an entry of a log records, as bytes: one spelling, for logs and for frames.
#![tactic(auto)]

mod laws;
mod lent;
mod reading;
mod writing;

pub use laws::spelling_is_read;
pub use lent::LentWhat;
pub use reading::what_at;
pub use writing::put_what;
