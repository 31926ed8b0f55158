//! What the command `inspect` gives: any moments of a recorded session, in the order in which they are asked for.
//!
//! Queries are UTF-8 from their first byte to their last, skipped lines included. LF ends a line; it may be missing after the last
//! one, and one CR before it is dropped. An empty line and one that begins with `#` are skipped. The words of a line are
//! divided by one or more spaces; a line that begins or ends with a space has none. A time is a decimal number of microseconds of
//! TeaTime, without leading zeros, below 2^53.
//!
//! | Query | What it prints |
//! |---|---|
//! | `at TIME` | the line of the world of that time, as `replay` prints it |
//! | `full TIME` | the same line, and the lines of what is in that world |
#![tactic(auto)]

mod fault;
mod inspecting;
mod queries;
mod query;
mod reading;

pub use fault::QueriesFault;
pub use inspecting::inspect;
pub use queries::{Queries, parse_queries};
pub use query::Query;
