//! The votes of views on what their world was after an entry of the log: counted one by one, and what they come to.
#![tactic(auto)]

mod book;
mod laws;
mod tally;
mod vote;

pub use book::Book;
pub use laws::{a_view_counts_once, splits_show_votes_that_differ};
pub use vote::{Verdict, Verdicts, Vote};
