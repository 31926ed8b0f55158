//! Hints for a person at the terminal: what is wrong with the words or the files of a run that has ended, where, and what to write.
//!
//! [`files_looked_at`] names the files of which a hint speaks, and [`hint`] makes its text of the words, of the bytes of these files, and of how the
//! run has ended. [`live_hint`] is the one on a line of the standard input, as it comes. All are functions of what they are given: no file and no output is touched here. That the texts are the right ones is tested, and
//! not proved.
#![tactic(auto)]

mod ends;
mod forms;
mod hinting;
mod inputs;
mod json;
mod lines;
mod names;
mod place;
mod program;
mod sessions;
mod syntax;
mod tokens;
mod words;

pub use ends::{FileFailure, NetReason};
pub use hinting::{Ended, Given, hint};
pub use inputs::files_looked_at;
pub use lines::live_hint;
