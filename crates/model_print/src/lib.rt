//! The canonical text of a program.
//!
//! Its tokens stand in the order of the grammar, with round brackets exactly round each part that would be grouped
//! otherwise, one space exactly between two neighbours that both are names, words or numbers, and nothing else.
#![tactic(auto)]

mod printing;

pub use printing::{is_shortest, parses_again, print};
