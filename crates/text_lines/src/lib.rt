//! Lines of text: their words and the numbers that words spell, read and written.
#![tactic(auto)]

mod reading;
mod writing;

pub use reading::{is_skipped, number, split_lines, split_words, time_of_word};
pub use writing::spell_numbers;
