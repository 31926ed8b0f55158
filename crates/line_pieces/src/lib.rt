//! Lines of bytes that come in pieces: [`LinePieces`] puts them together.
#![tactic(auto)]

mod pieces;

pub use pieces::{LinePieces, LineTaken, MOST_TOLD};
