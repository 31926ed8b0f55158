//! The language in which worlds are written: how a text is read as the tree of a program.
#![tactic(auto)]

mod bounds;
mod class;
mod expression;
mod fault;
mod front;
mod operators;
mod parsing;
mod statement;

pub use bounds::MOST_PROGRAM_BYTES;
pub use fault::LangFault;
pub use parsing::{one_derivation, one_reading, one_tree, parse};
