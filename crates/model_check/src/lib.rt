//! The check of a program: its first fault in the order of the text, or its methods with each name resolved to a slot or a
//! number.
#![tactic(auto)]

mod builtin;
mod checking;
mod class;
mod expression;
mod names;
mod scope;
mod statement;

pub use checking::check;
