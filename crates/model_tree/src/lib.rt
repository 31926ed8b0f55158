//! The trees of programs, and the grammar and the bounds by which a tree is a program.
#![tactic(auto)]

mod bound;
mod program;
mod tree;

pub use bound::Bound;
pub use program::Program;
pub use tree::{BinaryOp, Class, Expr, Method, Stmt, UnaryOp};
