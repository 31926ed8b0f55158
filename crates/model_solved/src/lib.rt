//! Checked programs: their methods, with each name resolved to a slot or a number, and what a fault of a program is.
#![tactic(auto)]

mod builtin;
mod checked;
mod fault;
mod laws;
mod names;
mod solved;

pub use builtin::Builtin;
pub use checked::Checked;
pub use fault::CheckFault;
pub use laws::checked_crosses_threads;
pub use names::is_name;
pub use solved::{Solved, SolvedExpr, SolvedStmt};
