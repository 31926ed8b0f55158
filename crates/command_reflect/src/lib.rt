//! What the command `reflect` asks for and gives: the reflection of a session, what a journal leads to before its session goes on, and after
//! the reflection first the log, and then how its connections ended, or in which ways links and posts have.
#![tactic(auto)]

mod keeping;
mod reflection;
mod text;

pub use keeping::{GoingOn, Keeping, read_kept};
pub use reflection::{
    LogPlace, Reflection, log_place, reflected_on_outcome, reflected_outcome, reflected_put,
};
