//! What the commands `reflect` and `host` print of posts: in which ways their links have ended, and in which ways they have. And the fault of posts,
//! where one of them has ended by one.
#![tactic(auto)]

mod ended;
mod text;

pub use ended::posts_fault;
pub use text::posts_lines;
