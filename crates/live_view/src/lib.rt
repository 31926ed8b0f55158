//! A view as a machine without a loop, without a net and without a thread: it is told one thing at a time.
//!
//! [`LiveView::step`] is told that a link is there or was not made, what the link said, a line as it came, or that no line will come. It
//! answers the frames that are to be sent and the text that is to be printed. [`LiveView::wanted`] says what it wants next.
//!
//! Its lines are those of a script. It does them as they come, one after the other; while none is at work it hears its link, and tells
//! what its models publish with each frame. [`live_is_script`] says that it does what the script of its lines does.
//!
//! [`LiveView::look`] tells its world in full, whatever it waits for.
//!
//! One line more is `hold N`, at which it wants another link in place of one that is gone or was not made, up to N times.
#![tactic(auto)]

mod doing;
mod facts;
mod hearing;
mod input;
mod joining;
mod laws;
mod lines;
mod looking;
mod machine;
mod outcome;
mod queue;
mod reading;
mod rows;
mod script;
mod texts;

pub use input::{Goal, LiveInput, Place};
pub use laws::live_is_script;
pub use machine::LiveView;
pub use outcome::{LiveOutcome, LiveWant};
