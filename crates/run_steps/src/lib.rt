//! The steps of a run, and the calls that do them: files are read and put, text is printed, a link is made, a frame is sent. A link is
//! heard and given back by its own calls.
//!
//! Each call tells how it came out, and contracts tell what it did to its part of the outside. So whoever runs steps says what they do
//! to the outside by `Acts`, a list of steps and the place where it was cut.
#![tactic(auto)]

mod calls;
mod limits;

pub use calls::{CallFault, connect, look_at, print_text, put_file, read_file, send_frame};
pub use limits::{MOST_CONNECTIONS, MOST_DRILL_EVENTS, MOST_DRILL_VIEWS};
