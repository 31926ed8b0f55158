//! What the command `trace` gives: what ran in a stretch of time of a recorded session, in order.
//!
//! | Line | For each |
//! |---|---|
//! | `message TIME OBJECT CLASS METHOD ARGS` | message that ran |
//! | `entry SEQ time TIME view VIEW KIND SCOPE EVENT heard COUNT` | entry of the log: `join`, `exit` or `event`, the event that models heard of it, and how many handlers that had |
//! | `entry SEQ time TIME view VIEW KIND heard 0` | entry of which models heard no event |
//! | `fault KIND` | message or entry that ended with a fault, after its own line |
//!
//! The messages that are due up to an entry's time come before the entry, those of its own time too. CLASS is a name of the program.
//! METHOD is written as it is where it is a name of the language, and else as a text literal. SCOPE and EVENT are text literals.
//! ARGS is the text of the list of the arguments.
#![tactic(auto)]

mod laws;
mod lines;
mod running;
mod stretch;
mod tracing;

pub use laws::steps_replay;
pub use stretch::Stretch;
pub use tracing::trace;
