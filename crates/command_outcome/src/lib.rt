//! What comes of a command: what it puts and prints, or its one refusal.
//!
//! And what commands share that begin with a program: [`read_program`] reads its text, or tells in a line why it is refused;
//! [`counts_line`] tells its size.
#![tactic(auto)]

mod counts;
mod line;
mod outcome;
mod program;

pub use counts::counts_line;
pub use line::line_of_parts;
pub use outcome::{
    CommandRefusal, Input, Outcome, Put, Puts, numbered_name, optional_put, put_numbered,
};
pub use program::{ProgramFault, read_program};
