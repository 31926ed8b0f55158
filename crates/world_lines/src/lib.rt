//! The line of a world, and the lines that tell what is in it.
//!
//! The line of a world tells its time, how many objects, messages to come, subscriptions and faults it has, and the digest of its
//! snapshot. A world in full is that line, and then these:
//!
//! | Line | For each |
//! |---|---|
//! | `object ID CLASS`, and ` FIELD VALUE` for each field | object, by rising id |
//! | `topic SCOPE EVENT OBJECT METHOD` | subscription, in the order in which they were made |
//! | `pending TIME NUMBER OBJECT METHOD ARGS` | message to come, in the order in which they are due |
//! | `fault KIND COUNT` | kind of fault that was counted |
//!
//! CLASS and FIELD are names of the program. SCOPE and EVENT are text literals. METHOD is written as it is where it is a name of
//! the language, and else as a text literal, since any text may be subscribed. VALUE is the text of a value, and ARGS
//! that of the list of the arguments. So a line is one line, and is read in one way.
#![tactic(auto)]

mod faults;
mod lines;
mod names;
mod words;
mod world_text;

pub use faults::fault_word;
pub use lines::world_lines;
pub use words::{push_arguments, push_literal, push_method, push_number, push_word};
pub use world_text::{full_text, line_of, world_line};
