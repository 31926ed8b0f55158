//! View scripts: what a view does, line by line.
//!
//! A script is UTF-8 from its first byte to its last, skipped lines included. LF ends a line; it may be missing after
//! the last one, and one CR before it is dropped. An empty line and one that begins with `#` are skipped. The words of a
//! line are divided by one or more spaces; a line that begins or ends with a space has none. A space in a text literal
//! divides nothing, and no other blank divides.
//!
//! | Line | What the view does |
//! |---|---|
//! | `publish SCOPE EVENT VALUE` | sends an event with a value, of which the payload has at most 4,096 bytes |
//! | `watch SCOPE EVENT queued` | subscribes to an event in a scope, and handles each |
//! | `watch SCOPE EVENT once` | the same, and of those handled together the last alone |
//! | `wait T` | waits for a time, in microseconds of TeaTime, below 2^53 |
//! | `wait +T` | waits for so many microseconds, below 2^53, from its own time at that line on |
//! | `settle` | waits until each event that it published is acknowledged |
//! | `snap` | offers a snapshot, and waits for the answer |
//! | `cut` | cuts its connection, and joins again on another one |
//! | `quit` | leaves |
//! | `mark WORD` | prints the word, behind all that the lines before it print |
//! | `show` | prints its world in full, as it is once nothing is due any more at its time |
//! | `vote N` | hears its link until it has the entry N, from 1 to 4,294,967,295, and publishes the digest of its world directly after it |
//!
//! A scope and an event are text literals of the language, and a value is the text of a value in bounds. Numbers are
//! decimal, without a sign or leading zeros. At most 1,048,576 lines publish; a vote counts among them.
#![tactic(auto)]

mod fault;
mod fields;
mod line;
mod reading;
mod rows;
mod script;
mod words;

pub use fault::ScriptFault;
pub use line::ViewLine;
pub use reading::publish_count;
pub use script::{ViewScript, parse_script};
