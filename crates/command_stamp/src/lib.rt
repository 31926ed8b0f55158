//! What the command `stamp` reads and gives: the requests of a script, the text of their replies, and the log that they leave.
#![tactic(auto)]

mod log;
mod replies;
mod script;

pub use log::log_files;
pub use replies::{reply_line, text};
pub use script::{read_request, read_script};
