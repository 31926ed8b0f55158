//! What the command `hub` reads and gives: requests to many sessions, the text of their replies, and each session as it is stored
//! after them.
#![tactic(auto)]

mod laws;
mod run;
mod script;

pub use laws::names_are_apart;
pub use run::hub_outcome;
pub use script::{HubLine, HubLines, read_hub_script};
