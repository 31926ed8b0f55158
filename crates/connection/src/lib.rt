//! Connections: each is served over the shared session from its first frame to its end.
//!
//! [`serve_connection`] hears a link, asks the session what its frames ask, and sends the answers and what is new. What that ties to the
//! history of the session is stated phase by phase.
#![tactic(auto)]

mod asking;
mod ending;
mod laws;
mod opening;
mod sending;
mod serving;
mod turns;

pub use ending::Ended;
pub use laws::each_talk_is_served;
pub use serving::serve_connection;
