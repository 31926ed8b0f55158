//! A live view over any net, output and feed of lines.
//!
//! [`run_live`] asks the feed and the link in turn, tells a live view what they say, and sends and prints what it answers. What it does to
//! the outside is what the live view makes of what it was told, in that order.
#![tactic(auto)]

mod calls;
mod ending;
mod feed;
mod mem_feed;
mod run;
mod telling;

pub use ending::LiveEnd;
pub use feed::{Fed, Feed};
pub use mem_feed::MemFeed;
pub use run::{LiveVisit, run_live};
