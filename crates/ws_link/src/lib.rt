//! Links and a net over WebSockets (RFC 6455) on TCP. One frame is one binary message. What they carry is not told; what fails
//! is counted.
#![tactic(auto)]

mod address;
mod counters;
mod keys;
mod link;
mod net;
mod receives;
mod share;
mod stage;
mod tally;
mod watch;
mod wire;

pub use link::WsLink;
pub use net::WsNet;
pub use share::WsShare;
