//! The words of the command line: [`read_command`] reads them to a [`Command`], where they follow their rules. [`is_address`] tells
//! which words are addresses of a net.
#![tactic(auto)]

mod address;
mod parts;
mod words;

pub use address::is_address;
pub use words::{
    Command, DrillRequest, HostRequest, InspectRequest, JoinRequest, LiveRequest, ReflectRequest,
    ReplayRequest, ServingSpan, TraceRequest, read_command,
};
