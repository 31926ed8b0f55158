//! The frames between a view and its session's reflector, and their one spelling.
#![tactic(auto)]

mod code;
mod fault;
mod fields;
mod frame;
mod laws;
mod lent;
mod owning;
mod reading;
mod start;
mod tags;
mod writing;

pub use code::RefusalCode;
pub use fault::FrameFault;
pub use frame::{ClientFrame, ClientFrames, ServerFrame, ServerFrames};
pub use laws::{
    again_client, again_server, frames_are_read, one_client, one_server, typed_client, typed_server,
};
pub use reading::{read_client, read_server};
pub use start::{Base, Want};
pub use tags::{
    ALIVE_TAG, DONE_TAG, JOIN_TAG, LEAVE_TAG, NO_TAG, RECV_TAG, REFUSED_TAG, SEND_TAG,
    SERVER_ALIVE_TAG, SNAP_TAG, SNAPPED_TAG, SYNC_TAG, TICK_TAG,
};
pub use writing::{write_client, write_server};
