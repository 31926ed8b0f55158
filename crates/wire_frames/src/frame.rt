//! Frames. Times are in microseconds since the session's founding.
use crate::start::{Base, Want};
use tea_base::{Blob, Entry, List, SessionId};

/// What a view sends.
#[derive(Clone, Debug, Drop)]
pub enum ClientFrame {
    Join {
        session: SessionId,
        view: u32,
        want: Want,
    },
    Send {
        number: u32,
        payload: Blob,
    },
    Snap {
        time: u64,
        bytes: Blob,
    },
    Leave,
    Alive,
}

/// What a reflector sends.
#[derive(Clone, Debug, Drop)]
pub enum ServerFrame {
    Sync {
        joined: u32,
        last: u32,
        from: u32,
        base: Option<Base>,
    },
    Recv(Entry),
    Tick(u64),
    Done {
        number: u32,
        seq: u32,
        time: u64,
    },
    Snapped {
        time: u64,
    },
    /// A frame of the view was refused.
    Refused {
        /// The tag of that frame; [`NO_TAG`](crate::NO_TAG) of one that did not read.
        about: u8,
        /// The number of a [`RefusalCode`](crate::RefusalCode). A frame that was read may have any other byte.
        code: u8,
        /// The number that the refusal carries, of whatever size; 0 where it carries none.
        kept: u64,
        /// Of a full log the payload bytes, where `kept` is the entries; else 0.
        more: u64,
    },
    Alive,
}

/// Frames of a view, in order.
pub type ClientFrames = List<ClientFrame>;

/// Frames of a reflector, in order.
pub type ServerFrames = List<ServerFrame>;
