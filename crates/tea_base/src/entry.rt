//! Entries of a session's log.
use crate::blob::Blob;
use crate::list::List;

/// The name of a session: 32 bytes, used for a digest of SHA-256 (FIPS 180-4).
#[derive(Clone, Copy, Debug, PartialEq, Eq)]
pub struct SessionId(pub [u8; 32]);

/// What an entry records of its view.
#[derive(Clone, Debug, PartialEq, Eq, Drop)]
pub enum What {
    /// The view is here from now on, on a new connection.
    Join,
    /// The view is no longer here.
    Exit,
    /// The view sent an event. Its events are numbered 1, 2, 3 and so on.
    Event { number: u32, payload: Blob },
}

/// An entry of a log. What is said here of its numbers holds in a legal log.
#[derive(Clone, Debug, PartialEq, Eq, Drop)]
pub struct Entry {
    /// Its place in the log, from 1.
    pub seq: u32,
    /// Its TeaTime: microseconds since the session's founding, below 2^53.
    pub time: u64,
    /// The number of its view, not 0.
    pub view: u32,
    pub what: What,
}

/// Entries in order.
pub type Entries = List<Entry>;
