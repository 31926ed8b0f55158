//! What a reflector is to serve, and what comes of it.
use connection::Ended;
use reflector_core::{Keeper, Session};
use tea_base::{List, SessionId, Text};
use tea_io::{Clock, Gate, NetFault};

/// What a reflector is to serve: its session's id, the address at which it listens, and how many links it accepts. By the clock it asks
/// the session; each thread passes the gate before it serves its link.
#[derive(Drop)]
pub struct Server<'a, C: Clock, G: Gate> {
    pub id: SessionId,
    pub address: &'a Text,
    pub connections: u32,
    pub clock: &'a C,
    pub gate: &'a G,
}

/// How connections ended, in the order in which their links were accepted.
pub type Ends = List<Ended>;

/// What was served: the session in the end, and how each connection ended. `stopped` says why fewer links were served than there were to be.
#[derive(Drop)]
pub struct Reflected {
    pub session: Session,
    pub ends: Ends,
    pub stopped: Option<NetFault>,
}

/// A session that is to be reflected, and its keeper.
#[derive(Drop)]
pub struct Opening<K: Keeper> {
    pub session: Session,
    pub keeper: K,
}

/// Why nothing was reflected.
#[derive(Clone, Copy, Debug, PartialEq, Eq)]
pub enum ServeFault {
    /// The net failed to listen. No link was accepted.
    ListenFault,
    /// No link was accepted.
    WantOfMemory,
}

/// Why nothing was reflected of a session that has a keeper.
#[derive(Clone, Copy, Debug, PartialEq, Eq)]
pub enum KeptFault {
    /// The net failed to listen. No link was accepted.
    ListenFault,
    /// No link was accepted.
    WantOfMemory,
    /// An opening Leave was not kept. The net was asked nothing.
    Unkept,
}
