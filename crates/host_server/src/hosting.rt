//! What is to be hosted, and what comes of it.
use connection::Ended;
use reflector_core::Session;
use tea_base::{List, SessionId, Text};
use tea_io::{Clock, Gate, NetFault};

/// What is to be hosted: the ids of the sessions, whether a JOIN of another id makes one more, the address at which the host listens, and how many
/// links it accepts. By the clock it asks the sessions; each thread passes the gate before it serves its link.
#[derive(Drop)]
pub struct Host<'a, C: Clock, G: Gate> {
    pub ids: &'a [SessionId],
    pub on_demand: bool,
    pub address: &'a Text,
    pub connections: u32,
    pub clock: &'a C,
    pub gate: &'a G,
}

/// How a connection ended, and the place of the session that served it, counted from 0. A link that gave no frame has no session.
#[derive(Clone, Copy, Debug, PartialEq, Eq)]
pub struct HostEnd {
    pub session: Option<u32>,
    pub ended: Ended,
}

/// How connections ended, in the order in which their links were accepted.
pub type HostEnds = List<HostEnd>;

/// Ids of sessions, each once.
pub type SessionIds = List<SessionId>;

/// Sessions, in the order of their ids.
pub type Sessions = List<Session>;

/// What was hosted: the sessions in the end, and how each connection ended. The ids are first those that were listed, and then those of the sessions
/// that were made on demand, in the order in which they were made. `stopped` says why fewer links were served than there were to be.
#[derive(Drop)]
pub struct Hosted {
    pub ids: SessionIds,
    pub sessions: Sessions,
    pub ends: HostEnds,
    pub stopped: Option<NetFault>,
}
