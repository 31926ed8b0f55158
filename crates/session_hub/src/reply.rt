//! What a hub answers.
use reflector_core::Reply;

/// The answer of a hub to a request.
#[derive(Debug, Drop)]
pub enum HubReply {
    /// The session that was asked replies so.
    Reply(Reply),
    /// The session was not made, since the hub has as many as it may have: `sessions`, which is 256.
    HubFull { sessions: u32 },
}
