//! What posts are to reflect, and what comes of it.
use host_posts::PostOutcomes;
use net_shares::Stop;
use reflector_core::Session;
use tea_base::{SessionId, Text};
use tea_io::{Clock, Gate};

/// What posts are to reflect: the session's id, the address at which they listen, and how many posts serve links beside each other. By the clock they
/// ask the session; each post passes the gate before it serves a link; the stop says when the posts are to stop.
#[derive(Drop)]
pub struct PostServer<'a, C: Clock, G: Gate, T: Stop> {
    pub id: SessionId,
    pub address: &'a Text,
    pub posts: u32,
    pub clock: &'a C,
    pub gate: &'a G,
    pub stop: &'a T,
}

/// What was reflected: the session in the end, and what came of each post.
#[derive(Drop)]
pub struct ReflectedOn {
    pub session: Session,
    pub posts: PostOutcomes,
}
