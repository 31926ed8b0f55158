//! A session's replies to a list of requests.
ghost use Rattle.std.specs.Prelude.{◌≡◌, IfOk};
ghost use Rattle.reflector_core.specs.Play.{after_all, replies_from, TellsItsEvents};

use crate::request::{Replies, Request};
use crate::session::Session;
use std::alloc::Global;
use tea_base::WantOfMemory;

/// The replies of a session to these requests, one after the other, and the session after them. The
/// log is legal and its times rise. Each event that was answered Stamped is in it once, after those
/// of the log that it began with, in its sender's order, with the payload that was sent; and no
/// other event is. Without memory the session is dropped.
pub fn play(
    alloc: Global,
    opening: Session,
    requests: &[Request],
) -> Result<(Session, Replies), WantOfMemory>
    ensures replies { IfOk result (λ played. played.1 ≡ replies_from opening.plain requests.now) }
    ensures session { IfOk result (λ played. played.0.plain ≡ after_all opening.plain requests.now) }
    ensures law { IfOk result (λ played.
        TellsItsEvents opening.plain.log requests.now played.1 played.0.plain.log) }
{
    // tells that the opening session is sound
    let _horizon = opening.horizon(); // for the prover
    let mut session = opening;
    let mut replies = Replies::new(alloc);
    for request in requests {
        let reply = session.call(request)?;
        replies.push(reply)?;
    }
    Ok((session, replies))
}
