//! Calls of the shared session.
ghost use Rattle.std.specs.Prelude.{◌≡◌, ◌++◌, ◌∷◌, [], IfOk};
ghost use Rattle.reflector_core.specs.PlainSession.{PlainSession};
ghost use Rattle.reflector_core.specs.Growth.{GrowsTo, is_offer};
ghost use Rattle.session_lock.specs.History.{play_from};
ghost use Rattle.session_lock.specs.Passes.{caller};
ghost use Rattle.session_lock.specs.Keeping.{SomeShut};
ghost use Rattle.connection.specs.Exchanges.{IsUnkeptBy, exchanges_in};
ghost use Rattle.connection.specs.Phases.{ended_by};
ghost use Rattle.connection.specs.Standing.{IsAnsweredAt, SeesOn, exchange_of};

use crate::ending::Ended;
use reflector_core::{CallFault, Keeper, Reply, Request};
use session_lock::{Pass, SharedSession, TrustAll};
use std::alloc::Global;
use std::sync::Wait;
use tea_base::SessionId;
use tea_io::Clock;

/// What serves connections: the shared session with its id, and a clock.
#[derive(Drop)]
pub struct Service<'a, C: Clock, R: Wait, K: Keeper> {
    pub rt: &'a R,
    pub alloc: Global,
    pub shared: &'a SharedSession<TrustAll, K>,
    pub id: SessionId,
    pub clock: &'a C,
}

/// Whether a request offers a snapshot.
fn is_offer(request: &Request) -> bool
    ensures { result ≡ is_offer request.now }
{
    match request {
        Request::Offer { .. } => true,
        Request::Join { .. }
        | Request::Send { .. }
        | Request::Tick { .. }
        | Request::Leave { .. }
        | Request::Pull { .. } => false,
    }
}

/// How a call without an answer ends a connection.
pub fn ended_by(fault: CallFault) -> Ended
    ensures { result ≡ ended_by fault }
{
    match fault {
        CallFault::WantOfMemory => Ended::WantOfMemory,
        CallFault::Unkept => Ended::Unkept,
    }
}

/// Makes a call.
pub fn ask<C: Clock, R: Wait, K: Keeper>(
    service: &Service<'_, C, R, K>,
    pass: &mut Pass<K>,
    request: &Request,
) -> Result<Reply, CallFault>
    requires session { pass.old.session ≡ service.now.shared.now.session }
    ensures kept { pass.new ≡ record pass.old { seen = pass.new.seen } }
    ensures asked { exchanges_in pass.new.opening pass.new.seen (caller pass.new)
        ≡ exchanges_in pass.old.opening pass.old.seen (caller pass.old) ++ exchange_of request.now result ∷ [] }
    ensures sees { SeesOn pass.old pass.new }
    ensures grows { GrowsTo (play_from pass.old.opening pass.old.seen) (play_from pass.new.opening pass.new.seen) }
    ensures unkept { IsUnkeptBy (SomeShut K.shut) (exchange_of request.now result) }
    ensures reply { IfOk result (λ given. (at : PlainSession)
        × IsAnsweredAt (play_from pass.old.opening pass.old.seen) at
        (play_from pass.new.opening pass.new.seen) request.now given) }
{
    if is_offer(request) {
        service.shared.offer_kept(service.rt, pass, request)
    } else {
        service.shared.call_kept(service.rt, pass, request)
    }
}
