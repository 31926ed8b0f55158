//! Links that are accepted one after the other, each served in a thread beside the rest.
ghost use Rattle.std.specs.Prelude.{◌≡◌, ◌+◌, ◌<◌, ◌≤◌, ◌^◌, ◌++◌, ◌∷◌, [], All, Some, None, vec_len, vec_capacity};
ghost use Rattle.std.specs.Thread.{IsSync};
ghost use Rattle.run_steps.specs.Outside.{links_tell, net_tells};
ghost use Rattle.session_lock.specs.History.{calls_of};
ghost use Rattle.session_lock.specs.Passes.{Merged, caller, numbers_held};
ghost use Rattle.reflect_server.specs.Opening.{gives_later};
ghost use Rattle.reflect_server.specs.Passes.{IsFresh, Keeps};
ghost use Rattle.reflect_server.specs.Rounds.{GoesRound, Serves};

use crate::opening::LaterClock;
use crate::passes::merge_all;
use crate::reflection::Server;
use connection::{Ended, serve_connection};
use reflector_core::Keeper;
use session_lock::{Pass, SharedSession, TrustAll};
use std::alloc::Global;
use std::sync::Wait;
use std::thread::{Threads, join};
use tea_io::{Clock, Gate, Link, Net, NetFault};

/// A link that was served, and how its connection ended.
#[derive(Drop)]
pub struct ServedLink<L: Link + Drop> {
    pub link: L,
    pub ended: Ended,
}

/// A net with what was done by it so far: the lead pass, the links that were served, the last one first, and what stopped it.
#[derive(Drop)]
pub struct Round<N: Drop, L: Link + Drop, K: Keeper> {
    pub net: N,
    pub lead: Pass<K>,
    pub served: Vec<ServedLink<L>>,
    pub stopped: Option<NetFault>,
}

/// What each thread is given. It asks at the times of the server's clock plus `since`.
#[derive(Drop)]
pub struct Service<'a, C: Clock, G: Gate, R: Wait, K: Keeper> {
    pub rt: &'a R,
    pub alloc: Global,
    pub shared: &'a SharedSession<TrustAll, K>,
    pub server: &'a Server<'a, C, G>,
    pub since: u64,
}

/// Serves one link, once the gate is passed.
fn serve_one<L: Link + Drop, C: Clock, G: Gate, R: Wait, K: Keeper>(
    service: &Service<'_, C, G, R, K>,
    mut pass: Pass<K>,
    mut link: L,
    worker: u32,
) -> (Pass<K>, ServedLink<L>)
    requires session { pass.session ≡ service.now.shared.now.session }
    requires fresh { calls_of (caller pass ∷ []) pass.seen ≡ [] }
    ensures { Serves (gives_later (C.gives service.now.server.now.clock.now) service.now.since)
        service.now.server.now.id (links_tell L.Link) pass link result.0 result.1 }
{
    let server = service.server;
    let clock = LaterClock {
        clock: server.clock,
        since: service.since,
    };
    server.gate.pass(worker, 1);
    let ended = serve_connection(
        service.rt,
        service.alloc,
        service.shared,
        &mut pass,
        server.id,
        &mut link,
        &clock,
    );
    (pass, ServedLink { link, ended })
}

/// One more link was served, before those that the round has.
fn with_one<N: Drop, L: Link + Drop, K: Keeper>(
    shared: &SharedSession<TrustAll, K>,
    mut round: Round<N, L, K>,
    pass: Pass<K>,
    one: ServedLink<L>,
) -> Round<N, L, K>
    requires lead { round.lead.session ≡ shared.now.session }
    requires pass { pass.session ≡ shared.now.session }
    requires room { vec_len round.served < vec_capacity round.served }
    ensures merged { Merged round.lead pass result.lead }
    ensures numbers { numbers_held result.lead ≡ numbers_held round.lead + numbers_held pass }
    ensures served { result.served.items ≡ round.served.items ++ one ∷ [] }
    ensures room { vec_capacity result.served ≡ vec_capacity round.served }
    ensures rest { (result.net ≡ round.net) × (result.stopped ≡ round.stopped) }
{
    shared.merge(&mut round.lead, pass);
    round.served.push_reserved(one);
    round
}

/// Nothing more is accepted.
fn stop<N: Drop, L: Link + Drop, K: Keeper>(
    shared: &SharedSession<TrustAll, K>,
    mut round: Round<N, L, K>,
    passes: Vec<Pass<K>>,
    fault: NetFault,
) -> Round<N, L, K>
    requires session { round.lead.session ≡ shared.now.session }
    requires lead { Keeps round.lead round.lead }
    requires passes { All (IsFresh round.lead) passes.items }
    ensures lead { Keeps round.lead result.lead }
    ensures numbers { numbers_held result.lead ≡ numbers_held round.lead + vec_len passes }
    ensures rest { (result.net ≡ round.net) × (result.served ≡ round.served) × (result.stopped ≡ Some fault) }
{
    round.lead = merge_all(shared, round.lead, passes);
    round.stopped = Some(fault);
    round
}

/// Accepts one link after the other, one for each pass, and serves each beside the rest.
pub fn accept_all<
    N: Net + Drop,
    C: Clock + Sync,
    G: Gate + Sync,
    R: Threads + Wait + Sync,
    K: Keeper + Send,
>(
    service: &Service<'_, C, G, R, K>,
    mut round: Round<N, N::Conn, K>,
    mut passes: Vec<Pass<K>>,
    worker: u32,
) -> Round<N, N::Conn, K>
    requires session { round.lead.session ≡ service.now.shared.now.session }
    requires lead { Keeps round.lead round.lead }
    requires passes { All (IsFresh round.lead) passes.items }
    requires few { vec_len passes + worker < 2 ^ 32 }
    requires room { vec_len passes ≤ vec_capacity round.served }
    requires begins { (round.served.items ≡ []) × (round.stopped ≡ None) }
    ensures room { vec_capacity result.served ≡ vec_capacity round.served }
    ensures round { GoesRound (gives_later (C.gives service.now.server.now.clock.now) service.now.since)
        service.now.server.now.id (net_tells N.Net) (links_tell N.Conn.Link) (vec_len passes) round result }
{
    if passes.is_empty() {
        return round;
    }
    let link = match round.net.accept() {
        Ok(link) => link,
        Err(fault) => return stop(service.shared, round, passes, fault),
    };
    let Some(pass) = passes.pop() else {
        unreachable!()
    };
    let ((pass, one), round) = join(
        service.rt,
        || -> (Pass<K>, ServedLink<N::Conn>)
            requires { IsSync R.row × (pass.session ≡ service.now.shared.now.session)
                × (calls_of (caller pass ∷ []) pass.seen ≡ []) }
            ensures { Serves (gives_later (C.gives service.entry.now.server.now.clock.now) service.entry.now.since)
                service.entry.now.server.now.id (links_tell N.Conn.Link) pass link result.0 result.1 }
        { serve_one(service, pass, link, worker) },
        || -> Round<N, N::Conn, K>
            requires { IsSync R.row × (round.lead.session ≡ service.now.shared.now.session)
                × Keeps round.lead round.lead × All (IsFresh round.lead) passes.items
                × (vec_len passes + worker + 1 < 2 ^ 32) × (vec_len passes ≤ vec_capacity round.served)
                × (round.served.items ≡ []) × (round.stopped ≡ None) }
            ensures room { vec_capacity result.served ≡ vec_capacity round.served }
            ensures round { GoesRound (gives_later
                (C.gives service.entry.now.server.now.clock.now) service.entry.now.since)
                service.entry.now.server.now.id (net_tells N.Net) (links_tell N.Conn.Link)
                (vec_len passes) round result }
        { accept_all(service, round, passes, worker + 1) },
    );
    with_one(service.shared, round, pass, one)
}
