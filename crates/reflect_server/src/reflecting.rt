//! A session that is reflected over a net.
ghost use Rattle.std.specs.Prelude.{◌≡◌, ◌≢◌, ◌+◌, ◌≤◌, ◌++◌, ◌∷◌, [], Ok, Err, IfErr, IfOk, vec_len, vec_capacity};
ghost use Rattle.run_steps.specs.Limits.{most_connections};
ghost use Rattle.run_steps.specs.Outside.{links_tell, net_tells};
ghost use Rattle.tea_io.specs.Told.{with_more};
ghost use Rattle.tea_io.specs.declared.net.NetCall.TheVariants.{Listen};
ghost use Rattle.reflect_server.specs.Opening.{gives_later};
ghost use Rattle.reflect_server.specs.Rounds.{ended_of, links_of, with_links};
ghost use Rattle.reflector_core.specs.Keeping.{IsCovered};
ghost use Rattle.reflect_server.specs.Keeping.{IsUnopened, keeper_tells};
ghost use Rattle.reflect_server.specs.Reflects.{HasRooms, IsPrepared, Reflects, ReflectsKept, unheard, unopened_fault, with_kept_fault};
ghost use Rattle.reflect_server.specs.declared.reflection.KeptFault.TheVariants as kept_fault;

use crate::accepting::{Round, ServedLink, Service, accept_all};
use crate::opening::{LaterClock, Unopened, close_opened, open_session};
use crate::passes::split_all;
use crate::reflection::{KeptFault, Opening, Reflected, ServeFault, Server};
use connection::Ended;
use reflector_core::{CallFault, Keeper, NoKeeper, Session};
use session_lock::{Pass, SharedSession, TrustAll};
use std::alloc::Global;
use std::sync::Wait;
use std::thread::Threads;
use tea_base::{List, WantOfMemory};
use tea_io::{Clock, Gate, Link, Net, NetFault};

/// Room for so many passes, links and ends.
#[derive(Drop)]
struct Rooms<L: Link + Drop, K: Keeper> {
    passes: Vec<Pass<K>>,
    served: Vec<ServedLink<L>>,
    ends: Vec<Ended>,
}

fn make_rooms<L: Link + Drop, K: Keeper>(
    alloc: Global,
    connections: u32,
) -> Result<Rooms<L, K>, WantOfMemory>
    ensures { IfOk result (λ rooms. HasRooms connections rooms) }
{
    Ok(Rooms {
        passes: Vec::with_capacity(alloc, connections as usize)?,
        served: Vec::with_capacity(alloc, connections as usize)?,
        ends: Vec::with_capacity(alloc, connections as usize)?,
    })
}

/// All that is made before a net is asked: the shared session, the lead pass, which opened it, and room for one more for each connection and for what
/// comes back. `since` is the horizon that the session had, in microseconds.
#[derive(Drop)]
struct Prepared<L: Link + Drop, K: Keeper> {
    since: u64,
    shared: SharedSession<TrustAll, K>,
    lead: Pass<K>,
    rooms: Rooms<L, K>,
}

fn prepare<L: Link + Drop, C: Clock, G: Gate, R: Wait, K: Keeper>(
    rt: &R,
    alloc: Global,
    server: &Server<'_, C, G>,
    opening: Opening<K>,
) -> Result<Prepared<L, K>, Unopened<K>>
    requires connections { server.now.connections ≤ most_connections }
    requires covered { IsCovered (K.holds opening.keeper) opening.session.plain.kept opening.session.plain }
    requires written { IsCovered (K.writes opening.keeper) opening.session.plain.kept opening.session.plain }
    requires unshut { K.shut opening.keeper → ⊥ }
    ensures since { IfOk result (λ prepared. prepared.since ≡ opening.session.plain.horizon) }
    ensures begins { IfOk result (λ prepared. prepared.lead.opening ≡ opening.session.plain) }
    ensures faults { IfOk result (λ prepared. prepared.shared.faults ≡ K.faults opening.keeper) }
    ensures prepared { IfOk result (λ prepared.
        IsPrepared (gives_later (C.gives server.now.clock.now) prepared.since) server.now.connections prepared) }
    ensures unopened { IfErr result (λ unopened.
        IsUnopened (gives_later (C.gives server.now.clock.now) opening.session.plain.horizon) opening.session.plain
        (keeper_tells K.holds K.shut K.faults (K.faults opening.keeper) opening.session.plain unopened.keeper)
        unopened.fault) }
{
    let since = opening.session.horizon();
    let Ok(rooms) = make_rooms(alloc, server.connections) else {
        let Opening { keeper, .. } = opening;
        return Err(Unopened::wants(keeper));
    };
    let clock = LaterClock {
        clock: server.clock,
        since,
    };
    let (shared, lead) = open_session(rt, alloc, server.id, opening, &clock)?;
    Ok(Prepared {
        since,
        shared,
        lead,
        rooms,
    })
}

/// Gives the links back to their net, the last one first.
fn give_back<N: Net>(
    net: &mut N,
    mut served: Vec<ServedLink<N::Conn>>,
    mut ends: Vec<Ended>,
) -> Vec<Ended>
    requires lent { vec_len served ≤ N.lent net.old }
    requires room { vec_len ends + vec_len served ≤ vec_capacity ends }
    ensures ends { result.items ≡ ends.items ++ ended_of served.items }
    ensures over { N.over net.new ≡ with_more (N.over net.old) (links_of served.items) }
    ensures counts { N.link_counts net.new ≡ with_links N.Conn.counts (N.link_counts net.old) (links_of served.items) }
    ensures lent { N.lent net.new + vec_len served ≡ N.lent net.old }
    ensures coming { N.coming net.new ≡ N.coming net.old }
    ensures asked { N.asked net.new ≡ N.asked net.old }
    ensures faults { N.faults net.new ≡ N.faults net.old }
{
    while let Some(ServedLink { link, ended }) = served.pop() {
        net.back(link);
        ends.push_reserved(ended);
    }
    ends
}

/// Serves, once the net listens.
fn serve_all<
    N: Net + Drop,
    C: Clock + Sync,
    G: Gate + Sync,
    R: Threads + Wait + Sync,
    K: Keeper + Send,
>(
    rt: &R,
    alloc: Global,
    server: &Server<'_, C, G>,
    net: N,
    prepared: Prepared<N::Conn, K>,
) -> (N, K, Reflected)
    requires connections { server.now.connections ≤ most_connections }
    requires prepared { IsPrepared (gives_later (C.gives server.now.clock.now) prepared.since) server.now.connections
        prepared }
    ensures reflects { ReflectsKept
        (gives_later (C.gives server.now.clock.now) prepared.since) server.now.id prepared.lead.opening
        (keeper_tells K.holds K.shut K.faults prepared.shared.faults prepared.lead.opening result.1) (net_tells N.Net)
        (links_tell N.Conn.Link) [] server.now.connections net result.0 (Ok result.2) }
{
    let Prepared {
        since,
        shared,
        mut lead,
        rooms: Rooms {
            passes,
            served,
            ends,
        },
    } = prepared;
    let passes = split_all(&shared, &mut lead, passes, server.connections);
    let service = Service {
        rt,
        alloc,
        shared: &shared,
        server,
        since,
    };
    let round = Round {
        net,
        lead,
        served,
        stopped: None,
    };
    let Round {
        mut net,
        lead,
        served,
        stopped,
    } = accept_all(&service, round, passes, 0);
    let ends = List::from_vec(give_back(&mut net, served, ends));
    let (session, keeper) = shared.close_kept(lead);
    let reflected = Reflected {
        session,
        ends,
        stopped,
    };
    (net, keeper, reflected)
}

/// Why nothing was reflected of a session that was opened, by why the net did not listen.
pub fn unheard(fault: NetFault) -> KeptFault
    ensures { result ≡ unheard fault }
{
    match fault {
        NetFault::Failed => KeptFault::ListenFault,
        NetFault::WantOfMemory => KeptFault::WantOfMemory,
    }
}

/// Why nothing was reflected of a session that was not opened.
pub fn unopened_fault(fault: CallFault) -> KeptFault
    ensures { result ≡ unopened_fault fault }
{
    match fault {
        CallFault::WantOfMemory => KeptFault::WantOfMemory,
        CallFault::Unkept => KeptFault::Unkept,
    }
}

/// Reflects a session that has a keeper, to so many links of a net. First each view that is here in it is made to leave, in rising order; where
/// such a Leave is not kept, the net is asked nothing. The session is asked at the clock's times plus the horizon that it had, so its time goes
/// on at once. What any link was sent, the keeper holds. The keeper comes back whatever is answered.
pub fn reflect_kept<
    N: Net + Drop,
    C: Clock + Sync,
    G: Gate + Sync,
    R: Threads + Wait + Sync,
    K: Keeper + Send,
>(
    rt: &R,
    alloc: Global,
    server: &Server<'_, C, G>,
    opening: Opening<K>,
    mut net: N,
) -> (N, K, Result<Reflected, KeptFault>)
    requires connections { (1 ≤ server.now.connections) × (server.now.connections ≤ most_connections) }
    requires covered { IsCovered (K.holds opening.keeper) opening.session.plain.kept opening.session.plain }
    requires written { IsCovered (K.writes opening.keeper) opening.session.plain.kept opening.session.plain }
    requires unshut { K.shut opening.keeper → ⊥ }
    ensures { ReflectsKept (gives_later (C.gives server.now.clock.now) opening.session.plain.horizon) server.now.id
        opening.session.plain
        (keeper_tells K.holds K.shut K.faults (K.faults opening.keeper) opening.session.plain result.1)
        (net_tells N.Net) (links_tell N.Conn.Link)
        (Listen server.now.address.now ∷ []) server.now.connections net result.0 result.2 }
{
    let prepared = match prepare(rt, alloc, server, opening) {
        Ok(prepared) => prepared,
        Err(Unopened { keeper, fault }) => return (net, keeper, Err(unopened_fault(fault))),
    };
    match net.listen(server.address) {
        Ok(()) => {
            let (net, keeper, reflected) = serve_all(rt, alloc, server, net, prepared);
            (net, keeper, Ok(reflected))
        }
        Err(fault) => {
            let Prepared { shared, lead, .. } = prepared;
            (net, close_opened(shared, lead), Err(unheard(fault)))
        }
    }
}

/// What is answered of a session without a keeper.
fn answer_unkept(answer: Result<Reflected, KeptFault>) -> Result<Reflected, ServeFault>
    requires { answer ≢ Err kept_fault.Unkept }
    ensures { with_kept_fault result ≡ answer }
{
    match answer {
        Ok(reflected) => Ok(reflected),
        Err(KeptFault::ListenFault) => Err(ServeFault::ListenFault),
        Err(KeptFault::WantOfMemory) => Err(ServeFault::WantOfMemory),
        Err(KeptFault::Unkept) => unreachable!(),
    }
}

/// Reflects a session that has no keeper. Else it is as `reflect_kept`, and never Unkept.
pub fn reflect<N: Net + Drop, C: Clock + Sync, G: Gate + Sync, R: Threads + Wait + Sync>(
    rt: &R,
    alloc: Global,
    server: &Server<'_, C, G>,
    opening: Session,
    net: N,
) -> (N, Result<Reflected, ServeFault>)
    requires { (1 ≤ server.now.connections) × (server.now.connections ≤ most_connections) }
    ensures { Reflects (gives_later (C.gives server.now.clock.now) opening.plain.horizon) server.now.id opening.plain
        (net_tells N.Net) (links_tell N.Conn.Link)
        (Listen server.now.address.now ∷ []) server.now.connections net result.0 result.1 }
{
    // tells that the session is sound, so that it covers itself
    let _horizon = opening.horizon(); // for the prover
    let opening = Opening {
        session: opening,
        keeper: NoKeeper,
    };
    let (net, _keeper, answer) = reflect_kept(rt, alloc, server, opening, net);
    (net, answer_unkept(answer))
}
