//! A session that is reflected by posts.
ghost use Rattle.std.specs.Prelude.{◌≡◌, ◌≢◌, ◌+◌, ◌≤◌, [], ◌∷◌, List, All, Err, length, vec_len, vec_capacity};
ghost use Rattle.run_steps.specs.Outside.{links_tell, net_tells};
ghost use Rattle.tea_base.specs.declared.entry.SessionId.{SessionId};
ghost use Rattle.tea_io.specs.declared.net.NetCall.TheVariants.{Listen};
ghost use Rattle.reflector_core.specs.Keeping.{IsCovered};
ghost use Rattle.session_lock.specs.Keeping.{KeepsPlay};
ghost use Rattle.id_claims.specs.Passes.{Closes};
ghost use Rattle.id_claims.specs.Rules.{all_parts};
ghost use Rattle.reflect_server.specs.Keeping.{keeper_tells};
ghost use Rattle.reflect_server.specs.Opening.{gives_later};
ghost use Rattle.reflect_server.specs.declared.reflection.KeptFault.TheVariants as kept_fault;
ghost use Rattle.host_server.specs.Prepares.{IsClosedWith};
ghost use Rattle.host_server.specs.Rows.{AreRoomsFor, AtEach, IsWhole};
ghost use Rattle.host_posts.specs.Posts.{most_posts};
ghost use Rattle.host_posts.specs.Shares.{IsUnused, share_tells, shares_tell};
ghost use Rattle.reflect_posts.specs.Prepares.{HasServed, IsAlone, IsOpened, IsStocked};
ghost use Rattle.reflect_posts.specs.Reflects.{ReflectsOn, ReflectsUnkeptOn, with_kept_fault};

use crate::preparing::{Prepared, Stock, prepare};
use crate::rows::make_posts;
use crate::service::{PostServer, ReflectedOn};
use crate::sharing::take_shares;
use host_posts::{PostRound, PostService, gather_posts, run_posts};
use host_server::{Host, Room, Row, Seat};
use id_claims::Claims;
use net_shares::{SharedNet, Stop};
use reflect_server::{
    KeptFault, LaterClock, Opening, ServeFault, Unopened, close_opened, unheard, unopened_fault,
};
use reflector_core::{Keeper, NoKeeper, Session};
use session_lock::Pass;
use std::alloc::Global;
use std::slice;
use std::sync::Wait;
use std::thread::Threads;
use tea_base::List;
use tea_io::{Clock, Gate};

/// The session of the room in the end, and its keeper.
fn close_room<K: Keeper>(room: Room<K>, mut seats: Vec<Seat<K>>) -> (Session, K)
    requires { AtEach IsWhole (room ∷ []) seats.items }
    ensures session { AtEach (λ _ lead. IsClosedWith lead result.0) (room ∷ []) seats.items }
    ensures keeper { AtEach (λ room lead.
        KeepsPlay K.holds K.shut K.faults room.shared.faults lead.opening lead.seen result.1) (room ∷ []) seats.items }
{
    let Some(lead) = seats.pop() else {
        unreachable!()
    };
    let Room { shared, .. } = room;
    shared.close_kept(lead.into_pass())
}

/// What was reflected, once all posts have ended.
fn close_round<N: SharedNet + Drop, K: Keeper>(
    room: Room<K>,
    claims: Claims,
    round: PostRound<N, K>,
) -> (N, K, ReflectedOn)
    requires claims { round.lead.claim.claims ≡ claims.claims }
    requires parts { round.lead.claim.parts ≡ all_parts }
    requires lead { (ids : List SessionId) → Closes claims.listed round.lead.claim ids
        → AtEach IsWhole (room ∷ []) round.lead.seats.items }
    ensures net { result.0 ≡ round.net }
    ensures ids { (ids : List SessionId) × Closes claims.listed round.lead.claim ids }
    ensures session { AtEach (λ _ lead. IsClosedWith lead result.2.session) (room ∷ []) round.lead.seats.items }
    ensures keeper { AtEach (λ room lead.
        KeepsPlay K.holds K.shut K.faults room.shared.faults lead.opening lead.seen result.1)
        (room ∷ []) round.lead.seats.items }
    ensures posts { result.2.posts ≡ round.outcomes.items }
{
    let PostRound {
        net,
        lead,
        outcomes,
    } = round;
    let Row { seats, claim } = lead;
    // tells that no other id was claimed
    let _ids = claims.close(claim); // for the prover
    let (session, keeper) = close_room(room, seats);
    let posts = List::from_vec(outcomes);
    (net, keeper, ReflectedOn { session, posts })
}

/// Runs a post for each share until all have ended, and puts together what they have.
fn serve_all<
    N: SharedNet + Drop,
    C: Clock + Sync,
    G: Gate + Sync,
    R: Threads + Wait + Sync,
    K: Keeper + Send,
    T: Stop + Sync,
>(
    service: &PostService<'_, C, G, R, K, T>,
    net: N,
    lead: Pass<K>,
    shares: Vec<N::Part>,
    stock: Stock<N::Part, K>,
) -> PostRound<N, K>
    requires rooms { AreRoomsFor service.now.host.now.on_demand service.now.host.now.ids.now service.now.rooms.now }
    requires one { length service.now.rooms.now ≡ 1 }
    requires lead { AtEach IsWhole service.now.rooms.now (lead ∷ []) }
    requires alone { IsAlone lead }
    requires stock { IsStocked (vec_len shares) service.now.claims.now stock }
    requires few { vec_len shares ≤ most_posts }
    requires unused { All (IsUnused (net_tells N.Net) (share_tells N.Part.Share) net) shares.items }
    requires shared { vec_len shares ≤ N.shared net }
    ensures shared { N.shared result.net + vec_len shares ≡ N.shared net }
    ensures served { HasServed (C.gives service.now.host.now.clock.now) (T.may service.now.stop.now)
        service.now.host.now.ids.now service.now.host.now.on_demand (net_tells N.Net) (share_tells N.Part.Share)
        (links_tell N.Conn.Link) service.now.rooms.now service.now.claims.now (vec_len shares) lead net result }
{
    let Stock {
        lead: mut row,
        rows,
        posts,
        ended,
        outcomes,
    } = stock;
    row.seats.push_reserved(Seat::new(lead));
    let posts = make_posts::<N, K>(service.rooms, &mut row, rows, shares, posts);
    let ended = run_posts(service, posts, ended, 0);
    let round = PostRound {
        net,
        lead: row,
        outcomes,
    };
    gather_posts(service, round, ended)
}

/// Serves, once the net listens.
fn reflect_shared<
    N: SharedNet + Drop,
    C: Clock + Sync,
    G: Gate + Sync,
    R: Threads + Wait + Sync,
    T: Stop + Sync,
    K: Keeper + Send,
>(
    rt: &R,
    alloc: Global,
    server: &PostServer<'_, C, G, T>,
    mut net: N,
    prepared: Prepared<N::Part, K>,
) -> (N, K, Result<ReflectedOn, KeptFault>)
    requires posts { server.now.posts ≤ most_posts }
    requires opened { IsOpened (gives_later (C.gives server.now.clock.now) prepared.since) prepared.shared prepared.lead }
    requires shares { (prepared.shares.items ≡ []) × (server.now.posts ≤ vec_capacity prepared.shares) }
    requires listed { prepared.claims.listed ≡ server.now.id ∷ [] }
    requires stock { IsStocked server.now.posts prepared.claims prepared.stock }
    ensures kept { result.2 ≢ Err kept_fault.Unkept }
    ensures reflects { ReflectsOn (gives_later (C.gives server.now.clock.now) prepared.since) (T.may server.now.stop.now)
        server.now.id prepared.lead.opening
        (keeper_tells K.holds K.shut K.faults prepared.shared.faults prepared.lead.opening result.1) (net_tells N.Net)
        (shares_tell N.shared N.Part.Share) (links_tell N.Conn.Link) [] server.now.posts net result.0 result.2 }
{
    let Prepared {
        since,
        shared,
        lead,
        mut shares,
        claims,
        stock,
    } = prepared;
    match take_shares(&mut net, &mut shares, server.posts) {
        Ok(()) => (),
        Err(fault) => return (net, close_opened(shared, lead), Err(unheard(fault))),
    }
    let clock = LaterClock {
        clock: server.clock,
        since,
    };
    let ids = [server.id];
    let host = Host {
        ids: &ids,
        on_demand: false,
        address: server.address,
        connections: server.posts,
        clock: &clock,
        gate: server.gate,
    };
    let room = Room { shared };
    let service = PostService {
        rt,
        alloc,
        host: &host,
        rooms: slice::from_ref(&room),
        claims: &claims,
        stop: server.stop,
    };
    let round = serve_all(&service, net, lead, shares, stock);
    let (net, keeper, reflected) = close_round(room, claims, round);
    (net, keeper, Ok(reflected))
}

/// Reflects a session that has a keeper, until all of so many posts have ended: each is a thread that serves one link after the other from its own
/// share of the net. First each view that is here in the session is made to leave, in rising order; where such a Leave is not kept, the net is asked
/// nothing. The session is asked at the clock's times plus the horizon that it had. A link is heard until it gives a frame; a JOIN of another id is
/// refused by the session. What any link was sent, the keeper holds. The keeper comes back whatever is answered, and the net has all its shares back.
pub fn reflect_on<
    N: SharedNet + Drop,
    C: Clock + Sync,
    G: Gate + Sync,
    R: Threads + Wait + Sync,
    T: Stop + Sync,
    K: Keeper + Send,
>(
    rt: &R,
    alloc: Global,
    server: &PostServer<'_, C, G, T>,
    opening: Opening<K>,
    mut net: N,
) -> (N, K, Result<ReflectedOn, KeptFault>)
    requires posts { (1 ≤ server.now.posts) × (server.now.posts ≤ most_posts) }
    requires covered { IsCovered (K.holds opening.keeper) opening.session.plain.kept opening.session.plain }
    requires written { IsCovered (K.writes opening.keeper) opening.session.plain.kept opening.session.plain }
    requires unshut { K.shut opening.keeper → ⊥ }
    ensures { ReflectsOn (gives_later (C.gives server.now.clock.now) opening.session.plain.horizon)
        (T.may server.now.stop.now) server.now.id opening.session.plain
        (keeper_tells K.holds K.shut K.faults (K.faults opening.keeper) opening.session.plain result.1) (net_tells N.Net)
        (shares_tell N.shared N.Part.Share) (links_tell N.Conn.Link) (Listen server.now.address.now ∷ [])
        server.now.posts net result.0 result.2 }
{
    let prepared = match prepare(rt, alloc, server, opening) {
        Ok(prepared) => prepared,
        Err(Unopened { keeper, fault }) => return (net, keeper, Err(unopened_fault(fault))),
    };
    match net.listen_shared(server.address) {
        Ok(()) => reflect_shared(rt, alloc, server, net, prepared),
        Err(fault) => {
            let Prepared { shared, lead, .. } = prepared;
            (net, close_opened(shared, lead), Err(unheard(fault)))
        }
    }
}

/// What is answered of a session without a keeper.
fn answer_unkept(answer: Result<ReflectedOn, KeptFault>) -> Result<ReflectedOn, ServeFault>
    requires { answer ≢ Err kept_fault.Unkept }
    ensures { with_kept_fault result ≡ answer }
{
    match answer {
        Ok(reflected) => Ok(reflected),
        Err(KeptFault::ListenFault) => Err(ServeFault::ListenFault),
        Err(KeptFault::WantOfMemory) => Err(ServeFault::WantOfMemory),
        Err(KeptFault::Unkept) => unreachable!(),
    }
}

/// Reflects a session that has no keeper. Else it is as `reflect_on`, and never Unkept.
pub fn reflect_unkept_on<
    N: SharedNet + Drop,
    C: Clock + Sync,
    G: Gate + Sync,
    R: Threads + Wait + Sync,
    T: Stop + Sync,
>(
    rt: &R,
    alloc: Global,
    server: &PostServer<'_, C, G, T>,
    opening: Session,
    net: N,
) -> (N, Result<ReflectedOn, ServeFault>)
    requires { (1 ≤ server.now.posts) × (server.now.posts ≤ most_posts) }
    ensures { ReflectsUnkeptOn (gives_later (C.gives server.now.clock.now) opening.plain.horizon)
        (T.may server.now.stop.now) server.now.id opening.plain (net_tells N.Net) (shares_tell N.shared N.Part.Share)
        (links_tell N.Conn.Link) (Listen server.now.address.now ∷ []) server.now.posts net result.0 result.1 }
{
    // tells that the session is sound, so that it covers itself
    let _horizon = opening.horizon(); // for the prover
    let opening = Opening {
        session: opening,
        keeper: NoKeeper,
    };
    let (net, _keeper, answer) = reflect_on(rt, alloc, server, opening, net);
    (net, answer_unkept(answer))
}
