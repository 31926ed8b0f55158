//! Sessions that are hosted over a net.
ghost use Rattle.std.specs.Prelude.{◌≡◌, ◌+◌, ◌≤◌, ◌<◌, ◌++◌, ◌∷◌, [], Ok, IfOk, length, take, vec_len, vec_capacity};
ghost use Rattle.run_steps.specs.Limits.{most_connections};
ghost use Rattle.run_steps.specs.Outside.{links_tell, net_tells};
ghost use Rattle.tea_io.specs.Told.{with_more};
ghost use Rattle.tea_io.specs.declared.net.NetCall.TheVariants.{Listen};
ghost use Rattle.reflect_server.specs.Rounds.{links_of, with_links};
ghost use Rattle.host_server.specs.Hosts.{Hosts};
ghost use Rattle.host_server.specs.Prepares.{AreClosed, AreOpened, IsPrepared, bare_all, unheard};
ghost use Rattle.host_server.specs.Rounds.{ends_in};
ghost use Rattle.host_server.specs.Rows.{AtEach, IsWhole, most_sessions, rooms_for};

use crate::accepting::{HostRound, accept_all};
use crate::hosting::{Host, HostEnd, Hosted};
use crate::rooms::{Room, Row, split_rows};
use crate::seats::Seat;
use crate::serving::{HostService, RoomedLink};
use id_claims::{Claims, MOST_IDS};
use reflect_server::ServeFault;
use reflector_core::{NoKeeper, Session};
use session_lock::{SharedSession, TrustAll};
use std::alloc::Global;
use std::sync::Wait;
use std::thread::Threads;
use tea_base::{List, SessionId, WantOfMemory};
use tea_io::{Clock, Gate, Link, Net, NetFault};

/// An id that no trust of these sessions looks at.
const NO_ID: SessionId = SessionId([0; 32]);

/// The new sessions, and the lead pass of each.
#[derive(Drop)]
pub struct Opened {
    pub rooms: Vec<Room<NoKeeper>>,
    pub leads: Vec<Seat<NoKeeper>>,
}

/// How many rooms there are to be.
pub fn rooms_for(on_demand: bool, listed: &[SessionId]) -> usize
    ensures { result ≡ rooms_for on_demand listed.now }
{
    if on_demand { MOST_IDS } else { listed.len() }
}

/// Shares so many new sessions.
pub fn open_all(alloc: Global, count: usize) -> Result<Opened, WantOfMemory>
    ensures { IfOk result (λ opened. AreOpened count opened.rooms.items opened.leads.items) }
{
    let mut rooms = Vec::with_capacity(alloc, count)?;
    let mut leads = Vec::with_capacity(alloc, count)?;
    for _made in 0..count {
        let session = Session::new(alloc);
        let Ok((shared, lead)) = SharedSession::new(alloc, NO_ID, session, TrustAll) else {
            return Err(WantOfMemory);
        };
        rooms.push_reserved(Room { shared });
        leads.push_reserved(Seat::new(lead));
    }
    Ok(Opened { rooms, leads })
}

/// The sessions of all rooms in the end, in their order. There is room for them.
fn close_all(
    mut rooms: Vec<Room<NoKeeper>>,
    mut leads: Vec<Seat<NoKeeper>>,
    mut sessions: Vec<Session>,
) -> Vec<Session>
    requires leads { AtEach IsWhole rooms.items leads.items }
    requires room { (sessions.items ≡ []) × (vec_len rooms ≤ vec_capacity sessions) }
    ensures { AreClosed leads.items result.items }
{
    while let Some(room) = rooms.pop() {
        let Some(lead) = leads.pop() else {
            unreachable!()
        };
        sessions.push_reserved(room.close(lead));
    }
    sessions.reverse();
    sessions
}

/// The sessions of the first rooms in the end. Those of the others were never made: nobody has called them.
pub fn close_made(
    mut rooms: Vec<Room<NoKeeper>>,
    mut leads: Vec<Seat<NoKeeper>>,
    sessions: Vec<Session>,
    made: usize,
) -> Vec<Session>
    requires leads { AtEach IsWhole (take made rooms.items) (take made leads.items) }
    requires room { (sessions.items ≡ []) × (vec_len rooms ≤ vec_capacity sessions) }
    ensures { AreClosed (take made leads.items) result.items }
{
    rooms.truncate(made);
    leads.truncate(made);
    close_all(rooms, leads, sessions)
}

/// All that is made before a net is asked.
#[derive(Drop)]
struct Prepared<L: Link + Drop> {
    rooms: Vec<Room<NoKeeper>>,
    claims: Claims,
    lead: Row<NoKeeper>,
    rows: Vec<Row<NoKeeper>>,
    served: Vec<RoomedLink<L>>,
    ends: Vec<HostEnd>,
    sessions: Vec<Session>,
}

fn prepare<L: Link + Drop>(
    alloc: Global,
    listed: &[SessionId],
    on_demand: bool,
    connections: u32,
) -> Result<Prepared<L>, WantOfMemory>
    requires listed { length listed.now ≤ most_sessions }
    requires connections { connections ≤ most_connections }
    ensures { IfOk result (λ prepared. IsPrepared listed.now on_demand connections prepared) }
{
    let count = rooms_for(on_demand, listed);
    let served = Vec::with_capacity(alloc, connections as usize)?;
    let ends = Vec::with_capacity(alloc, connections as usize)?;
    let sessions = Vec::with_capacity(alloc, count)?;
    let (claims, claim) = Claims::new(alloc, listed)?;
    let Opened { rooms, leads } = open_all(alloc, count)?;
    let mut lead = Row {
        seats: leads,
        claim,
    };
    let rows = split_rows(alloc, &rooms, &claims, &mut lead, connections)?;
    Ok(Prepared {
        rooms,
        claims,
        lead,
        rows,
        served,
        ends,
        sessions,
    })
}

/// Gives the links back to their net, the last one first.
fn give_back<N: Net>(
    net: &mut N,
    mut served: Vec<RoomedLink<N::Conn>>,
    mut ends: Vec<HostEnd>,
) -> Vec<HostEnd>
    requires lent { vec_len served ≤ N.lent net.old }
    requires room { vec_len ends + vec_len served ≤ vec_capacity ends }
    ensures ends { result.items ≡ ends.items ++ ends_in served.items }
    ensures over { N.over net.new ≡ with_more (N.over net.old) (links_of (bare_all served.items)) }
    ensures counts { N.link_counts net.new
        ≡ with_links N.Conn.counts (N.link_counts net.old) (links_of (bare_all served.items)) }
    ensures lent { N.lent net.new + vec_len served ≡ N.lent net.old }
    ensures coming { N.coming net.new ≡ N.coming net.old }
    ensures asked { N.asked net.new ≡ N.asked net.old }
    ensures faults { N.faults net.new ≡ N.faults net.old }
{
    while let Some(one) = served.pop() {
        let RoomedLink {
            session,
            link,
            ended,
        } = one;
        net.back(link);
        ends.push_reserved(HostEnd { session, ended });
    }
    ends
}

/// Serves, once the net listens.
fn host_all<N: Net + Drop, C: Clock + Sync, G: Gate + Sync, R: Threads + Wait + Sync>(
    rt: &R,
    alloc: Global,
    host: &Host<'_, C, G>,
    net: N,
    prepared: Prepared<N::Conn>,
) -> (N, Hosted)
    requires ids { (0 < length host.now.ids.now) × (length host.now.ids.now ≤ most_sessions) }
    requires connections { host.now.connections ≤ most_connections }
    requires prepared { IsPrepared host.now.ids.now host.now.on_demand host.now.connections prepared }
    ensures { Hosts (C.gives host.now.clock.now) host.now.ids.now host.now.on_demand
        (net_tells N.Net) (links_tell N.Conn.Link) [] host.now.connections net result.0 (Ok result.1) }
{
    let Prepared {
        rooms,
        claims,
        lead,
        rows,
        served,
        ends,
        sessions,
    } = prepared;
    let service = HostService {
        rt,
        alloc,
        host,
        rooms: rooms.as_slice(),
        claims: &claims,
    };
    let round = HostRound {
        net,
        lead,
        served,
        stopped: None,
    };
    let HostRound {
        mut net,
        lead,
        served,
        stopped,
    } = accept_all(&service, round, rows, 0);
    let Row { seats, claim } = lead;
    let ids = List::from_vec(claims.close(claim));
    let ends = List::from_vec(give_back(&mut net, served, ends));
    let made = ids.len();
    let sessions = List::from_vec(close_made(rooms, seats, sessions, made));
    let hosted = Hosted {
        ids,
        sessions,
        ends,
        stopped,
    };
    (net, hosted)
}

/// Why nothing was hosted, by why the net did not listen.
pub fn unheard(fault: NetFault) -> ServeFault
    ensures { result ≡ unheard fault }
{
    match fault {
        NetFault::Failed => ServeFault::ListenFault,
        NetFault::WantOfMemory => ServeFault::WantOfMemory,
    }
}

/// Hosts a new session for each id, to so many links of a net. A link is heard until it gives a frame, and is then served by the session that this
/// frame names. Where sessions are made on demand, a JOIN of an id that no session has makes one, up to 256 in all. Each session is as if it were
/// alone.
pub fn host<N: Net + Drop, C: Clock + Sync, G: Gate + Sync, R: Threads + Wait + Sync>(
    rt: &R,
    alloc: Global,
    host: &Host<'_, C, G>,
    mut net: N,
) -> (N, Result<Hosted, ServeFault>)
    requires ids { (0 < length host.now.ids.now) × (length host.now.ids.now ≤ most_sessions) }
    requires connections { (1 ≤ host.now.connections) × (host.now.connections ≤ most_connections) }
    ensures { Hosts (C.gives host.now.clock.now) host.now.ids.now host.now.on_demand
        (net_tells N.Net) (links_tell N.Conn.Link)
        (Listen host.now.address.now ∷ []) host.now.connections net result.0 result.1 }
{
    let prepared = match prepare(alloc, host.ids, host.on_demand, host.connections) {
        Ok(prepared) => prepared,
        Err(WantOfMemory) => return (net, Err(ServeFault::WantOfMemory)),
    };
    match net.listen(host.address) {
        Ok(()) => {
            let (net, hosted) = host_all(rt, alloc, host, net, prepared);
            (net, Ok(hosted))
        }
        Err(fault) => (net, Err(unheard(fault))),
    }
}
