//! Links that are accepted one after the other, each served in a thread beside the rest.
ghost use Rattle.std.specs.Prelude.{◌≡◌, ◌+◌, ◌<◌, ◌≤◌, ◌^◌, ◌++◌, ◌∷◌, [], All, Some, None, length, vec_len, vec_capacity};
ghost use Rattle.std.specs.Thread.{IsSync};
ghost use Rattle.run_steps.specs.Outside.{links_tell, net_tells};
ghost use Rattle.tea_io.specs.Links.{no_counts};
ghost use Rattle.id_claims.specs.Passes.{Merged};
ghost use Rattle.reflect_server.specs.Passes.{Keeps};
ghost use Rattle.host_server.specs.Claiming.{GathersClaims, HasKeptClaims, InTheEnd};
ghost use Rattle.host_server.specs.Rounds.{GoesAround, ServesRow};
ghost use Rattle.host_server.specs.Rows.{AreRoomsFor, AtAll, AtEach, HasKept, IsFreshRow, IsIdle, IsOf, TakesIn};

use crate::rooms::{Row, merge_row, merge_rows};
use crate::serving::{HostService, RoomedLink, serve_link};
use reflector_core::Keeper;
use std::sync::Wait;
use std::thread::{Threads, join};
use tea_io::{Clock, Gate, Link, Net, NetFault};

/// A net with what was done by it so far: the lead row of passes, the links that were served, the last one first, and what stopped it.
#[derive(Drop)]
pub struct HostRound<N: Drop, L: Link + Drop, K: Keeper> {
    pub net: N,
    pub lead: Row<K>,
    pub served: Vec<RoomedLink<L>>,
    pub stopped: Option<NetFault>,
}

/// One more link was served, before those that the round has.
fn with_one<N: Drop, L: Link + Drop, C: Clock, G: Gate, R: Wait, K: Keeper>(
    service: &HostService<'_, C, G, R, K>,
    mut round: HostRound<N, L, K>,
    row: Row<K>,
    one: RoomedLink<L>,
) -> HostRound<N, L, K>
    requires leads { AtEach IsOf service.now.rooms.now round.lead.seats.items }
    requires seats { AtEach IsOf service.now.rooms.now row.seats.items }
    requires lead_claims { round.lead.claim.claims ≡ service.now.claims.now.claims }
    requires row_claims { row.claim.claims ≡ service.now.claims.now.claims }
    requires room { vec_len round.served < vec_capacity round.served }
    ensures merged { AtAll (λ _ before other now.
        TakesIn before other now) round.lead.seats.items row.seats.items result.lead.seats.items }
    ensures claim { Merged round.lead.claim row.claim result.lead.claim }
    ensures served { result.served.items ≡ round.served.items ++ one ∷ [] }
    ensures room { vec_capacity result.served ≡ vec_capacity round.served }
    ensures rest { (result.net ≡ round.net) × (result.stopped ≡ round.stopped) }
{
    merge_row(service.rooms, service.claims, &mut round.lead, row);
    round.served.push_reserved(one);
    round
}

/// Nothing more is accepted.
fn stop<N: Drop, L: Link + Drop, C: Clock, G: Gate, R: Wait, K: Keeper>(
    service: &HostService<'_, C, G, R, K>,
    mut round: HostRound<N, L, K>,
    rows: Vec<Row<K>>,
    fault: NetFault,
) -> HostRound<N, L, K>
    requires leads { AtEach IsOf service.now.rooms.now round.lead.seats.items }
    requires claims { round.lead.claim.claims ≡ service.now.claims.now.claims }
    requires kept { All (λ lead. Keeps lead lead) round.lead.seats.items }
    requires rows { All (IsFreshRow round.lead) rows.items }
    ensures leads { AtEach (HasKept (vec_len rows)) round.lead.seats.items result.lead.seats.items }
    ensures claim { HasKeptClaims (vec_len rows) round.lead.claim result.lead.claim }
    ensures rest { (result.net ≡ round.net) × (result.served ≡ round.served) × (result.stopped ≡ Some fault) }
{
    merge_rows(service.rooms, service.claims, &mut round.lead, rows);
    round.stopped = Some(fault);
    round
}

/// Accepts one link after the other, one for each row of passes, and serves each beside the rest.
pub fn accept_all<
    N: Net + Drop,
    C: Clock + Sync,
    G: Gate + Sync,
    R: Threads + Wait + Sync,
    K: Keeper + Send,
>(
    service: &HostService<'_, C, G, R, K>,
    mut round: HostRound<N, N::Conn, K>,
    mut rows: Vec<Row<K>>,
    worker: u32,
) -> HostRound<N, N::Conn, K>
    requires rooms { AreRoomsFor service.now.host.now.on_demand service.now.host.now.ids.now service.now.rooms.now }
    requires leads { AtEach IsOf service.now.rooms.now round.lead.seats.items }
    requires claims { round.lead.claim.claims ≡ service.now.claims.now.claims }
    requires kept { All (λ lead. Keeps lead lead) round.lead.seats.items }
    requires rows { All (IsFreshRow round.lead) rows.items }
    requires few { vec_len rows + worker < 2 ^ 32 }
    requires room { vec_len rows ≤ vec_capacity round.served }
    requires begins { (round.served.items ≡ []) × (round.stopped ≡ None) }
    ensures room { vec_capacity result.served ≡ vec_capacity round.served }
    ensures few { length result.served.items ≤ vec_len rows }
    ensures leads { AtEach IsOf service.now.rooms.now result.lead.seats.items }
    ensures claim { GathersClaims service.now.host.now.on_demand (vec_len rows) round.lead.claim result.lead.claim }
    ensures round { InTheEnd service.now.host.now.on_demand service.now.host.now.ids.now result.lead.claim.seen
        (λ ids. GoesAround (C.gives service.now.host.now.clock.now) ids service.now.host.now.on_demand
        (net_tells N.Net) (links_tell N.Conn.Link) service.now.rooms.now (vec_len rows) round result) }
{
    if rows.is_empty() {
        return round;
    }
    let link = match round.net.accept() {
        Ok(link) => link,
        Err(fault) => return stop(service, round, rows, fault),
    };
    let Some(row) = rows.pop() else {
        unreachable!()
    };
    let ((row, one), round) = join(
        service.rt,
        || -> (Row<K>, RoomedLink<N::Conn>)
            requires { IsSync R.row
                × AreRoomsFor service.now.host.now.on_demand service.now.host.now.ids.now service.now.rooms.now
                × AtEach IsIdle service.now.rooms.now row.seats.items
                × (row.claim.claims ≡ service.now.claims.now.claims) × (N.Conn.counts link ≡ no_counts) }
            ensures seats { AtEach IsOf service.entry.now.rooms.now result.0.seats.items }
            ensures claim { GathersClaims service.entry.now.host.now.on_demand 0 row.claim result.0.claim }
            ensures served { InTheEnd service.entry.now.host.now.on_demand service.entry.now.host.now.ids.now
                result.0.claim.seen (λ ids. ServesRow (C.gives service.entry.now.host.now.clock.now) ids
                service.entry.now.host.now.on_demand (links_tell N.Conn.Link) service.entry.now.rooms.now
                link row result.0 result.1) }
        { serve_link(service, row, link, worker) },
        || -> HostRound<N, N::Conn, K>
            requires { IsSync R.row
                × AreRoomsFor service.now.host.now.on_demand service.now.host.now.ids.now service.now.rooms.now
                × AtEach IsOf service.now.rooms.now round.lead.seats.items
                × (round.lead.claim.claims ≡ service.now.claims.now.claims)
                × All (λ lead. Keeps lead lead) round.lead.seats.items
                × All (IsFreshRow round.lead) rows.items
                × (vec_len rows + worker + 1 < 2 ^ 32)
                × (vec_len rows ≤ vec_capacity round.served) × (round.served.items ≡ []) × (round.stopped ≡ None) }
            ensures room { vec_capacity result.served ≡ vec_capacity round.served }
            ensures few { length result.served.items ≤ vec_len rows }
            ensures leads { AtEach IsOf service.entry.now.rooms.now result.lead.seats.items }
            ensures claim { GathersClaims service.entry.now.host.now.on_demand (vec_len rows)
                round.lead.claim result.lead.claim }
            ensures round { InTheEnd service.entry.now.host.now.on_demand service.entry.now.host.now.ids.now
                result.lead.claim.seen (λ ids. GoesAround (C.gives service.entry.now.host.now.clock.now) ids
                service.entry.now.host.now.on_demand (net_tells N.Net) (links_tell N.Conn.Link)
                service.entry.now.rooms.now (vec_len rows) round result) }
        { accept_all(service, round, rows, worker + 1) },
    );
    with_one(service, round, row, one)
}
