//! A link that is served, from its first frame on, by the session of that frame.
ghost use Rattle.std.specs.Prelude.{◌≡◌, ◌<◌, [], ◌∷◌, Some, length, slice_get};
ghost use Rattle.run_steps.specs.Outside.{links_tell};
ghost use Rattle.tea_io.specs.Links.{no_counts};
ghost use Rattle.tea_io.specs.Told.{with_more};
ghost use Rattle.tea_io.specs.declared.link.Heard.TheVariants.{Frame};
ghost use Rattle.session_lock.specs.History.{calls_of};
ghost use Rattle.session_lock.specs.Passes.{caller};
ghost use Rattle.connection.specs.Causes.{IsCauseCounted};
ghost use Rattle.connection.specs.Talk.{link_account};
ghost use Rattle.host_server.specs.Claiming.{GathersClaims, InTheEnd};
ghost use Rattle.host_server.specs.Peeking.{TalksAgain};
ghost use Rattle.host_server.specs.Rounds.{ServesRow};
ghost use Rattle.host_server.specs.Rows.{AreRoomsFor, AtEach, IsIdle, IsOf, IsOfPlace};

use crate::claiming::{Target, target_of};
use crate::hearing::hear_first;
use crate::hosting::Host;
use crate::peeked::{Peeked, Peeking};
use crate::rooms::{Room, Row};
use crate::seats::Seat;
use connection::{Ended, serve_connection};
use id_claims::Claims;
use reflector_core::Keeper;
use std::alloc::Global;
use std::marker::Brand;
use std::sync::Wait;
use tea_base::Blob;
use tea_io::{Clock, Gate, Link};

/// What each thread is given.
#[derive(Drop)]
pub struct HostService<'a, C: Clock, G: Gate, R: Wait, K: Keeper> {
    pub rt: &'a R,
    pub alloc: Global,
    pub host: &'a Host<'a, C, G>,
    pub rooms: &'a [Room<K>],
    pub claims: &'a Claims,
}

/// A link that was served, how its connection ended, and the place of the session that served it; none where it gave no frame.
#[derive(Drop)]
pub struct RoomedLink<L: Link + Drop> {
    pub session: Option<u32>,
    pub link: L,
    pub ended: Ended,
}

/// Serves a link whose first frame was taken, as if this frame were still to come.
pub fn serve_first<J: Peeking, L: Link + Drop, C: Clock, G: Gate, R: Wait, K: Keeper>(
    service: &HostService<'_, C, G, R, K>,
    target: Target,
    seat: &mut Seat<K>,
    link: L,
    first: Blob,
) -> (L, Ended)
    requires within { target.place < length service.now.rooms.now }
    requires session { IsOfPlace service.now.rooms.now target.place seat.old }
    requires fresh { calls_of (caller seat.old ∷ []) seat.old.seen ≡ [] }
    requires first { first ≡ J.first }
    requires told { L.heard link ≡ with_more J.before (Frame first ∷ []) }
    ensures kept { seat.new ≡ record seat.old { seen = seat.new.seen } }
    ensures talk { TalksAgain (C.gives service.now.host.now.clock.now) target.id seat.new J.before J.first
        (link_account L.Link link) (link_account L.Link result.0) result.1 }
    ensures cause { IsCauseCounted (L.counts link) (L.counts result.0) result.1 }
{
    let mut peeked: Peeked<L, J> = Peeked::new(first, link);
    let ended = serve_connection(
        service.rt,
        service.alloc,
        &service.rooms[target.place].shared,
        &mut seat.pass,
        target.id,
        &mut peeked,
        service.host.clock,
    );
    (peeked.into_link(), ended)
}

/// Serves one link, once the gate is passed, by a row of passes: by the one of its session.
pub fn serve_link<L: Link + Drop, C: Clock, G: Gate, R: Wait, K: Keeper>(
    service: &HostService<'_, C, G, R, K>,
    mut row: Row<K>,
    mut link: L,
    worker: u32,
) -> (Row<K>, RoomedLink<L>)
    requires rooms { AreRoomsFor service.now.host.now.on_demand service.now.host.now.ids.now service.now.rooms.now }
    requires seats { AtEach IsIdle service.now.rooms.now row.seats.items }
    requires claim { row.claim.claims ≡ service.now.claims.now.claims }
    requires new { L.counts link ≡ no_counts }
    ensures seats { AtEach IsOf service.now.rooms.now result.0.seats.items }
    ensures claim { GathersClaims service.now.host.now.on_demand 0 row.claim result.0.claim }
    ensures served { InTheEnd service.now.host.now.on_demand service.now.host.now.ids.now result.0.claim.seen
        (λ ids. ServesRow (C.gives service.now.host.now.clock.now) ids service.now.host.now.on_demand
        (links_tell L.Link) service.now.rooms.now link row result.0 result.1) }
{
    service.host.gate.pass(worker, 1);
    let first = match hear_first(&mut link) {
        Ok(first) => first,
        Err(ended) => {
            return (
                row,
                RoomedLink {
                    session: None,
                    link,
                    ended,
                },
            );
        }
    };
    let target = target_of(service, &mut row.claim, first.bytes());
    let (link, ended) = serve_first::<Brand, L, C, G, R, K>(
        service,
        target,
        &mut row.seats[target.place],
        link,
        first,
    );
    (
        row,
        RoomedLink {
            session: Some(target.place as u32),
            link,
            ended,
        },
    )
}
