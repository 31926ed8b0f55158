//! One link that a post serves.
ghost use Rattle.std.specs.Prelude.{◌≡◌, ◌+◌, ◌≤◌, ◌<◌, [], ◌∷◌, All, length};
ghost use Rattle.run_steps.specs.Outside.{links_tell};
ghost use Rattle.tea_io.specs.Links.{no_counts};
ghost use Rattle.tea_io.specs.Told.{with_more};
ghost use Rattle.tea_io.specs.declared.link.Heard.TheVariants.{Frame};
ghost use Rattle.session_lock.specs.Numbers.{count_of};
ghost use Rattle.connection.specs.Causes.{IsCauseCounted};
ghost use Rattle.connection.specs.Talk.{link_account};
ghost use Rattle.host_server.specs.Claiming.{GathersClaims, InTheEnd};
ghost use Rattle.host_server.specs.Rows.{AreRoomsFor, AtEach, IsOf, IsOfPlace};
ghost use Rattle.id_claims.specs.Ids.{Begins};
ghost use Rattle.host_posts.specs.Passes.{ServesBy, ServesPost, UsesOneAtMost};
ghost use Rattle.host_posts.specs.Rounds.{ServesNext};
ghost use Rattle.host_posts.specs.Shares.{share_tells};

use crate::post::Post;
use connection::Ended;
use host_server::{
    HostEnd, HostService, Peeking, RoomedLink, Row, Seat, Target, hear_first, serve_first,
    target_of,
};
use net_shares::Share;
use reflector_core::Keeper;
use std::marker::Brand;
use std::sync::Wait;
use tea_base::Blob;
use tea_io::{Clock, Gate, Link};

/// Serves a link whose first frame was taken, by a new caller.
fn serve_by<J: Peeking, L: Link + Drop, C: Clock, G: Gate, R: Wait, K: Keeper>(
    service: &HostService<'_, C, G, R, K>,
    target: Target,
    seat: &mut Seat<K>,
    link: L,
    first: Blob,
) -> (L, Ended)
    requires within { target.place < length service.now.rooms.now }
    requires session { IsOfPlace service.now.rooms.now target.place seat.old }
    requires enough { 1 ≤ count_of seat.old.spare }
    requires first { first ≡ J.first }
    requires told { L.heard link ≡ with_more J.before (Frame first ∷ []) }
    ensures served { ServesBy (C.gives service.now.host.now.clock.now) target.id seat.old seat.new J.before J.first
        (link_account L.Link link) (link_account L.Link result.0) result.1 }
    ensures cause { IsCauseCounted (L.counts link) (L.counts result.0) result.1 }
{
    let room = &service.rooms[target.place];
    let mut pass = room.split(seat);
    let (link, ended) = serve_first::<J, L, C, G, R, K>(service, target, &mut pass, link, first);
    room.merge(seat, pass);
    (link, ended)
}

/// Serves one link, once the gate is passed, by a new caller of its session.
fn serve_one<L: Link + Drop, C: Clock, G: Gate, R: Wait, K: Keeper>(
    service: &HostService<'_, C, G, R, K>,
    row: &mut Row<K>,
    mut link: L,
    worker: u32,
    turn: u32,
) -> RoomedLink<L>
    requires rooms { AreRoomsFor service.now.host.now.on_demand service.now.host.now.ids.now service.now.rooms.now }
    requires seats { AtEach IsOf service.now.rooms.now row.old.seats.items }
    requires claim { row.old.claim.claims ≡ service.now.claims.now.claims }
    requires enough { All (λ pass. 1 ≤ count_of pass.spare) row.old.seats.items }
    requires new { L.counts link ≡ no_counts }
    ensures seats { AtEach IsOf service.now.rooms.now row.new.seats.items }
    ensures claim { GathersClaims service.now.host.now.on_demand 0 row.old.claim row.new.claim }
    ensures grows { Begins row.old.claim.seen row.new.claim.seen }
    ensures spare { AtEach UsesOneAtMost row.old.seats.items row.new.seats.items }
    ensures served { InTheEnd service.now.host.now.on_demand service.now.host.now.ids.now row.new.claim.seen
        (λ ids. ServesPost (C.gives service.now.host.now.clock.now) ids service.now.host.now.on_demand
        (links_tell L.Link) service.now.rooms.now link row.old row.new result) }
{
    service.host.gate.pass(worker, turn);
    let first = match hear_first(&mut link) {
        Ok(first) => first,
        Err(ended) => {
            return RoomedLink {
                session: None,
                link,
                ended,
            };
        }
    };
    let target = target_of(service, &mut row.claim, first.bytes());
    let (link, ended) = serve_by::<Brand, L, C, G, R, K>(
        service,
        target,
        &mut row.seats[target.place],
        link,
        first,
    );
    RoomedLink {
        session: Some(target.place as u32),
        link,
        ended,
    }
}

/// Serves one link, and gives it back to the post's share.
pub fn serve_next<S: Share + Drop, C: Clock, G: Gate, R: Wait, K: Keeper>(
    service: &HostService<'_, C, G, R, K>,
    post: &mut Post<S, K>,
    link: S::Conn,
    worker: u32,
    turn: u32,
)
    requires rooms { AreRoomsFor service.now.host.now.on_demand service.now.host.now.ids.now service.now.rooms.now }
    requires seats { AtEach IsOf service.now.rooms.now post.old.row.seats.items }
    requires claim { post.old.row.claim.claims ≡ service.now.claims.now.claims }
    requires enough { All (λ pass. 1 ≤ count_of pass.spare) post.old.row.seats.items }
    requires new { S.Conn.counts link ≡ no_counts }
    requires lent { 0 < S.lent post.old.share }
    ensures seats { AtEach IsOf service.now.rooms.now post.new.row.seats.items }
    ensures claim { GathersClaims service.now.host.now.on_demand 0 post.old.row.claim post.new.row.claim }
    ensures grows { Begins post.old.row.claim.seen post.new.row.claim.seen }
    ensures spare { AtEach UsesOneAtMost post.old.row.seats.items post.new.row.seats.items }
    ensures lent { S.lent post.new.share + 1 ≡ S.lent post.old.share }
    ensures faults { S.faults post.new.share ≡ S.faults post.old.share }
    ensures served { InTheEnd service.now.host.now.on_demand service.now.host.now.ids.now post.new.row.claim.seen
        (λ ids. ServesNext (C.gives service.now.host.now.clock.now) ids service.now.host.now.on_demand
        (share_tells S.Share) (links_tell S.Conn.Link) service.now.rooms.now link post.old post.new) }
{
    let RoomedLink {
        session,
        link,
        ended,
    } = serve_one(service, &mut post.row, link, worker, turn);
    post.share.back(link);
    post.counts = post.counts.with_end(HostEnd { session, ended });
}
