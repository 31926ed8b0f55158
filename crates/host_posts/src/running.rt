//! Posts that run beside each other, each in a thread.
ghost use Rattle.std.specs.Prelude.{◌≡◌, ◌+◌, ◌<◌, ◌≤◌, ◌^◌, ◌++◌, ◌∷◌, [], All, vec_len, vec_capacity};
ghost use Rattle.std.specs.Thread.{IsSync};
ghost use Rattle.run_steps.specs.Outside.{links_tell, net_tells};
ghost use Rattle.id_claims.specs.Passes.{Merged};
ghost use Rattle.reflect_server.specs.Passes.{Keeps};
ghost use Rattle.host_server.specs.Claiming.{GathersClaims, InTheEnd};
ghost use Rattle.host_server.specs.Rows.{AreRoomsFor, AtAll, AtEach, IsOf, TakesIn};
ghost use Rattle.host_posts.specs.Rounds.{HasEnded, IsReady, PostsGo, RunsPost, TakesShare};
ghost use Rattle.host_posts.specs.Shares.{share_tells};

use crate::post::Post;
use crate::posting::{MOST_LINKS, PostEnd, PostOutcome};
use crate::serving::serve_next;
use crate::taking::next_link;
use host_server::{Host, HostService, Room, Row, merge_row};
use id_claims::Claims;
use net_shares::{Share, SharedNet, Stop};
use reflector_core::Keeper;
use std::alloc::Global;
use std::sync::Wait;
use std::thread::{Threads, join};
use tea_io::{Clock, Gate};

/// What each post is given.
#[derive(Drop)]
pub struct PostService<'a, C: Clock, G: Gate, R: Wait, K: Keeper, T: Stop> {
    pub rt: &'a R,
    pub alloc: Global,
    pub host: &'a Host<'a, C, G>,
    pub rooms: &'a [Room<K>],
    pub claims: &'a Claims,
    pub stop: &'a T,
}

/// A post that has ended, and why.
#[derive(Drop)]
pub struct EndedPost<S: Drop, K> {
    pub post: Post<S, K>,
    pub end: PostEnd,
}

/// A net with what its posts have done so far: the lead row of passes, and what came of each post.
#[derive(Drop)]
pub struct PostRound<N: Drop, K> {
    pub net: N,
    pub lead: Row<K>,
    pub outcomes: Vec<PostOutcome>,
}

/// Serves one link after the other, until it is to stop, its share gives no more, or it is spent.
fn run_post<S: Share + Drop, C: Clock, G: Gate, R: Wait, K: Keeper, T: Stop>(
    service: &PostService<'_, C, G, R, K, T>,
    mut post: Post<S, K>,
    worker: u32,
) -> (Post<S, K>, PostEnd)
    requires rooms { AreRoomsFor service.now.host.now.on_demand service.now.host.now.ids.now
        service.now.rooms.now }
    requires ready { IsReady service.now.rooms.now service.now.claims.now.claims post }
    ensures { RunsPost (C.gives service.now.host.now.clock.now) (T.may service.now.stop.now)
        service.now.host.now.ids.now service.now.host.now.on_demand (share_tells S.Share)
        (links_tell S.Conn.Link) service.now.rooms.now post result.0 result.1 }
{
    let host = HostService {
        rt: service.rt,
        alloc: service.alloc,
        host: service.host,
        rooms: service.rooms,
        claims: service.claims,
    };
    for turn in 0..MOST_LINKS {
        match next_link(service.rt, service.stop, &mut post.share) {
            Ok(link) => serve_next(&host, &mut post, link, worker, turn + 1),
            Err(end) => return (post, end),
        }
    }
    (post, PostEnd::Spent)
}

/// Runs posts beside each other, each in a thread, until all have ended. There is room for them.
pub fn run_posts<
    S: Share + Send + Drop,
    C: Clock + Sync,
    G: Gate + Sync,
    R: Threads + Wait + Sync,
    K: Keeper + Send,
    T: Stop + Sync,
>(
    service: &PostService<'_, C, G, R, K, T>,
    mut posts: Vec<Post<S, K>>,
    ended: Vec<EndedPost<S, K>>,
    worker: u32,
) -> Vec<EndedPost<S, K>>
    requires rooms { AreRoomsFor service.now.host.now.on_demand service.now.host.now.ids.now
        service.now.rooms.now }
    requires ready { All (IsReady service.now.rooms.now service.now.claims.now.claims) posts.items }
    requires few { vec_len posts + worker < 2 ^ 32 }
    requires room { vec_len posts ≤ vec_capacity ended }
    requires begins { ended.items ≡ [] }
    ensures room { vec_capacity result ≡ vec_capacity ended }
    ensures ended { AtEach (λ post one. RunsPost (C.gives service.now.host.now.clock.now)
        (T.may service.now.stop.now) service.now.host.now.ids.now service.now.host.now.on_demand
        (share_tells S.Share) (links_tell S.Conn.Link) service.now.rooms.now post one.post one.end)
        posts.items result.items }
{
    let Some(post) = posts.pop() else {
        return ended;
    };
    let ((post, end), mut ended) = join(
        service.rt,
        || -> (Post<S, K>, PostEnd)
            requires { IsSync R.row
                × AreRoomsFor service.now.host.now.on_demand service.now.host.now.ids.now
                service.now.rooms.now
                × IsReady service.now.rooms.now service.now.claims.now.claims post }
            ensures { RunsPost (C.gives service.entry.now.host.now.clock.now)
                (T.may service.entry.now.stop.now) service.entry.now.host.now.ids.now
                service.entry.now.host.now.on_demand (share_tells S.Share) (links_tell S.Conn.Link)
                service.entry.now.rooms.now post result.0 result.1 }
        { run_post(service, post, worker) },
        || -> Vec<EndedPost<S, K>>
            requires { IsSync R.row
                × AreRoomsFor service.now.host.now.on_demand service.now.host.now.ids.now
                service.now.rooms.now
                × All (IsReady service.now.rooms.now service.now.claims.now.claims) posts.items
                × (vec_len posts + worker + 1 < 2 ^ 32) × (vec_len posts ≤ vec_capacity ended) × (ended.items ≡ []) }
            ensures room { vec_capacity result ≡ vec_capacity ended }
            ensures ended { AtEach (λ post one. RunsPost (C.gives service.entry.now.host.now.clock.now)
                (T.may service.entry.now.stop.now) service.entry.now.host.now.ids.now
                service.entry.now.host.now.on_demand (share_tells S.Share) (links_tell S.Conn.Link)
                service.entry.now.rooms.now post one.post one.end) posts.items result.items }
        { run_posts(service, posts, ended, worker + 1) },
    );
    ended.push_reserved(EndedPost { post, end });
    ended
}

/// What a post has is put together with what the others have.
fn with_post<N: SharedNet + Drop, K: Keeper>(
    rooms: &[Room<K>],
    claims: &Claims,
    mut round: PostRound<N, K>,
    post: Post<N::Part, K>,
    end: PostEnd,
) -> PostRound<N, K>
    requires leads { AtEach IsOf rooms.now round.lead.seats.items }
    requires seats { AtEach IsOf rooms.now post.row.seats.items }
    requires lead_claims { round.lead.claim.claims ≡ claims.now.claims }
    requires row_claims { post.row.claim.claims ≡ claims.now.claims }
    requires shared { 0 < N.shared round.net }
    requires lent { N.Part.lent post.share ≡ 0 }
    requires room { vec_len round.outcomes < vec_capacity round.outcomes }
    ensures merged { AtAll (λ _ before other now.
        TakesIn before other now) round.lead.seats.items post.row.seats.items result.lead.seats.items }
    ensures claim { Merged round.lead.claim post.row.claim result.lead.claim }
    ensures net { TakesShare (net_tells N.Net) (share_tells N.Part.Share) post.share round.net result.net }
    ensures shared { N.shared result.net + 1 ≡ N.shared round.net }
    ensures outcomes { result.outcomes.items ≡ round.outcomes.items ++ record { end = end; counts = post.counts } ∷ [] }
    ensures room { vec_capacity result.outcomes ≡ vec_capacity round.outcomes }
{
    let Post { share, row, counts } = post;
    merge_row(rooms, claims, &mut round.lead, row);
    round.net.rejoin(share);
    round.outcomes.push_reserved(PostOutcome { end, counts });
    round
}

/// Puts all posts that have ended together.
pub fn gather_posts<N: SharedNet + Drop, C: Clock, G: Gate, R: Wait, K: Keeper, T: Stop>(
    service: &PostService<'_, C, G, R, K, T>,
    mut round: PostRound<N, K>,
    mut ended: Vec<EndedPost<N::Part, K>>,
) -> PostRound<N, K>
    requires leads { AtEach IsOf service.now.rooms.now round.lead.seats.items }
    requires claims { round.lead.claim.claims ≡ service.now.claims.now.claims }
    requires kept { All (λ lead. Keeps lead lead) round.lead.seats.items }
    requires ended { All (λ one. HasEnded (C.gives service.now.host.now.clock.now) (T.may service.now.stop.now)
        service.now.host.now.ids.now service.now.host.now.on_demand (net_tells N.Net)
        (share_tells N.Part.Share) (links_tell N.Conn.Link) service.now.rooms.now round.net round.lead
        one.post one.end) ended.items }
    requires shared { vec_len ended ≤ N.shared round.net }
    requires room { vec_len ended ≤ vec_capacity round.outcomes }
    requires begins { round.outcomes.items ≡ [] }
    ensures leads { AtEach IsOf service.now.rooms.now result.lead.seats.items }
    ensures claim { GathersClaims service.now.host.now.on_demand (vec_len ended) round.lead.claim result.lead.claim }
    ensures shared { N.shared result.net + vec_len ended ≡ N.shared round.net }
    ensures posts { InTheEnd service.now.host.now.on_demand service.now.host.now.ids.now
        result.lead.claim.seen (λ ids. PostsGo (C.gives service.now.host.now.clock.now)
        (T.may service.now.stop.now) ids service.now.host.now.on_demand (net_tells N.Net)
        (share_tells N.Part.Share) (links_tell N.Conn.Link) service.now.rooms.now (vec_len ended) round
        result) }
{
    while let Some(one) = ended.pop() {
        let EndedPost { post, end } = one;
        round = with_post(service.rooms, service.claims, round, post, end);
    }
    round
}
