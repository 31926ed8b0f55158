//! Sessions that are hosted by posts.
ghost use Rattle.std.specs.Prelude.{◌≡◌, ◌+◌, ◌≤◌, ◌<◌, ◌∷◌, [], List, Ok, All, IfErr, IfOk, OnErr, OnOk, length, replicate, take, vec_len, vec_capacity};
ghost use Rattle.run_steps.specs.Outside.{links_tell, net_tells};
ghost use Rattle.tea_io.specs.Told.{Rose};
ghost use Rattle.tea_io.specs.declared.net.NetFault.TheVariants.{Failed};
ghost use Rattle.reflector_core.specs.declared.keeper.NoKeeper.{NoKeeper};
ghost use Rattle.host_server.specs.declared.rooms.Row.{Row};
ghost use Rattle.tea_io.specs.declared.net.NetCall.TheVariants.{Listen};
ghost use Rattle.tea_base.specs.declared.entry.SessionId.{SessionId};
ghost use Rattle.id_claims.specs.Passes.{Closes};
ghost use Rattle.id_claims.specs.Rules.{all_parts};
ghost use Rattle.host_server.specs.Prepares.{AreClosed};
ghost use Rattle.host_server.specs.Rows.{AtEach, IsWhole, most_sessions};
ghost use Rattle.host_posts.specs.Hosts.{HasGivenNone, HasIdleBack, HostsOn, IsPrepared, idle_post};
ghost use Rattle.host_posts.specs.Passes.{IsPostRow};
ghost use Rattle.host_posts.specs.Posts.{most_posts};
ghost use Rattle.host_posts.specs.Rounds.{IsNewPost};
ghost use Rattle.host_posts.specs.Shares.{HasShares, IsUnused, share_tells, shares_tell};

use crate::counting::EndCounts;
use crate::post::Post;
use crate::posting::{HostedOn, PostOutcome, Posts};
use crate::running::{EndedPost, PostRound, PostService, gather_posts, run_posts};
use crate::splitting::split_posts;
use host_server::{Host, Opened, Room, Row, close_made, open_all, rooms_for, unheard};
use id_claims::Claims;
use net_shares::{Share, SharedNet, Stop};
use reflect_server::ServeFault;
use reflector_core::{NoKeeper, Session};
use std::alloc::Global;
use std::sync::Wait;
use std::thread::Threads;
use tea_base::{List, SessionId, WantOfMemory};
use tea_io::{Clock, Gate, NetFault};

/// All that is made before a net is asked.
#[derive(Drop)]
struct Prepared<S: Drop> {
    rooms: Vec<Room<NoKeeper>>,
    claims: Claims,
    lead: Row<NoKeeper>,
    rows: Vec<Row<NoKeeper>>,
    posts: Vec<Post<S, NoKeeper>>,
    ended: Vec<EndedPost<S, NoKeeper>>,
    outcomes: Vec<PostOutcome>,
    sessions: Vec<Session>,
}

fn prepare<S: Drop>(
    alloc: Global,
    listed: &[SessionId],
    on_demand: bool,
    count: u32,
) -> Result<Prepared<S>, WantOfMemory>
    requires listed { length listed.now ≤ most_sessions }
    requires count { count ≤ most_posts }
    ensures { IfOk result (λ prepared. IsPrepared listed.now on_demand count prepared) }
{
    let many = rooms_for(on_demand, listed);
    let posts = Vec::with_capacity(alloc, count as usize)?;
    let ended = Vec::with_capacity(alloc, count as usize)?;
    let outcomes = Vec::with_capacity(alloc, count as usize)?;
    let sessions = Vec::with_capacity(alloc, many)?;
    let (claims, claim) = Claims::new(alloc, listed)?;
    let Opened { rooms, leads } = open_all(alloc, many)?;
    let mut lead = Row {
        seats: leads,
        claim,
    };
    let rows = split_posts(alloc, &rooms, &claims, &mut lead, count)?;
    Ok(Prepared {
        rooms,
        claims,
        lead,
        rows,
        posts,
        ended,
        outcomes,
        sessions,
    })
}

/// The net takes back the shares of posts that have done nothing.
fn take_back<N: SharedNet + Drop>(net: &mut N, mut posts: Vec<Post<N::Part, NoKeeper>>)
    requires shared { vec_len posts ≤ N.shared net.old }
    requires unused { All (λ post. IsUnused (net_tells N.Net) (share_tells N.Part.Share) net.old post.share) posts.items }
    ensures shared { N.shared net.new + vec_len posts ≡ N.shared net.old }
    ensures back { HasShares (net_tells N.Net) (links_tell N.Conn.Link) net.old net.new (replicate (vec_len posts) idle_post) }
{
    while let Some(post) = posts.pop() {
        net.rejoin(post.share);
    }
}

/// A post for each row, with a share of the net. There is room for them. If the net gives fewer shares, it has them back.
fn share_out<N: SharedNet + Drop>(
    net: &mut N,
    mut rows: Vec<Row<NoKeeper>>,
    mut posts: Vec<Post<N::Part, NoKeeper>>,
) -> Result<Vec<Post<N::Part, NoKeeper>>, NetFault>
    requires room { (posts.items ≡ []) × (vec_len rows ≤ vec_capacity posts) }
    ensures posts { IfOk result (λ posts. (lead : Row NoKeeper) → All (IsPostRow lead) rows.items
        → All (IsNewPost (net_tells N.Net) (share_tells N.Part.Share) net.new lead) posts.items) }
    ensures number { IfOk result (λ posts. vec_len posts ≡ vec_len rows) }
    ensures shared { IfOk result (λ posts. N.shared net.new ≡ N.shared net.old + vec_len posts) }
    ensures none_shared { OnErr result (N.shared net.new ≡ N.shared net.old) }
    ensures none_given { OnOk result (HasGivenNone (net_tells N.Net) net.old net.new) }
    ensures back { OnErr result (HasIdleBack (net_tells N.Net) (links_tell N.Conn.Link) net.old net.new) }
    ensures asked { N.asked net.new ≡ N.asked net.old }
    ensures cause { IfErr result (λ fault. fault ≡ Failed → Rose (N.faults net.old) (N.faults net.new)) }
{
    while let Some(row) = rows.pop() {
        match net.share() {
            Ok(share) => {
                let counts = EndCounts::new();
                posts.push_reserved(Post { share, row, counts });
            }
            Err(fault) => {
                take_back(net, posts);
                return Err(fault);
            }
        }
    }
    Ok(posts)
}

/// What was hosted, once all posts have ended.
fn close_hosted(
    rooms: Vec<Room<NoKeeper>>,
    claims: Claims,
    lead: Row<NoKeeper>,
    outcomes: Vec<PostOutcome>,
    sessions: Vec<Session>,
) -> HostedOn
    requires claims { lead.claim.claims ≡ claims.claims }
    requires whole { lead.claim.parts ≡ all_parts }
    requires leads { (ids : List SessionId) → Closes claims.listed lead.claim ids
        → AtEach IsWhole (take (length ids) rooms.items) (take (length ids) lead.seats.items) }
    requires room { (sessions.items ≡ []) × (vec_len rooms ≤ vec_capacity sessions) }
    ensures ids { Closes claims.listed lead.claim result.ids }
    ensures sessions { AreClosed (take (length result.ids) lead.seats.items) result.sessions }
    ensures posts { result.posts ≡ outcomes.items }
{
    let Row { seats, claim } = lead;
    let ids = List::from_vec(claims.close(claim));
    let made = ids.len();
    let sessions = List::from_vec(close_made(rooms, seats, sessions, made));
    let posts = List::from_vec(outcomes);
    HostedOn {
        ids,
        sessions,
        posts,
    }
}

/// Serves, once the net listens.
fn host_shared<
    N: SharedNet + Drop,
    C: Clock + Sync,
    G: Gate + Sync,
    R: Threads + Wait + Sync,
    T: Stop + Sync,
>(
    rt: &R,
    alloc: Global,
    wanted: &Posts<'_, C, G, T>,
    mut net: N,
    prepared: Prepared<N::Part>,
) -> (N, Result<HostedOn, ServeFault>)
    requires ids { (0 < length wanted.now.ids.now) × (length wanted.now.ids.now ≤ most_sessions) }
    requires posts { wanted.now.posts ≤ most_posts }
    requires prepared { IsPrepared wanted.now.ids.now wanted.now.on_demand wanted.now.posts prepared }
    ensures { HostsOn (C.gives wanted.now.clock.now) (T.may wanted.now.stop.now) wanted.now.ids.now wanted.now.on_demand
        (net_tells N.Net) (shares_tell N.shared N.Part.Share) (links_tell N.Conn.Link) [] wanted.now.posts net result.0
        result.1 }
{
    let Prepared {
        rooms,
        claims,
        lead,
        rows,
        posts,
        ended,
        outcomes,
        sessions,
    } = prepared;
    let posts = match share_out(&mut net, rows, posts) {
        Ok(posts) => posts,
        Err(fault) => return (net, Err(unheard(fault))),
    };
    let host = Host {
        ids: wanted.ids,
        on_demand: wanted.on_demand,
        address: wanted.address,
        connections: wanted.posts,
        clock: wanted.clock,
        gate: wanted.gate,
    };
    let service = PostService {
        rt,
        alloc,
        host: &host,
        rooms: rooms.as_slice(),
        claims: &claims,
        stop: wanted.stop,
    };
    let ended = run_posts(&service, posts, ended, 0);
    let round = PostRound {
        net,
        lead,
        outcomes,
    };
    let PostRound {
        net,
        lead,
        outcomes,
    } = gather_posts(&service, round, ended);
    let hosted = close_hosted(rooms, claims, lead, outcomes, sessions);
    (net, Ok(hosted))
}

/// Hosts a new session for each id, until all of so many posts have ended: each is a thread that serves one link after the other from its own share of
/// the net. A link is heard until it gives a frame, and is then served by the session that this frame names. Where sessions are made on demand, a JOIN
/// of an id that no session has makes one, up to 256 in all. Each session is as if it were alone.
pub fn host_on<
    N: SharedNet + Drop,
    C: Clock + Sync,
    G: Gate + Sync,
    R: Threads + Wait + Sync,
    T: Stop + Sync,
>(
    rt: &R,
    alloc: Global,
    wanted: &Posts<'_, C, G, T>,
    mut net: N,
) -> (N, Result<HostedOn, ServeFault>)
    requires ids { (0 < length wanted.now.ids.now) × (length wanted.now.ids.now ≤ most_sessions) }
    requires posts { (1 ≤ wanted.now.posts) × (wanted.now.posts ≤ most_posts) }
    ensures { HostsOn (C.gives wanted.now.clock.now) (T.may wanted.now.stop.now) wanted.now.ids.now wanted.now.on_demand
        (net_tells N.Net) (shares_tell N.shared N.Part.Share) (links_tell N.Conn.Link)
        (Listen wanted.now.address.now ∷ []) wanted.now.posts net result.0 result.1 }
{
    let prepared = match prepare(alloc, wanted.ids, wanted.on_demand, wanted.posts) {
        Ok(prepared) => prepared,
        Err(WantOfMemory) => return (net, Err(ServeFault::WantOfMemory)),
    };
    match net.listen_shared(wanted.address) {
        Ok(()) => host_shared(rt, alloc, wanted, net, prepared),
        Err(fault) => (net, Err(unheard(fault))),
    }
}
