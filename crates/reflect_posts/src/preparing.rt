//! What is made before a net is asked.
ghost use Rattle.std.specs.Prelude.{◌≡◌, ◌≤◌, [], ◌∷◌, IfErr, IfOk, vec_capacity};
ghost use Rattle.reflector_core.specs.Keeping.{IsCovered};
ghost use Rattle.reflect_server.specs.Keeping.{IsUnopened, keeper_tells};
ghost use Rattle.reflect_server.specs.Opening.{gives_later};
ghost use Rattle.host_posts.specs.Posts.{most_posts};
ghost use Rattle.reflect_posts.specs.Prepares.{IsOpened, IsStocked};

use crate::rows::bare_rows;
use crate::service::PostServer;
use host_posts::{EndedPost, Post, PostOutcome};
use host_server::Row;
use id_claims::Claims;
use net_shares::Stop;
use reflect_server::{LaterClock, Opening, Unopened, open_session};
use reflector_core::Keeper;
use session_lock::{Pass, SharedSession, TrustAll};
use std::alloc::Global;
use std::sync::Wait;
use tea_base::{SessionId, WantOfMemory};
use tea_io::{Clock, Gate};

/// What posts will have: a lead row and a row for each post, none of which has a pass yet, and room for what comes. It is made before the session is
/// opened, so that no pass is let go.
#[derive(Drop)]
pub(crate) struct Stock<S: Drop, K: Keeper> {
    pub lead: Row<K>,
    pub rows: Vec<Row<K>>,
    pub posts: Vec<Post<S, K>>,
    pub ended: Vec<EndedPost<S, K>>,
    pub outcomes: Vec<PostOutcome>,
}

/// What is made before the session is opened: room for shares, the claims of its one id, and the stock.
#[derive(Drop)]
struct Made<S: Drop, K: Keeper> {
    shares: Vec<S>,
    claims: Claims,
    stock: Stock<S, K>,
}

/// All that is made before a net is asked: the shared session, the lead pass, which opened it, and what was made before that. `since` is the horizon
/// that the session had, in microseconds.
#[derive(Drop)]
pub(crate) struct Prepared<S: Drop, K: Keeper> {
    pub since: u64,
    pub shared: SharedSession<TrustAll, K>,
    pub lead: Pass<K>,
    pub shares: Vec<S>,
    pub claims: Claims,
    pub stock: Stock<S, K>,
}

fn make_all<S: Drop, K: Keeper>(
    alloc: Global,
    id: SessionId,
    count: u32,
) -> Result<Made<S, K>, WantOfMemory>
    requires { count ≤ most_posts }
    ensures shares { IfOk result (λ made. (made.shares.items ≡ []) × (count ≤ vec_capacity made.shares)) }
    ensures listed { IfOk result (λ made. made.claims.listed ≡ id ∷ []) }
    ensures stock { IfOk result (λ made. IsStocked count made.claims made.stock) }
{
    let shares = Vec::with_capacity(alloc, count as usize)?;
    let seats = Vec::with_capacity(alloc, 1)?;
    let posts = Vec::with_capacity(alloc, count as usize)?;
    let ended = Vec::with_capacity(alloc, count as usize)?;
    let outcomes = Vec::with_capacity(alloc, count as usize)?;
    let (claims, mut claim) = Claims::new(alloc, &[id])?;
    let rows = bare_rows(alloc, &claims, &mut claim, count)?;
    let lead = Row { seats, claim };
    let stock = Stock {
        lead,
        rows,
        posts,
        ended,
        outcomes,
    };
    Ok(Made {
        shares,
        claims,
        stock,
    })
}

/// Makes all that posts will have, and opens the session.
pub(crate) fn prepare<S: Drop, C: Clock, G: Gate, R: Wait, K: Keeper, T: Stop>(
    rt: &R,
    alloc: Global,
    server: &PostServer<'_, C, G, T>,
    opening: Opening<K>,
) -> Result<Prepared<S, K>, Unopened<K>>
    requires posts { server.now.posts ≤ most_posts }
    requires covered { IsCovered (K.holds opening.keeper) opening.session.plain.kept opening.session.plain }
    requires written { IsCovered (K.writes opening.keeper) opening.session.plain.kept opening.session.plain }
    requires unshut { K.shut opening.keeper → ⊥ }
    ensures since { IfOk result (λ prepared. prepared.since ≡ opening.session.plain.horizon) }
    ensures begins { IfOk result (λ prepared. prepared.lead.opening ≡ opening.session.plain) }
    ensures faults { IfOk result (λ prepared. prepared.shared.faults ≡ K.faults opening.keeper) }
    ensures opened { IfOk result (λ prepared.
        IsOpened (gives_later (C.gives server.now.clock.now) prepared.since) prepared.shared prepared.lead) }
    ensures shares { IfOk result (λ prepared.
        (prepared.shares.items ≡ []) × (server.now.posts ≤ vec_capacity prepared.shares)) }
    ensures listed { IfOk result (λ prepared. prepared.claims.listed ≡ server.now.id ∷ []) }
    ensures stock { IfOk result (λ prepared. IsStocked server.now.posts prepared.claims prepared.stock) }
    ensures unopened { IfErr result (λ unopened.
        IsUnopened (gives_later (C.gives server.now.clock.now) opening.session.plain.horizon) opening.session.plain
        (keeper_tells K.holds K.shut K.faults (K.faults opening.keeper) opening.session.plain unopened.keeper)
        unopened.fault) }
{
    let since = opening.session.horizon();
    let Ok(made) = make_all(alloc, server.id, server.posts) else {
        let Opening { keeper, .. } = opening;
        return Err(Unopened::wants(keeper));
    };
    let Made {
        shares,
        claims,
        stock,
    } = made;
    let clock = LaterClock {
        clock: server.clock,
        since,
    };
    let (shared, lead) = open_session(rt, alloc, server.id, opening, &clock)?;
    Ok(Prepared {
        since,
        shared,
        lead,
        shares,
        claims,
        stock,
    })
}
