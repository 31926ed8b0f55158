//! Rows for posts: made before a session is opened, and given passes once there are shares.
ghost use Rattle.std.specs.Prelude.{◌≡◌, ◌+◌, ◌*◌, ◌<◌, ◌≤◌, [], All, IfOk, length, vec_len, vec_capacity};
ghost use Rattle.run_steps.specs.Outside.{net_tells};
ghost use Rattle.session_lock.specs.Numbers.{count_of};
ghost use Rattle.host_server.specs.Claiming.{HasGivenClaims};
ghost use Rattle.host_server.specs.Rows.{AtEach, HasGiven, IsOf};
ghost use Rattle.host_posts.specs.Posts.{post_numbers};
ghost use Rattle.host_posts.specs.Rounds.{IsNewPost};
ghost use Rattle.host_posts.specs.Shares.{IsUnused, share_tells};
ghost use Rattle.reflect_posts.specs.Prepares.{IsBareRow};

use host_posts::{EndCounts, Post, split_passes};
use host_server::{Room, Row};
use id_claims::{ClaimPass, Claims};
use net_shares::SharedNet;
use reflector_core::Keeper;
use std::alloc::Global;
use tea_base::WantOfMemory;

/// So many rows that have no pass yet, and room for one.
pub(crate) fn bare_rows<K: Keeper>(
    alloc: Global,
    claims: &Claims,
    claim: &mut ClaimPass,
    count: u32,
) -> Result<Vec<Row<K>>, WantOfMemory>
    requires claims { claim.old.claims ≡ claims.now.claims }
    requires parts { count < claim.old.parts }
    ensures rows { IfOk result (λ rows. All (IsBareRow claim.old) rows.items) }
    ensures count { IfOk result (λ rows. vec_len rows ≡ count) }
    ensures claim { IfOk result (λ _. HasGivenClaims count claim.old claim.new) }
{
    let mut rows = Vec::with_capacity(alloc, count as usize)?;
    for _made in 0..count {
        let seats = Vec::with_capacity(alloc, 1)?;
        let part = claims.split(claim);
        rows.push_reserved(Row { seats, claim: part });
    }
    Ok(rows)
}

/// A post for each row, which gets a pass of the one room, split off the lead pass, and a share. There is room for them.
pub(crate) fn make_posts<N: SharedNet + Drop, K: Keeper>(
    rooms: &[Room<K>],
    lead: &mut Row<K>,
    mut rows: Vec<Row<K>>,
    mut shares: Vec<N::Part>,
    mut posts: Vec<Post<N::Part, K>>,
) -> Vec<Post<N::Part, K>>
    requires one { length rooms.now ≡ 1 }
    requires lead { AtEach IsOf rooms.now lead.old.seats.items }
    requires rows { All (IsBareRow lead.old.claim) rows.items }
    requires shares { vec_len shares ≡ vec_len rows }
    requires enough { All (λ pass. vec_len rows * post_numbers ≤ count_of pass.spare) lead.old.seats.items }
    requires room { (posts.items ≡ []) × (vec_len rows ≤ vec_capacity posts) }
    ensures posts { (net : N) → All (IsUnused (net_tells N.Net) (share_tells N.Part.Share) net) shares.items
        → All (IsNewPost (net_tells N.Net) (share_tells N.Part.Share) net lead.new) result.items }
    ensures number { vec_len result ≡ vec_len rows }
    ensures lead { AtEach (HasGiven (vec_len rows * post_numbers)) lead.old.seats.items lead.new.seats.items }
    ensures claim { lead.new.claim ≡ lead.old.claim }
{
    while let Some(row) = rows.pop() {
        let Row { seats, claim } = row;
        let seats = split_passes(rooms, &mut lead.seats, seats);
        let Some(share) = shares.pop() else {
            unreachable!()
        };
        let row = Row { seats, claim };
        let counts = EndCounts::new();
        posts.push_reserved(Post { share, row, counts });
    }
    posts
}
