//! Rows of passes for posts, split off the lead row.
ghost use Rattle.std.specs.Prelude.{◌≡◌, ◌*◌, ◌≤◌, ◌<◌, [], All, IfOk, length, vec_len, vec_capacity};
ghost use Rattle.session_lock.specs.Numbers.{count_of};
ghost use Rattle.host_server.specs.Rows.{AtAll, AtEach, IsOf};
ghost use Rattle.host_posts.specs.Passes.{HasGivenPosts, HasSplitPost, IsPostRow};
ghost use Rattle.host_posts.specs.Posts.{most_posts, post_numbers};

use crate::posting::MOST_LINKS;
use host_server::{Room, Row, Seat};
use id_claims::Claims;
use reflector_core::Keeper;
use std::alloc::Global;
use tea_base::WantOfMemory;

/// A pass for a post, split off the lead pass.
fn split_pass<K: Keeper>(room: &Room<K>, lead: &mut Seat<K>) -> Seat<K>
    requires session { IsOf room.now lead.old }
    requires enough { post_numbers ≤ count_of lead.old.spare }
    ensures { HasSplitPost lead.old lead.new result }
{
    let Ok(pass) = room.shared.split(&mut lead.pass, MOST_LINKS) else {
        unreachable!()
    };
    Seat::new(pass)
}

/// A pass for a post is split off each lead pass. There is room for them.
pub fn split_passes<K: Keeper>(
    rooms: &[Room<K>],
    leads: &mut [Seat<K>],
    mut seats: Vec<Seat<K>>,
) -> Vec<Seat<K>>
    requires leads { AtEach IsOf rooms.now leads.old }
    requires enough { All (λ lead. post_numbers ≤ count_of lead.spare) leads.old }
    requires room { (seats.items ≡ []) × (length rooms.now ≤ vec_capacity seats) }
    ensures { AtAll (λ _ before now pass. HasSplitPost before now pass) leads.old leads.new result.items }
{
    for place in 0..rooms.len() {
        let pass = split_pass(&rooms[place], &mut leads[place]);
        seats.push_reserved(pass);
    }
    seats
}

/// A row for each of so many posts, split off the lead row.
pub fn split_posts<K: Keeper>(
    alloc: Global,
    rooms: &[Room<K>],
    claims: &Claims,
    lead: &mut Row<K>,
    count: u32,
) -> Result<Vec<Row<K>>, WantOfMemory>
    requires leads { AtEach IsOf rooms.now lead.old.seats.items }
    requires claims { lead.old.claim.claims ≡ claims.now.claims }
    requires enough { All (λ lead. count * post_numbers ≤ count_of lead.spare) lead.old.seats.items }
    requires parts { count < lead.old.claim.parts }
    ensures rows { IfOk result (λ rows. All (IsPostRow lead.old) rows.items) }
    ensures count { IfOk result (λ rows. vec_len rows ≡ count) }
    ensures lead { IfOk result (λ _. HasGivenPosts count lead.old lead.new) }
{
    let mut rows = Vec::with_capacity(alloc, count as usize)?;
    for _made in 0..count {
        let seats = Vec::with_capacity(alloc, rooms.len())?;
        let seats = split_passes(rooms, &mut lead.seats, seats);
        let claim = claims.split(&mut lead.claim);
        rows.push_reserved(Row { seats, claim });
    }
    Ok(rows)
}
