//! The sessions that are hosted, and rows of passes with one for each session.
ghost use Rattle.std.specs.Prelude.{◌≡◌, ◌≤◌, ◌<◌, [], All, IfOk, length, vec_len, vec_capacity};
ghost use Rattle.session_lock.specs.Numbers.{count_of};
ghost use Rattle.session_lock.specs.Passes.{numbers_held};
ghost use Rattle.session_lock.specs.Rules.{all_numbers};
ghost use Rattle.reflect_server.specs.Passes.{Keeps};
ghost use Rattle.id_claims.specs.Passes.{Merged};
ghost use Rattle.host_server.specs.Claiming.{HasKeptClaims};
ghost use Rattle.host_server.specs.Prepares.{IsClosedWith};
ghost use Rattle.host_server.specs.Rows.{AtAll, AtEach, HasGivenRow, HasKept, HasSplit, IsFreshRow, IsOf, TakesIn};

use crate::seats::Seat;
use id_claims::{ClaimPass, Claims};
use reflector_core::{Keeper, NoKeeper, Session};
use session_lock::{SharedSession, TrustAll};
use std::alloc::Global;
use tea_base::WantOfMemory;

/// A place for a session, which threads share. Which id it has is told with each call: that of this place among the ids.
#[derive(Drop)]
pub struct Room<K: Keeper> {
    pub shared: SharedSession<TrustAll, K>,
}

/// A row of passes: one for each room, and one by which ids are claimed.
#[derive(Drop)]
pub struct Row<K> {
    pub seats: Vec<Seat<K>>,
    pub claim: ClaimPass,
}

impl<K: Keeper> Room<K> {
    /// A pass for a new caller, split off the lead pass.
    pub fn split(&self, lead: &mut Seat<K>) -> Seat<K>
        requires session { IsOf self.now lead.old }
        requires enough { 1 ≤ count_of lead.old.spare }
        ensures { HasSplit lead.old lead.new result }
    {
        let Ok(pass) = self.shared.split(&mut lead.pass, 0) else {
            unreachable!()
        };
        Seat::new(pass)
    }

    /// Merges a pass into the lead pass.
    pub fn merge(&self, lead: &mut Seat<K>, other: Seat<K>)
        requires lead { IsOf self.now lead.old }
        requires other { IsOf self.now other }
        ensures { TakesIn lead.old other lead.new }
    {
        let other = other.into_pass();
        self.shared.merge(&mut lead.pass, other);
    }
}

impl Room<NoKeeper> {
    /// The session in the end.
    pub fn close(self, lead: Seat<NoKeeper>) -> Session
        requires session { IsOf self lead }
        requires whole { numbers_held lead ≡ all_numbers }
        ensures { IsClosedWith lead result }
    {
        let Room { shared, .. } = self;
        shared.close(lead.into_pass())
    }
}

/// A pass is split off each lead pass. There is room for them.
fn split_seats<K: Keeper>(
    rooms: &[Room<K>],
    leads: &mut [Seat<K>],
    mut seats: Vec<Seat<K>>,
) -> Vec<Seat<K>>
    requires leads { AtEach IsOf rooms.now leads.old }
    requires enough { All (λ lead. 1 ≤ count_of lead.spare) leads.old }
    requires room { (seats.items ≡ []) × (length rooms.now ≤ vec_capacity seats) }
    ensures { AtAll (λ _ before now fresh. HasSplit before now fresh) leads.old leads.new result.items }
{
    for place in 0..rooms.len() {
        let pass = rooms[place].split(&mut leads[place]);
        seats.push_reserved(pass);
    }
    seats
}

/// So many rows, split off the lead row.
pub fn split_rows<K: Keeper>(
    alloc: Global,
    rooms: &[Room<K>],
    claims: &Claims,
    lead: &mut Row<K>,
    count: u32,
) -> Result<Vec<Row<K>>, WantOfMemory>
    requires leads { AtEach IsOf rooms.now lead.old.seats.items }
    requires claims { lead.old.claim.claims ≡ claims.now.claims }
    requires enough { All (λ lead. count ≤ count_of lead.spare) lead.old.seats.items }
    requires parts { count < lead.old.claim.parts }
    ensures rows { IfOk result (λ rows. All (IsFreshRow lead.old) rows.items) }
    ensures count { IfOk result (λ rows. vec_len rows ≡ count) }
    ensures lead { IfOk result (λ _. HasGivenRow count lead.old lead.new) }
{
    let mut rows = Vec::with_capacity(alloc, count as usize)?;
    for _made in 0..count {
        let seats = Vec::with_capacity(alloc, rooms.len())?;
        let seats = split_seats(rooms, &mut lead.seats, seats);
        let claim = claims.split(&mut lead.claim);
        rows.push_reserved(Row { seats, claim });
    }
    Ok(rows)
}

/// Merges each pass into the lead pass of its session.
fn merge_seats<K: Keeper>(rooms: &[Room<K>], leads: &mut [Seat<K>], mut seats: Vec<Seat<K>>)
    requires leads { AtEach IsOf rooms.now leads.old }
    requires seats { AtEach IsOf rooms.now seats.items }
    ensures { AtAll (λ _ before other now. TakesIn before other now) leads.old seats.items leads.new }
{
    while let Some(pass) = seats.pop() {
        let place = seats.len();
        rooms[place].merge(&mut leads[place], pass);
    }
}

/// Merges a row into the lead row.
pub fn merge_row<K: Keeper>(rooms: &[Room<K>], claims: &Claims, lead: &mut Row<K>, row: Row<K>)
    requires leads { AtEach IsOf rooms.now lead.old.seats.items }
    requires seats { AtEach IsOf rooms.now row.seats.items }
    requires lead_claims { lead.old.claim.claims ≡ claims.now.claims }
    requires row_claims { row.claim.claims ≡ claims.now.claims }
    ensures seats { AtAll (λ _ before other now. TakesIn before other now)
        lead.old.seats.items row.seats.items lead.new.seats.items }
    ensures claim { Merged lead.old.claim row.claim lead.new.claim }
{
    let Row { seats, claim } = row;
    merge_seats(rooms, &mut lead.seats, seats);
    claims.merge(&mut lead.claim, claim);
}

/// Merges rows that have served no link.
pub fn merge_rows<K: Keeper>(
    rooms: &[Room<K>],
    claims: &Claims,
    lead: &mut Row<K>,
    mut rows: Vec<Row<K>>,
)
    requires leads { AtEach IsOf rooms.now lead.old.seats.items }
    requires claims { lead.old.claim.claims ≡ claims.now.claims }
    requires kept { All (λ lead. Keeps lead lead) lead.old.seats.items }
    requires rows { All (IsFreshRow lead.old) rows.items }
    ensures seats { AtEach (HasKept (vec_len rows)) lead.old.seats.items lead.new.seats.items }
    ensures claim { HasKeptClaims (vec_len rows) lead.old.claim lead.new.claim }
{
    while let Some(row) = rows.pop() {
        merge_row(rooms, claims, lead, row);
    }
}
