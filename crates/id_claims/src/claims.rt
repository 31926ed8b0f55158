//! The list as threads share it, and their passes.
ghost use Rattle.std.specs.Prelude.{◌≡◌, ◌+◌, ◌<◌, ◌≤◌, [], ◌∷◌, List, length, IfOk};
ghost use Rattle.tea_base.specs.declared.entry.SessionId.{SessionId};
ghost use Rattle.id_claims.specs.Ids.{most_ids};
ghost use Rattle.id_claims.specs.Passes.{Claimed, Closes, Merged, first_pass};
ghost use Rattle.id_claims.specs.Rules.{all_parts};
ghost use Rattle.id_claims.specs.Steps.{HasTaken, HasWorked, IsIdle, MayGiveBack, with_rest};

use crate::ids::Ids;
use crate::knowledge::Knowledge;
use crate::rule::{Cut, GiveBack, Glue, Law, Look, Take};
use atomic_table::{Seat, Table};
use std::alloc::Global;
use std::marker::Model;
use std::snapshot::Snapshot;
use std::sync::Wait;
use tea_base::{SessionId, WantOfMemory};

/// The word that is 1 where a pass has the list in hand, and else 0.
const HELD: usize = 0;

type Place = Seat<Ids, Knowledge>;

/// A token by which a thread claims ids. It has no bytes. Contracts see how many parts it has of 2^32, the ids that its calls have put into the
/// list, and the list as it has seen it. A pass that is let go takes its parts with it, and the claims can then not be closed.
#[derive(Drop)]
pub struct ClaimPass {
    seat: Place,
}

impl Model for ClaimPass {
    ghost use Rattle.id_claims.specs.Passes.{PassState, pass_state};
    ghost use Rattle.id_claims.specs.Steps.{IsIdle};

    ghost Value = { PassState };

    ghost view = { λ pass. pass_state pass.seat.table_id pass.seat.me.0 };

    ghost invariant = { λ pass. IsIdle pass.seat.me };
}

/// Ids that threads claim by `&`: a list of at most 256 that only grows. Each id has the place where it stands first, for good.
#[derive(Drop)]
pub struct Claims {
    table: Table<Ids, Knowledge, Snapshot<Ids>, Law, Global>,
}

impl Model for Claims {
    ghost use Rattle.std.specs.Prelude.{◌≡◌};
    ghost use Rattle.id_claims.specs.Passes.{ClaimsState, claims_state};

    ghost Value = { ClaimsState };

    ghost view = { λ claims. claims_state claims.table.shared.table_id claims.table.shared.key.value };

    ghost invariant = { λ claims. (claims.table.shared.table_id.words ≡ 1) × (claims.table.shared.table_id.slots ≡ 1) };
}

impl Claims {
    /// Claims that begin with these ids, and the pass of all parts. This alone takes memory.
    pub fn new(alloc: Global, listed: &[SessionId]) -> Result<(Claims, ClaimPass), WantOfMemory>
        requires { length listed.now ≤ most_ids }
        ensures listed { IfOk result (λ made. made.0.listed ≡ listed.now) }
        ensures pass { IfOk result (λ made. made.1 ≡ first_pass made.0) }
    {
        let ids = Ids::copy(alloc, listed)?;
        let key = Snapshot::of(&ids);
        let mut slots = Vec::new(alloc);
        slots.push(ids)?;
        let Ok((table, seat)) = Table::new(alloc, &[0], slots, &key) else {
            return Err(WantOfMemory);
        };
        Ok((Claims { table }, ClaimPass { seat }))
    }

    /// A pass with one part, which has seen the same and has put no id into the list.
    pub fn split(&self, pass: &mut ClaimPass) -> ClaimPass
        requires claims { pass.old.claims ≡ self.now.claims }
        requires enough { 1 < pass.old.parts }
        ensures kept { pass.new ≡ record pass.old { parts = pass.new.parts } }
        ensures parts { pass.new.parts + 1 ≡ pass.old.parts }
        ensures given { result ≡ record pass.old { parts = 1; made = [] } }
    {
        let seat = self.table.shared.split_seat::<Cut>(&mut pass.seat);
        ClaimPass { seat }
    }

    /// The place of an id in the list. Where it is new, it gets the next place, for good; but where the list has 256 others, it has none. Takes no
    /// memory. It waits while another thread has the list in hand.
    pub fn claim<R: Wait>(&self, rt: &R, pass: &mut ClaimPass, id: &SessionId) -> Option<usize>
        requires { pass.old.claims ≡ self.now.claims }
        ensures { Claimed pass.old pass.new id.now result }
    {
        self.take(rt, &mut pass.seat);
        let place = self.work(&mut pass.seat, id);
        self.give_back(&mut pass.seat);
        place
    }

    /// Puts another pass into the one that is kept. It has then seen the list as it is.
    pub fn merge(&self, keep: &mut ClaimPass, other: ClaimPass)
        requires keep_claims { keep.old.claims ≡ self.now.claims }
        requires other_claims { other.claims ≡ self.now.claims }
        ensures { Merged keep.old other keep.new }
    {
        let ClaimPass { seat } = other;
        self.table.shared.join_seat::<Glue>(&mut keep.seat, seat);
        self.table.shared.load::<Look>(&mut keep.seat, HELD);
    }

    /// The list in the end. The pass has all parts: every other one was merged into it.
    pub fn close(self, pass: ClaimPass) -> Vec<SessionId>
        requires claims { pass.claims ≡ self.claims }
        requires whole { pass.parts ≡ all_parts }
        ensures { Closes self.listed pass result.items }
    {
        let Claims { table } = self;
        let ClaimPass { seat } = pass;
        let mut closed = table.close_with(seat);
        let ids = closed.take(0);
        closed.free();
        ids.into_vec()
    }

    // Takes the list. Between two tries it sleeps until the list is given back.
    fn take<R: Wait>(&self, rt: &R, seat: &mut Place)
        requires table { seat.old.table_id ≡ self.now.claims }
        requires idle { IsIdle seat.old.me }
        ensures table { seat.new.table_id ≡ self.now.claims }
        ensures taken { HasTaken seat.old.me seat.new.me }
    {
        let shared = &self.table.shared;
        for _ in rt.forever() {
            if shared.compare_exchange::<Take>(seat, HELD, 0, 1) == 0 {
                return;
            }
            shared.park(rt, HELD, 1);
        }
        unreachable!()
    }

    // Claims an id in the list in hand.
    fn work(&self, seat: &mut Place, id: &SessionId) -> Option<usize>
        requires table { seat.old.table_id ≡ self.now.claims }
        requires hand { (ids : List SessionId) × (seat.old.me.1 ≡ (0, ids) ∷ []) }
        ensures table { seat.new.table_id ≡ self.now.claims }
        ensures worked { HasWorked seat.old.me id.now result seat.new.me }
    {
        let ids = seat.slot_mut(&self.table.shared, 0);
        ids.claim(id)
    }

    // Gives the list back, and wakes one thread that waits for it.
    fn give_back(&self, seat: &mut Place)
        requires table { seat.old.table_id ≡ self.now.claims }
        requires may { MayGiveBack seat.old.me }
        ensures table { seat.new.table_id ≡ self.now.claims }
        ensures given { (ids : List SessionId) → seat.old.me.1 ≡ (0, ids) ∷ []
            → seat.new.me ≡ (with_rest seat.old.me.0 ids, []) }
    {
        self.table.shared.store::<GiveBack>(seat, HELD, 0);
        self.table.shared.wake_one(HELD);
    }
}
