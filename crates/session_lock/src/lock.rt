//! The lock round the session, and its passes.
ghost use Rattle.std.specs.Prelude.{◌≡◌, ℕ, ◌<◌, ◌+◌, ◌-◌, ◌^◌, [], ◌∷◌, length, true, false, None, IfOk, IfErr, IsOk, MatchResult};
ghost use Rattle.tea_base.specs.declared.entry.SessionId.{SessionId};
ghost use Rattle.reflector_core.specs.PlainSession.{PlainSession};
ghost use Rattle.reflector_core.specs.Play.{replies_from, TellsItsEvents};
ghost use Rattle.reflector_core.specs.Growth.{is_offer};
ghost use Rattle.session_lock.specs.Trusts.{IsTrusted, MayBeAsked};
ghost use Rattle.session_lock.specs.History.{play_from, calls_of, history_requests, item_of, IsSoundThrough};
ghost use Rattle.session_lock.specs.Rules.{all_numbers, HoldsOnce, PlaysWell};
ghost use Rattle.session_lock.specs.Steps.{with_ticket, with_rest, with_loss, rested, Rests, Waits, HasTurn, InTurn, HasCounted, HasCommitted, HasEnded, HasMade, HasPutOff, HopesAt, Works, GoesOnSo, IsIdle, IsLostInTurn, IsNextInTurn, IsWaiting, MayCommit, MayEnd, MayRelease, MayPutOff, split_left, split_right};
ghost use Rattle.session_lock.specs.Numbers.{count_of, in_ranges, drop_numbers};
ghost use Rattle.reflector_core.specs.Keeping.{IsCovered};
ghost use Rattle.session_lock.specs.Keeping.{CanGoBack, HasCounts, KeepsHoped, KeepsPlay, SomeShut};
ghost use Rattle.session_lock.specs.declared.held.KeptSession.{KeptSession};
ghost use Rattle.session_lock.specs.declared.knowledge.Knowledge.{Knowledge};
ghost use Rattle.session_lock.specs.Passes.{Replied, Voided, Missed, Caught, Given, Merged, HeldOnce, HoldsEach, UsedNoSpare, first_pass, caller, numbers_held, own_calls};

use crate::bells::Bells;
use crate::held::{KeptSession, Waiting};
use crate::knowledge::Knowledge;
use crate::rule::{
    Asking, CommitDid, CommitUnkept, CommitVoid, CountAll, Cut, Draw, Glue, Law, Look, LookUnused,
    Lose, Mark, Marking, PutOffDid, PutOffUnkept, PutOffVoid, Release, Settle, Sharing, Trusting,
};
use crate::trust::Trust;
use atomic_table::{Refused, Seat, Table};
use reflector_core::{CallFault, Keeper, NoKeeper, Reply, Request, Session};
use std::alloc::{AllocFailed, Global};
use std::marker::{Brand, Model};
use std::sync::Wait;
use std::thread;
use tea_base::{SessionId, WantOfMemory};

/// The word with the number of tickets that were drawn.
const NEXT: usize = 0;

/// The word with the ticket that is served.
const SERVING: usize = 1;

/// The word with the length of the history.
const DONE: usize = 2;

type Place<K> = Seat<KeptSession<K>, Knowledge>;

/// A caller's token for one shared session. It has no bytes. Contracts see its callers' numbers, its own caller's first,
/// its spare numbers, the session that the lock began with, and the history that it has seen. A number is held by one pass at most; a spare one was never used.
/// A pass that is let go takes its numbers with it, and the session can then not be closed.
#[derive(Drop)]
pub struct Pass<K = NoKeeper> {
    seat: Place<K>,
}

impl<K> Model for Pass<K> {
    ghost use Rattle.std.specs.Prelude.{◌≡◌, ◌<◌, length};
    ghost use Rattle.session_lock.specs.Passes.{PassState, pass_state};
    ghost use Rattle.session_lock.specs.Steps.{IsIdle};

    ghost Value = { PassState };

    ghost view = { λ pass. pass_state pass.seat.table_id pass.seat.me.0 };

    ghost invariant = { λ pass. IsIdle pass.seat.me };
}

/// A session that threads share by `&`, with its keeper. However they call it, there is one history, and the session is
/// its play.
#[derive(Drop)]
pub struct SharedSession<T: Trust, K: Keeper = NoKeeper> {
    table: Table<KeptSession<K>, Knowledge, (SessionId, T, Mark<K>), Law<T, K>, Global>,
    // Rung for the ticket that is served.
    turns: Bells,
    // Rung for the item that may come into the history.
    items: Bells,
}

impl<T: Trust, K: Keeper> Model for SharedSession<T, K> {
    ghost use Rattle.std.specs.Prelude.{◌≡◌};
    ghost use Rattle.session_lock.specs.Passes.{SharedState, shared_state};

    ghost Value = { SharedState T };

    ghost view = { λ shared. shared_state shared.table.shared.table_id shared.table.shared.key
        (K.faults shared.table.shared.key.2.me.0.keeper) };

    ghost invariant = { λ shared. (shared.table.shared.table_id.words ≡ 3) × (shared.table.shared.table_id.slots ≡ 1) };
}

/// There was no memory for the lock. The session, the keeper and the trust come back.
#[derive(Drop)]
pub struct Unmade<T: Trust, K: Keeper = NoKeeper> {
    pub session: Session,
    pub keeper: K,
    pub trust: T,
}

impl<T: Trust, K: Keeper> Unmade<T, K> {
    fn of(kept: KeptSession<K>, trust: T) -> Unmade<T, K>
        ensures { (result.session.plain ≡ kept.session) × (result.keeper ≡ kept.keeper) × (result.trust ≡ trust) }
    {
        let (session, keeper) = kept.into_parts();
        Unmade {
            session,
            keeper,
            trust,
        }
    }
}

impl<T: Trust> SharedSession<T> {
    /// Shares a session with no keeper. Else it is as `with_keeper`.
    pub fn new(
        alloc: Global,
        id: SessionId,
        session: Session,
        trust: T,
    ) -> Result<(SharedSession<T>, Pass), Unmade<T>>
        requires { IsTrusted T.allows trust id session.plain }
        ensures pass { IfOk result (λ made. made.1 ≡ first_pass made.0.session session.plain) }
        ensures trust { IfOk result (λ made. (made.0.id ≡ id) × (made.0.trust ≡ trust)) }
        ensures unmade { IfErr result (λ unmade. (unmade.session.plain ≡ session.plain) × (unmade.trust ≡ trust)) }
    {
        // tells that the session is sound, so that it covers itself
        let _horizon = session.horizon(); // for the prover
        SharedSession::with_keeper(alloc, id, session, NoKeeper, trust)
    }

    /// Makes a call of a session with no keeper. It is as `call_kept`, and never Unkept.
    pub fn call<R: Wait>(
        &self,
        rt: &R,
        pass: &mut Pass,
        request: &Request,
    ) -> Result<Reply, WantOfMemory>
        requires session { pass.old.session ≡ self.now.session }
        requires kind { is_offer request.now ≡ false }
        ensures kept { pass.new ≡ record pass.old { seen = pass.new.seen } }
        ensures call { MatchResult result
            (λ reply. Replied (IsTrusted T.allows self.now.trust self.now.id) pass.old pass.new request.now reply)
            (λ _. Voided (IsTrusted T.allows self.now.trust self.now.id) pass.old pass.new request.now) }
        ensures sound { IsSoundThrough pass.old.opening pass.new.seen }
    {
        match self.call_kept(rt, pass, request) {
            Ok(reply) => Ok(reply),
            Err(CallFault::WantOfMemory) => Err(WantOfMemory),
            Err(CallFault::Unkept) => unreachable!(),
        }
    }

    /// Makes an offer to a session with no keeper. It is as `offer_kept`, and never Unkept.
    pub fn offer<R: Wait>(
        &self,
        rt: &R,
        pass: &mut Pass,
        request: &Request,
    ) -> Result<Reply, WantOfMemory>
        requires session { pass.old.session ≡ self.now.session }
        requires kind { is_offer request.now ≡ true }
        requires allowed { MayBeAsked T.allows self.now.trust self.now.id
            (play_from pass.old.opening pass.old.seen) request.now }
        ensures kept { pass.new ≡ record pass.old { seen = pass.new.seen } }
        ensures call { MatchResult result
            (λ reply. Replied (IsTrusted T.allows self.now.trust self.now.id) pass.old pass.new request.now reply)
            (λ _. Voided (IsTrusted T.allows self.now.trust self.now.id) pass.old pass.new request.now) }
        ensures sound { IsSoundThrough pass.old.opening pass.new.seen }
    {
        match self.offer_kept(rt, pass, request) {
            Ok(reply) => Ok(reply),
            Err(CallFault::WantOfMemory) => Err(WantOfMemory),
            Err(CallFault::Unkept) => unreachable!(),
        }
    }

    /// The session in the end, without a keeper. Else it is as `close_kept`.
    pub fn close(self, pass: Pass) -> Session
        requires session { pass.session ≡ self.session }
        requires whole { numbers_held pass ≡ all_numbers }
        ensures play { result.plain ≡ play_from pass.opening pass.seen }
        ensures calls { own_calls pass ≡ pass.seen }
        ensures numbers { HoldsEach pass }
        ensures trusted { IsTrusted T.allows self.trust self.id result.plain }
        ensures sound { IsSoundThrough pass.opening pass.seen }
        ensures events { TellsItsEvents pass.opening.log (history_requests pass.seen)
            (replies_from pass.opening (history_requests pass.seen)) result.plain.log }
    {
        let (session, _keeper) = self.close_kept(pass);
        session
    }
}

impl<T: Trust, K: Keeper> SharedSession<T, K> {
    /// Shares a session, which the passes then know as their opening, and its keeper. What the keeper holds covers the
    /// session, and keeps the same snapshot; so does what it has written. The pass is caller 0, has seen nothing, and holds all other numbers below
    /// 2^32 as spare ones. The trust says which snapshots may be kept under this id, and allows the one that the session
    /// keeps, if it keeps one. It serves proofs alone, so it is let go.
    pub fn with_keeper(
        alloc: Global,
        id: SessionId,
        session: Session,
        keeper: K,
        trust: T,
    ) -> Result<(SharedSession<T, K>, Pass<K>), Unmade<T, K>>
        requires trusted { IsTrusted T.allows trust id session.plain }
        requires covered { IsCovered (K.holds keeper) session.plain.kept session.plain }
        requires written { IsCovered (K.writes keeper) session.plain.kept session.plain }
        requires unshut { K.shut keeper → ⊥ }
        ensures pass { IfOk result (λ made. made.1 ≡ first_pass made.0.session session.plain) }
        ensures trust { IfOk result (λ made. (made.0.id ≡ id) × (made.0.trust ≡ trust)) }
        ensures faults { IfOk result (λ made. made.0.faults ≡ K.faults keeper) }
        ensures unmade { IfErr result (λ unmade. (unmade.session.plain ≡ session.plain) × (unmade.trust ≡ trust)) }
        ensures unused { IfErr result (λ unmade. unmade.keeper ≡ keeper) }
    {
        let kept = KeptSession::of(session, keeper);
        let (_, mark) = match Table::<
            u8,
            KeptSession<K>,
            KeptSession<K>,
            Marking,
            Global,
        >::of_words(alloc, &[0], &kept)
        {
            Ok(made) => made,
            Err(_) => return Err(Unmade::of(kept, trust)),
        };
        let Ok(turns) = Bells::new(alloc) else {
            return Err(Unmade::of(kept, trust));
        };
        let Ok(items) = Bells::new(alloc) else {
            return Err(Unmade::of(kept, trust));
        };
        let key = (id, trust, mark);
        let mut slots = Vec::new(alloc);
        if let Err(AllocFailed { value: kept }) = slots.push(kept) {
            return Err(Unmade::of(kept, key.1));
        }
        match Table::new(alloc, &[0, 0, 0], slots, &key) {
            Ok((table, seat)) => Ok((
                SharedSession {
                    table,
                    turns,
                    items,
                },
                Pass { seat },
            )),
            Err(Refused { mut slots }) => {
                let Some(kept) = slots.pop() else {
                    unreachable!()
                };
                Err(Unmade::of(kept, key.1))
            }
        }
    }

    /// Makes a call that is no offer, in its turn, which it waits for. It adds one item to the history: what was asked;
    /// or, without memory, a Void; or, where what would change is not kept, an Unkept. The reply is the session's at that
    /// place of the history, and what the keeper holds then covers the session at the place behind it. At each place that
    /// the pass has then seen the session was sound. Where the keeper has something to settle, the call waits for a second
    /// turn, and the keeper settles once for all calls that wait by then. Once 2^64 - 1 tickets were drawn, by calls that
    /// need not all have ended, it draws none, adds nothing and waits for good.
    pub fn call_kept<R: Wait>(
        &self,
        rt: &R,
        pass: &mut Pass<K>,
        request: &Request,
    ) -> Result<Reply, CallFault>
        requires session { pass.old.session ≡ self.now.session }
        requires kind { is_offer request.now ≡ false }
        ensures kept { pass.new ≡ record pass.old { seen = pass.new.seen } }
        ensures call { MatchResult result
            (λ reply. Replied (IsTrusted T.allows self.now.trust self.now.id) pass.old pass.new request.now reply)
            (λ fault. Missed (IsTrusted T.allows self.now.trust self.now.id)
            (SomeShut K.shut) pass.old pass.new request.now fault) }
        ensures sound { IsSoundThrough pass.old.opening pass.new.seen }
    {
        self.ask(rt, pass, request)
    }

    /// Offers a snapshot that the trust allows for the session that the pass has seen. Else it is as `call_kept`.
    pub fn offer_kept<R: Wait>(
        &self,
        rt: &R,
        pass: &mut Pass<K>,
        request: &Request,
    ) -> Result<Reply, CallFault>
        requires session { pass.old.session ≡ self.now.session }
        requires kind { is_offer request.now ≡ true }
        requires allowed { MayBeAsked T.allows self.now.trust self.now.id
            (play_from pass.old.opening pass.old.seen) request.now }
        ensures kept { pass.new ≡ record pass.old { seen = pass.new.seen } }
        ensures call { MatchResult result
            (λ reply. Replied (IsTrusted T.allows self.now.trust self.now.id) pass.old pass.new request.now reply)
            (λ fault. Missed (IsTrusted T.allows self.now.trust self.now.id)
            (SomeShut K.shut) pass.old pass.new request.now fault) }
        ensures sound { IsSoundThrough pass.old.opening pass.new.seen }
    {
        self.ask(rt, pass, request)
    }

    /// The length of the history, which the pass has seen from then on. At each place of it the session was sound. It
    /// waits for nobody, and takes no memory.
    pub fn calls_done(&self, pass: &mut Pass<K>) -> u64
        requires { pass.old.session ≡ self.now.session }
        ensures length { result ≡ length pass.new.seen }
        ensures seen { Caught (IsTrusted T.allows self.now.trust self.now.id) pass.old pass.new }
        ensures sound { IsSoundThrough pass.old.opening pass.new.seen }
    {
        self.count::<Brand>(&mut pass.seat)
    }

    /// A pass for a new caller, which has seen the same and has no calls. It takes `spare + 1` of the spare numbers: one
    /// for its caller, and the others as spare ones of its own. The answer is Ok, since this takes no memory.
    pub fn split(&self, pass: &mut Pass<K>, spare: u32) -> Result<Pass<K>, WantOfMemory>
        requires session { pass.old.session ≡ self.now.session }
        requires enough { spare < count_of pass.old.spare }
        ensures made { IsOk result }
        ensures kept { pass.new ≡ record pass.old { spare = drop_numbers (spare + 1) pass.old.spare } }
        ensures given { IfOk result (λ new. Given pass.old (spare + 1) new) }
        ensures numbers { IfOk result (λ new. (numbers_held new ≡ spare + 1) × (count_of new.spare ≡ spare)) }
        ensures numbers_left { numbers_held pass.new + (spare + 1) ≡ numbers_held pass.old }
        ensures spare_left { count_of pass.new.spare + (spare + 1) ≡ count_of pass.old.spare }
        ensures apart { IfOk result (λ new. HeldOnce pass.new new) }
        ensures unused { UsedNoSpare pass.old }
    {
        let seat = self.cut::<Brand>(&mut pass.seat, spare);
        Ok(Pass { seat })
    }

    /// Puts another pass into the one that is kept, which stays its own caller's. It has then seen the longer history. The
    /// calls of each caller of either pass are in it just those that its own pass had seen, in their order. Takes no memory.
    pub fn merge(&self, keep: &mut Pass<K>, other: Pass<K>)
        requires keep_session { keep.old.session ≡ self.now.session }
        requires other_session { other.session ≡ self.now.session }
        ensures merged { Merged keep.old other keep.new }
        ensures numbers { numbers_held keep.new ≡ numbers_held keep.old + numbers_held other }
        ensures distinct { HeldOnce keep.old other }
        ensures caller { (0 < length keep.old.callers) × (caller keep.new ≡ caller keep.old) }
    {
        let Pass { seat } = other;
        self.table.shared.join_seat::<Glue>(&mut keep.seat, seat);
        self.table.shared.load::<Settle>(&mut keep.seat, NEXT);
    }

    /// The session in the end, and its keeper. The pass holds all numbers: every other one was merged into it, and no call
    /// is under way. All that was ever called is among its calls, and at each place of it the session was sound. The log
    /// has just the events of the opening session and, after them, those that were answered Stamped. What the keeper holds
    /// covers the session. If a call was Unkept, the keeper's faults have risen, and nothing changed after that call.
    pub fn close_kept(self, pass: Pass<K>) -> (Session, K)
        requires session { pass.session ≡ self.session }
        requires whole { numbers_held pass ≡ all_numbers }
        ensures play { result.0.plain ≡ play_from pass.opening pass.seen }
        ensures keeper { KeepsPlay K.holds K.shut K.faults self.faults pass.opening pass.seen result.1 }
        ensures calls { own_calls pass ≡ pass.seen }
        ensures numbers { HoldsEach pass }
        ensures trusted { IsTrusted T.allows self.trust self.id result.0.plain }
        ensures sound { IsSoundThrough pass.opening pass.seen }
        ensures events { TellsItsEvents pass.opening.log (history_requests pass.seen)
            (replies_from pass.opening (history_requests pass.seen)) result.0.plain.log }
    {
        let SharedSession { table, .. } = self;
        let Pass { seat } = pass;
        let mut closed = table.close_with(seat);
        let kept = closed.take(0);
        closed.free();
        kept.into_parts()
    }

    /// Looks at the whole history, and gives its length.
    fn count<J: Trusting>(&self, seat: &mut Place<K>) -> u64
        requires table { seat.old.table_id ≡ self.now.session }
        requires trusted { (s : PlainSession) → IsTrusted T.allows self.now.trust self.now.id s → J.trusted s }
        requires caller { 0 < length seat.old.me.0.callers }
        ensures table { seat.new.table_id ≡ self.now.session }
        ensures counted { HasCounted J.trusted seat.old.me result seat.new.me }
    {
        self.table.shared.load::<CountAll<J>>(seat, DONE)
    }

    /// Makes a call for the pass.
    fn ask<R: Wait>(
        &self,
        rt: &R,
        pass: &mut Pass<K>,
        request: &Request,
    ) -> Result<Reply, CallFault>
        requires session { pass.old.session ≡ self.now.session }
        requires allowed { MayBeAsked T.allows self.now.trust self.now.id
            (play_from pass.old.opening pass.old.seen) request.now }
        ensures kept { pass.new ≡ record pass.old { seen = pass.new.seen } }
        ensures call { MatchResult result
            (λ reply. Replied (IsTrusted T.allows self.now.trust self.now.id) pass.old pass.new request.now reply)
            (λ fault. Missed (IsTrusted T.allows self.now.trust self.now.id)
            (SomeShut K.shut) pass.old pass.new request.now fault) }
        ensures sound { IsSoundThrough pass.old.opening pass.new.seen }
    {
        self.make::<Brand, R>(rt, &mut pass.seat, request)
    }

    /// Makes a call with what is asked, which the proof names by `J`.
    fn make<J: Asking + Trusting, R: Wait>(
        &self,
        rt: &R,
        seat: &mut Place<K>,
        request: &Request,
    ) -> Result<Reply, CallFault>
        requires table { seat.old.table_id ≡ self.now.session }
        requires asked { request.now ≡ J.request }
        requires trusted { (s : PlainSession) → IsTrusted T.allows self.now.trust self.now.id s → J.trusted s }
        requires first { self.now.faults ≡ J.first }
        requires allowed { MayBeAsked T.allows self.now.trust self.now.id
            (play_from seat.old.me.0.opening seat.old.me.0.seen) request.now }
        requires idle { IsIdle seat.old.me }
        ensures table { seat.new.table_id ≡ self.now.session }
        ensures made { HasMade J.trusted (SomeShut K.shut) seat.old.me.0 request.now result seat.new.me }
        ensures plays { PlaysWell J.trusted seat.old.me.0.opening seat.new.me.0.seen }
    {
        self.enter::<J, R>(rt, seat);
        let (result, place) = self.work(seat, request);
        match place {
            None => {
                self.end::<J>(seat, &result);
                result
            }
            Some(place) => {
                self.put_off::<J>(seat, &result);
                self.wait::<J, R>(rt, seat, request, result, place)
            }
        }
    }

    /// Draws a ticket, and takes its turn.
    fn enter<J: Trusting, R: Wait>(&self, rt: &R, seat: &mut Place<K>)
        requires table { seat.old.table_id ≡ self.now.session }
        requires trusted { (s : PlainSession) → IsTrusted T.allows self.now.trust self.now.id s → J.trusted s }
        requires first { self.now.faults ≡ J.first }
        requires rests { Rests seat.old.me }
        ensures table { seat.new.table_id ≡ self.now.session }
        ensures turn { InTurn J.trusted
            (KeepsHoped K.holds K.writes K.shut K.faults J.first) seat.old.me.0 seat.new.me }
    {
        let ticket = self.draw(rt, seat);
        self.take_turn::<J, R>(rt, seat, ticket);
    }

    /// Waits until what was put off comes into the history. Where it was lost, the call is made again.
    fn wait<J: Asking + Trusting, R: Wait>(
        &self,
        rt: &R,
        seat: &mut Place<K>,
        request: &Request,
        hoped: Result<Reply, CallFault>,
        place: u64,
    ) -> Result<Reply, CallFault>
        requires table { seat.old.table_id ≡ self.now.session }
        requires asked { request.now ≡ J.request }
        requires trusted { (s : PlainSession) → IsTrusted T.allows self.now.trust self.now.id s → J.trusted s }
        requires first { self.now.faults ≡ J.first }
        requires allowed { MayBeAsked T.allows self.now.trust self.now.id
            (play_from seat.old.me.0.opening seat.old.me.0.seen) request.now }
        requires waits { IsWaiting K.shut seat.old.me request.now hoped place }
        ensures table { seat.new.table_id ≡ self.now.session }
        ensures made { HasMade J.trusted (SomeShut K.shut) (rested seat.old.me.0) request.now result seat.new.me }
        ensures plays { PlaysWell J.trusted seat.old.me.0.opening seat.new.me.0.seen }
    {
        if self.reach::<J, R>(rt, seat, place) {
            self.end::<J>(seat, &hoped);
            self.items.ring(place.wrapping_add(1));
            return hoped;
        }
        let made = self.again::<J>(seat, request);
        self.items.ring(place.wrapping_add(1));
        made
    }

    /// Takes turns until the call that waits behind so many items is the next and is safe, or was lost, and tells whether it
    /// is the next.
    fn reach<J: Trusting, R: Wait>(&self, rt: &R, seat: &mut Place<K>, place: u64) -> bool
        requires table { seat.old.table_id ≡ self.now.session }
        requires trusted { (s : PlainSession) → IsTrusted T.allows self.now.trust self.now.id s → J.trusted s }
        requires first { self.now.faults ≡ J.first }
        requires rests { Rests seat.old.me }
        requires hopes { HopesAt seat.old.me.0 place }
        ensures table { seat.new.table_id ≡ self.now.session }
        ensures next { result ≡ true
            → IsNextInTurn J.trusted (KeepsHoped K.holds K.writes K.shut K.faults J.first) seat.old.me.0 seat.new.me }
        ensures lost { result ≡ false
            → IsLostInTurn J.trusted (KeepsHoped K.holds K.writes K.shut K.faults J.first) seat.old.me.0 seat.new.me }
    {
        for _ in rt.forever() {
            self.await_item(rt, place);
            self.enter::<J, R>(rt, seat);
            match self.settle(seat, place) {
                Waiting::Ended => return true,
                Waiting::Lost => return false,
                Waiting::GoesOn => self.release::<J>(seat),
            }
        }
        unreachable!()
    }

    /// Sleeps until the history has so many items. This is for speed alone.
    fn await_item<R: Wait>(&self, rt: &R, place: u64) {
        for _ in rt.forever() {
            let rung = self.items.rung(place);
            if self.table.shared.peek(DONE) >= place {
                return;
            }
            self.items.sleep(rt, place, rung);
        }
    }

    /// Makes a call again that was lost.
    fn again<J: Asking + Trusting>(
        &self,
        seat: &mut Place<K>,
        request: &Request,
    ) -> Result<Reply, CallFault>
        requires table { seat.old.table_id ≡ self.now.session }
        requires asked { request.now ≡ J.request }
        requires trusted { (s : PlainSession) → IsTrusted T.allows self.now.trust self.now.id s → J.trusted s }
        requires first { self.now.faults ≡ J.first }
        requires lost { (v : Knowledge)
            × IsLostInTurn J.trusted (KeepsHoped K.holds K.writes K.shut K.faults J.first) v seat.old.me
            × MayBeAsked T.allows self.now.trust self.now.id (play_from v.opening v.seen) request.now }
        ensures table { seat.new.table_id ≡ self.now.session }
        ensures made { (v : Knowledge)
            → IsLostInTurn J.trusted (KeepsHoped K.holds K.writes K.shut K.faults J.first) v seat.old.me →
            HasMade J.trusted (SomeShut K.shut) (rested v) request.now result seat.new.me }
        ensures plays { PlaysWell J.trusted seat.old.me.0.opening seat.new.me.0.seen }
    {
        self.lose::<J>(seat); // for the prover
        let (result, _) = self.work(seat, request);
        self.end::<J>(seat, &result);
        result
    }

    /// The item of a call comes into the history, and the turn ends.
    fn end<J: Asking + Trusting>(&self, seat: &mut Place<K>, made: &Result<Reply, CallFault>)
        requires table { seat.old.table_id ≡ self.now.session }
        requires trusted { (s : PlainSession) → IsTrusted T.allows self.now.trust self.now.id s → J.trusted s }
        requires first { self.now.faults ≡ J.first }
        requires may { MayEnd (IsTrusted T.allows self.now.trust self.now.id)
            (KeepsHoped K.holds K.writes K.shut K.faults J.first) seat.old.me (λ caller.
            item_of caller J.request made.now) }
        ensures table { seat.new.table_id ≡ self.now.session }
        ensures ended { HasEnded J.trusted (λ caller. item_of caller J.request made.now) seat.old.me seat.new.me }
    {
        self.commit::<J>(seat, made);
        self.release::<J>(seat);
    }

    /// The item of a call comes into the history.
    fn commit<J: Asking + Trusting>(&self, seat: &mut Place<K>, made: &Result<Reply, CallFault>)
        requires table { seat.old.table_id ≡ self.now.session }
        requires trusted { (s : PlainSession) → IsTrusted T.allows self.now.trust self.now.id s → J.trusted s }
        requires may { MayCommit (IsTrusted T.allows self.now.trust self.now.id) seat.old.me.0 (λ caller.
            item_of caller J.request made.now) }
        ensures table { seat.new.table_id ≡ self.now.session }
        ensures committed { HasCommitted J.trusted (λ caller.
            item_of caller J.request made.now) seat.old.me seat.new.me }
    {
        let shared = &self.table.shared;
        match made {
            Ok(_) => {
                shared.fetch_add::<CommitDid<J>>(seat, DONE, 1);
            }
            Err(CallFault::WantOfMemory) => {
                shared.fetch_add::<CommitVoid<J>>(seat, DONE, 1);
            }
            Err(CallFault::Unkept) => {
                shared.fetch_add::<CommitUnkept<J>>(seat, DONE, 1);
            }
        }
    }

    /// Ends the turn.
    fn release<J: Trusting>(&self, seat: &mut Place<K>)
        requires table { seat.old.table_id ≡ self.now.session }
        requires first { self.now.faults ≡ J.first }
        requires may { MayRelease (KeepsHoped K.holds K.writes K.shut K.faults J.first) seat.old.me }
        ensures table { seat.new.table_id ≡ self.now.session }
        ensures released { seat.new.me ≡ (with_rest seat.old.me.0, []) }
    {
        let served = self.table.shared.fetch_add::<Release>(seat, SERVING, 1);
        self.turns.ring(served.wrapping_add(1));
    }

    /// Ends the turn, with the item of a call behind those that wait.
    fn put_off<J: Asking + Trusting>(&self, seat: &mut Place<K>, made: &Result<Reply, CallFault>)
        requires table { seat.old.table_id ≡ self.now.session }
        requires first { self.now.faults ≡ J.first }
        requires may { MayPutOff (IsTrusted T.allows self.now.trust self.now.id)
            (KeepsHoped K.holds K.writes K.shut K.faults J.first) seat.old.me (λ caller.
            item_of caller J.request made.now) }
        ensures table { seat.new.table_id ≡ self.now.session }
        ensures put { HasPutOff (λ caller. item_of caller J.request made.now) seat.old.me seat.new.me }
    {
        let served = self.put_behind::<J>(seat, made);
        self.turns.ring(served.wrapping_add(1));
    }

    /// Gives the session back, with the item of a call behind those that wait, and tells which ticket was served.
    fn put_behind<J: Asking + Trusting>(
        &self,
        seat: &mut Place<K>,
        made: &Result<Reply, CallFault>,
    ) -> u64
        requires table { seat.old.table_id ≡ self.now.session }
        requires first { self.now.faults ≡ J.first }
        requires may { MayPutOff (IsTrusted T.allows self.now.trust self.now.id)
            (KeepsHoped K.holds K.writes K.shut K.faults J.first) seat.old.me (λ caller.
            item_of caller J.request made.now) }
        ensures table { seat.new.table_id ≡ self.now.session }
        ensures put { HasPutOff (λ caller. item_of caller J.request made.now) seat.old.me seat.new.me }
    {
        let shared = &self.table.shared;
        match made {
            Ok(_) => shared.fetch_add::<PutOffDid<J>>(seat, SERVING, 1),
            Err(CallFault::WantOfMemory) => shared.fetch_add::<PutOffVoid>(seat, SERVING, 1),
            Err(CallFault::Unkept) => shared.fetch_add::<PutOffUnkept>(seat, SERVING, 1),
        }
    }

    /// Notes that what waited is gone. The word is read for the proof alone.
    fn lose<J: Trusting>(&self, seat: &mut Place<K>)
        requires table { seat.old.table_id ≡ self.now.session }
        requires holding { seat.old.me.0.holding ≡ true }
        ensures table { seat.new.table_id ≡ self.now.session }
        ensures lost { seat.new.me ≡ (with_loss seat.old.me.0, seat.old.me.1) }
    {
        self.table.shared.load::<Lose>(seat, DONE);
    }

    /// Draws a ticket. Once 2^64 - 1 were drawn it waits for good.
    fn draw<R: Wait>(&self, rt: &R, seat: &mut Place<K>) -> u64
        requires table { seat.old.table_id ≡ self.now.session }
        requires idle { (seat.old.me.0.ticket ≡ None) × (seat.old.me.0.holding ≡ false) }
        requires caller { 0 < length seat.old.me.0.callers }
        ensures table { seat.new.table_id ≡ self.now.session }
        ensures drawn { seat.new.me ≡ (with_ticket seat.old.me.0 result, seat.old.me.1) }
        ensures bound { result < 2 ^ 64 - 1 }
    {
        let shared = &self.table.shared;
        for _ in rt.forever() {
            let next = shared.peek(NEXT);
            if next < u64::MAX {
                let found = shared.compare_exchange::<Draw>(seat, NEXT, next, next + 1);
                if found == next {
                    return found;
                }
            }
            thread::yield_now();
        }
        unreachable!()
    }

    /// Waits until the ticket is served, and takes the session. Between two looks it sleeps until the turn before has ended.
    fn take_turn<J: Trusting, R: Wait>(&self, rt: &R, seat: &mut Place<K>, ticket: u64)
        requires table { seat.old.table_id ≡ self.now.session }
        requires trusted { (s : PlainSession) → IsTrusted T.allows self.now.trust self.now.id s → J.trusted s }
        requires first { self.now.faults ≡ J.first }
        requires drawn { Waits seat.old.me ticket }
        ensures table { seat.new.table_id ≡ self.now.session }
        ensures turn { HasTurn J.trusted
            (KeepsHoped K.holds K.writes K.shut K.faults J.first) seat.old.me ticket seat.new.me }
    {
        for _ in rt.forever() {
            let rung = self.turns.rung(ticket);
            let found = self.table.shared.load::<Look<J>>(seat, SERVING);
            if found == ticket {
                return;
            }
            self.turns.sleep(rt, ticket, rung);
        }
        unreachable!()
    }

    /// Calls the session in hand.
    fn work(
        &self,
        seat: &mut Place<K>,
        request: &Request,
    ) -> (Result<Reply, CallFault>, Option<u64>)
        requires table { seat.old.table_id ≡ self.now.session }
        requires hand { (kept : KeptSession K) × (seat.old.me.1 ≡ (0, kept) ∷ []) × HasCounts kept }
        ensures table { seat.new.table_id ≡ self.now.session }
        ensures reply { (first : ℕ)
            → Works (KeepsHoped K.holds K.writes K.shut K.faults first) K.shut seat.old.me request.now result.0 result.1
            seat.new.me }
    {
        let kept = seat.slot_mut(&self.table.shared, 0);
        kept.call(request)
    }

    /// Settles the session in hand for a call that waits behind so many items.
    fn settle(&self, seat: &mut Place<K>, place: u64) -> Waiting
        requires table { seat.old.table_id ≡ self.now.session }
        requires hand { (kept : KeptSession K) × (seat.old.me.1 ≡ (0, kept) ∷ []) × HasCounts kept × CanGoBack kept }
        ensures table { seat.new.table_id ≡ self.now.session }
        ensures how { (first : ℕ) → GoesOnSo
            (KeepsHoped K.holds K.writes K.shut K.faults first) seat.old.me place result seat.new.me }
    {
        let kept = seat.slot_mut(&self.table.shared, 0);
        kept.settle(place)
    }

    /// The seat of a new pass, with the first number that is taken as its caller's.
    fn cut<J: Sharing>(&self, seat: &mut Place<K>, spare: u32) -> Place<K>
        requires table { seat.old.table_id ≡ self.now.session }
        requires asked { spare ≡ J.spare }
        requires enough { spare < count_of seat.old.me.0.spare }
        ensures table { (seat.new.table_id ≡ self.now.session) × (result.table_id ≡ self.now.session) }
        ensures kept { seat.new.me ≡ (split_left (spare + 1) seat.old.me.0, seat.old.me.1) }
        ensures given { result.me ≡ (split_right (spare + 1) seat.old.me.0, []) }
        ensures unused { (n : ℕ) → 0 < in_ranges n seat.old.me.0.spare → calls_of (n ∷ []) seat.old.me.0.seen ≡ [] }
        ensures once { HoldsOnce seat.old.me.0 }
    {
        self.table.shared.load::<LookUnused>(seat, NEXT);
        self.table.shared.split_seat::<Cut<J>>(seat)
    }
}
