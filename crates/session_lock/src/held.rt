//! The session as the lock's slot holds it.
ghost use Rattle.std.specs.Prelude.{◌≡◌, ◌<◌, ◌≤◌, ◌^◌, ◌-◌, ℕ, Bool, true, List, length, IfOk, OnErr};
ghost use Rattle.reflector_core.specs.PlainSession.{PlainSession, IsSoundSession};
ghost use Rattle.reflector_core.specs.Answer.{answer, with_reply};
ghost use Rattle.reflector_core.specs.Keeping.{HasCause, KeepsPace, back_to, mark_of};
ghost use Rattle.session_lock.specs.declared.knowledge.Item.{Item};
ghost use Rattle.session_lock.specs.History.{item_of};
ghost use Rattle.session_lock.specs.Keeping.{CanGoBack, HasCounts, HasSettled, HasTried, IsFirstKept, KeepsHoped, WasAsked};

use reflector_core::{CallFault, Keeper, Mark, Reply, Request, Session};
use std::marker::Model;

/// A session, of which what its log has room for is not seen.
#[derive(Drop)]
pub struct Held {
    pub(crate) session: Session,
}

impl Model for Held {
    ghost use Rattle.reflector_core.specs.PlainSession.{PlainSession};

    ghost Value = { PlainSession };

    ghost view = { λ held. held.session.plain };
}

impl Held {
    /// Holds a session, which is sound.
    pub(crate) fn of(session: Session) -> Held
        ensures plain { result ≡ session.plain }
        ensures sound { IsSoundSession result }
    {
        // a session that can be asked is sound
        let _ = session.horizon(); // for the prover
        Held { session }
    }

    /// The session that it holds.
    pub(crate) fn into_session(self) -> Session
        ensures { result.plain ≡ self }
    {
        let Held { session } = self;
        session
    }

    fn mark(&self) -> Mark
        ensures mark { result ≡ mark_of self.now }
        ensures sound { IsSoundSession self.now }
    {
        self.session.mark()
    }

    fn go_back(&mut self, mark: Mark)
        requires within { mark.len ≤ length self.old.log }
        requires sound { IsSoundSession (back_to mark self.old) }
        ensures { self.new ≡ back_to mark self.old }
    {
        self.session.go_back(mark);
    }

    fn call<K: Keeper>(&mut self, keeper: &mut K, request: &Request) -> Result<Reply, CallFault>
        ensures ok { IfOk result (λ reply. with_reply self.new reply ≡ answer self.old request.now) }
        ensures err { OnErr result (self.new ≡ self.old) }
        ensures sound { IsSoundSession self.new }
        ensures cause { HasCause (answer self.old request.now).reply (K.shut keeper.new) result }
        ensures pace { KeepsPace K.holds K.writes K.settled K.shut K.faults keeper.old keeper.new self.old self.new }
    {
        self.session.call_kept(keeper, request)
    }
}

/// A session with its keeper, and how far its history has come.
#[derive(Drop)]
pub struct KeptSession<K> {
    pub(crate) session: Held,
    pub(crate) keeper: K,
    /// Where the session goes back to if its keeper fails: as far as all is safe.
    pub(crate) mark: Mark,
    /// How many items the history has.
    pub(crate) done: u64,
    /// With those that are safe and wait to come into the history.
    pub(crate) safe: u64,
    /// With all that wait.
    pub(crate) asked: u64,
    /// The keeper failed, and what waited is gone.
    pub(crate) lost: bool,
}

/// How a call that waits goes on.
#[derive(Clone, Copy, Debug, PartialEq, Eq)]
pub enum Waiting {
    /// It is the next item of the history, and is safe.
    Ended,
    /// What waited is gone. The call is to be made again.
    Lost,
    /// Another item comes first.
    GoesOn,
}

impl<K: Keeper> KeptSession<K> {
    /// A session with its keeper, of which nothing was asked yet.
    pub(crate) fn of(session: Session, keeper: K) -> KeptSession<K>
        ensures first { IsFirstKept result session.plain keeper }
        ensures sound { IsSoundSession result.session }
    {
        let mark = session.mark();
        KeptSession {
            session: Held::of(session),
            keeper,
            mark,
            done: 0,
            safe: 0,
            asked: 0,
            lost: false,
        }
    }

    /// The session and the keeper.
    pub(crate) fn into_parts(self) -> (Session, K)
        ensures { (result.0.plain ≡ self.session) × (result.1 ≡ self.keeper) }
    {
        let KeptSession {
            session,
            keeper,
            ..
        } = self;
        (session.into_session(), keeper)
    }

    /// One item more was asked. Gives where it waits, unless it comes into the history at once: where nothing waits before it
    /// and all is settled, or where something was lost.
    fn place(&mut self) -> Option<u64>
        requires { HasCounts self.old }
        ensures same { (self.new.session ≡ self.old.session) × (self.new.keeper ≡ self.old.keeper) }
        ensures tried { (first : ℕ) (opening : PlainSession) (history pending : List Item) (lost : Bool) (item : Item) →
            WasAsked K.holds K.writes K.settled K.shut K.faults first opening history pending lost item self.old →
            HasTried (KeepsHoped K.holds K.writes K.shut K.faults first) opening history pending lost item result
            self.new }
    {
        let place = self.asked;
        self.asked += 1;
        if self.lost {
            self.done += 1;
            self.safe += 1;
            return None;
        }
        if !self.keeper.is_settled() {
            return Some(place);
        }
        self.safe = self.asked;
        self.mark = self.session.mark();
        if self.done != place {
            return Some(place);
        }
        self.done += 1;
        None
    }

    /// Asks the session.
    pub(crate) fn call(&mut self, request: &Request) -> (Result<Reply, CallFault>, Option<u64>)
        requires { HasCounts self.old }
        ensures ok { IfOk result.0 (λ reply. with_reply self.new.session reply ≡ answer self.old.session request.now) }
        ensures err { OnErr result.0 (self.new.session ≡ self.old.session) }
        ensures sound { IsSoundSession self.new.session }
        ensures cause { HasCause (answer self.old.session request.now).reply (K.shut self.new.keeper) result.0 }
        ensures tried { (first : ℕ) (opening : PlainSession) (history pending : List Item) (lost : Bool) (caller : ℕ) →
            KeepsHoped K.holds K.writes K.shut K.faults first opening history pending lost self.old →
            HasTried (KeepsHoped K.holds K.writes K.shut K.faults first) opening history pending lost
            (item_of caller request.now result.0) result.1 self.new }
    {
        let result = self.session.call(&mut self.keeper, request);
        let place = self.place();
        (result, place)
    }

    /// Goes on with a call that waits behind so many items. If it is not safe, the keeper settles all; where this fails, the
    /// session goes back to where all was safe.
    pub(crate) fn settle(&mut self, place: u64) -> Waiting
        requires counts { HasCounts self.old }
        requires back { CanGoBack self.old }
        ensures settled { (first : ℕ) (opening : PlainSession) (history pending : List Item) (lost : Bool) →
            KeepsHoped K.holds K.writes K.shut K.faults first opening history pending lost self.old →
            HasSettled (KeepsHoped K.holds K.writes K.shut K.faults first) opening history pending lost place result
            self.old self.new }
    {
        if self.lost {
            return Waiting::Lost;
        }
        if self.done != place {
            return Waiting::GoesOn;
        }
        if place < self.safe {
            self.done += 1;
            return Waiting::Ended;
        }
        match self.keeper.settle() {
            Ok(()) => {
                self.safe = self.asked;
                self.mark = self.session.mark();
                self.done += 1;
                Waiting::Ended
            }
            Err(_) => {
                self.lose();
                Waiting::Lost
            }
        }
    }

    /// What waits is gone.
    fn lose(&mut self)
        requires { CanGoBack self.old }
        ensures { self.new ≡ record self.old {
          session = back_to self.old.mark self.old.session;
          safe = self.old.done;
          asked = self.old.done;
          lost = true;
        } }
    {
        self.session.go_back(self.mark);
        self.safe = self.done;
        self.asked = self.done;
        self.lost = true;
    }
}
