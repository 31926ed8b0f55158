//! The rule of the lock's table, and what each step on it tells. These types are for the proofs alone.
use crate::held::KeptSession;
use crate::knowledge::Knowledge;
use crate::trust::Trust;
use atomic_table::{Join, Play, Seat, Split, TableRule};
use reflector_core::{Keeper, Request};
use std::marker::{Brand, PhantomData};
use tea_base::SessionId;

/// What a small table is made for: its seat knows what was lent to it as its key, and goes on to know it.
pub(crate) struct Marking;

impl<K> TableRule<u8, KeptSession<K>, KeptSession<K>> for Marking {
    ghost holds = { λ _ _. Unit {0} };

    ghost first = { λ kept. kept };
}

/// It has no bytes, and means a session with its keeper.
pub(crate) type Mark<K> = Seat<u8, KeptSession<K>>;

/// The rule. The table is told the session's id, its trust, and the session and the keeper that it began with.
pub(crate) struct Law<T, K> {
    trust: PhantomData<T>,
    keeper: PhantomData<K>,
}

impl<T: Trust, K: Keeper> TableRule<KeptSession<K>, Knowledge, (SessionId, T, Mark<K>)>
    for Law<T, K> {
    ghost use Rattle.session_lock.specs.Trusts.{IsTrusted};
    ghost use Rattle.session_lock.specs.Keeping.{KeepsHoped};
    ghost use Rattle.session_lock.specs.Rules.{Locks, first_knowledge};

    ghost holds = { λ key. Locks (IsTrusted T.allows key.1 key.0)
        (KeepsHoped K.holds K.writes K.shut K.faults (K.faults key.2.me.0.keeper)) };

    ghost first = { λ key. first_knowledge key.2.me.0.session };
}

/// What a caller asks. Each call picks it.
pub(crate) trait Asking {
    ghost use Rattle.reflector_core.specs.declared.request.Request.{Request};

    ghost request: { Request };
}

impl Asking for Brand {
    ghost use Rattle.reflector_core.specs.declared.request.Request.TheVariants.{Pull};

    ghost request = { Pull 0 0 };
}

/// Which sessions keep what is trusted, and how many faults the keeper had when the lock began, since a step can't read
/// that of the table. Each call picks them.
pub(crate) trait Trusting {
    ghost use Rattle.std.specs.Prelude.{ℕ};
    ghost use Rattle.reflector_core.specs.PlainSession.{PlainSession};

    ghost trusted: { PlainSession → Type 0 };

    ghost first: { ℕ };
}

impl Trusting for Brand {
    ghost trusted = { λ _. Unit {0} };

    ghost first = { 0 };
}

/// Draws the first ticket that nobody has, unless another call drew one meanwhile.
pub(crate) struct Draw;

impl<K> Play<KeptSession<K>, Knowledge> for Draw {
    ghost use Rattle.session_lock.specs.Steps.{Draws};

    ghost then = { Draws };
}

/// Looks whether it is the turn of the pass, and takes the session if it is.
pub(crate) struct Look<J> {
    trusting: PhantomData<J>,
}

impl<J: Trusting, K: Keeper> Play<KeptSession<K>, Knowledge> for Look<J> {
    ghost use Rattle.session_lock.specs.Keeping.{KeepsHoped};
    ghost use Rattle.session_lock.specs.Steps.{Looks};

    ghost then = { Looks J.trusted (KeepsHoped K.holds K.writes K.shut K.faults J.first) };
}

/// A call that was answered comes into the history.
pub(crate) struct CommitDid<J> {
    asking: PhantomData<J>,
}

impl<J: Asking + Trusting, K> Play<KeptSession<K>, Knowledge> for CommitDid<J> {
    ghost use Rattle.session_lock.specs.declared.knowledge.Item.TheVariants.{Did};
    ghost use Rattle.session_lock.specs.Steps.{Commits};

    ghost then = { Commits J.trusted (λ caller. Did caller J.request) };
}

/// So does one that found no memory.
pub(crate) struct CommitVoid<J> {
    trusting: PhantomData<J>,
}

impl<J: Trusting, K> Play<KeptSession<K>, Knowledge> for CommitVoid<J> {
    ghost use Rattle.session_lock.specs.declared.knowledge.Item.TheVariants.{Void};
    ghost use Rattle.session_lock.specs.Steps.{Commits};

    ghost then = { Commits J.trusted (λ caller. Void caller) };
}

/// And one of which what it would have changed was not kept.
pub(crate) struct CommitUnkept<J> {
    trusting: PhantomData<J>,
}

impl<J: Trusting, K> Play<KeptSession<K>, Knowledge> for CommitUnkept<J> {
    ghost use Rattle.session_lock.specs.declared.knowledge.Item.TheVariants.{Unkept};
    ghost use Rattle.session_lock.specs.Steps.{Commits};

    ghost then = { Commits J.trusted (λ caller. Unkept caller) };
}

/// The turn ends.
pub(crate) struct Release;

impl<K> Play<KeptSession<K>, Knowledge> for Release {
    ghost use Rattle.session_lock.specs.Steps.{Releases};

    ghost then = { Releases };
}

/// The turn ends, and a call that was answered waits to come into the history.
pub(crate) struct PutOffDid<J> {
    asking: PhantomData<J>,
}

impl<J: Asking, K> Play<KeptSession<K>, Knowledge> for PutOffDid<J> {
    ghost use Rattle.session_lock.specs.declared.knowledge.Item.TheVariants.{Did};
    ghost use Rattle.session_lock.specs.Steps.{PutsOff};

    ghost then = { PutsOff (λ caller. Did caller J.request) };
}

/// So does one that found no memory.
pub(crate) struct PutOffVoid;

impl<K> Play<KeptSession<K>, Knowledge> for PutOffVoid {
    ghost use Rattle.session_lock.specs.declared.knowledge.Item.TheVariants.{Void};
    ghost use Rattle.session_lock.specs.Steps.{PutsOff};

    ghost then = { PutsOff (λ caller. Void caller) };
}

/// And one of which what it would have changed was not kept.
pub(crate) struct PutOffUnkept;

impl<K> Play<KeptSession<K>, Knowledge> for PutOffUnkept {
    ghost use Rattle.session_lock.specs.declared.knowledge.Item.TheVariants.{Unkept};
    ghost use Rattle.session_lock.specs.Steps.{PutsOff};

    ghost then = { PutsOff (λ caller. Unkept caller) };
}

/// What waited is gone.
pub(crate) struct Lose;

impl<K> Play<KeptSession<K>, Knowledge> for Lose {
    ghost use Rattle.session_lock.specs.Steps.{Loses};

    ghost then = { Loses };
}

/// Reads the whole history, and tells how many items it has.
pub(crate) struct CountAll<J> {
    trusting: PhantomData<J>,
}

impl<J: Trusting, K> Play<KeptSession<K>, Knowledge> for CountAll<J> {
    ghost use Rattle.session_lock.specs.Steps.{CountsHistory};

    ghost then = { CountsHistory J.trusted };
}

/// How many spare numbers a new pass gets. Each split picks it.
pub(crate) trait Sharing {
    ghost use Rattle.std.specs.Prelude.{ℕ};

    ghost spare: { ℕ };
}

impl Sharing for Brand {
    ghost spare = { 0 };
}

/// Looks that no spare number was used.
pub(crate) struct LookUnused;

impl<K> Play<KeptSession<K>, Knowledge> for LookUnused {
    ghost use Rattle.session_lock.specs.Steps.{Unused};

    ghost then = { Unused };
}

/// Cuts what a pass knows in two: some of its spare numbers go to a new pass.
pub(crate) struct Cut<J> {
    sharing: PhantomData<J>,
}

impl<J: Sharing> Split<Knowledge> for Cut<J> {
    ghost use Rattle.std.specs.Prelude.{◌+◌};
    ghost use Rattle.session_lock.specs.Steps.{split_left, split_right};

    ghost left = { λ v. split_left (J.spare + 1) v };

    ghost right = { λ v. split_right (J.spare + 1) v };
}

/// Joins what two passes know.
pub(crate) struct Glue;

impl Join<Knowledge> for Glue {
    ghost use Rattle.session_lock.specs.Steps.{join_left, join_right};

    ghost both = { join_left };

    ghost spent = { join_right };
}

/// Looks at what two passes knew that were just put together.
pub(crate) struct Settle;

impl<K> Play<KeptSession<K>, Knowledge> for Settle {
    ghost use Rattle.session_lock.specs.Steps.{Settles};

    ghost then = { Settles };
}
