//! A journal that keeps a session.
ghost use Rattle.std.specs.Prelude.{◌≡◌, ◌≤◌, ℕ, true, false, List, length, OnErr, OnOk};
ghost use Rattle.tea_io.specs.Told.{Rose};
ghost use Rattle.tea_base.specs.Limits.{most_snapshot};
ghost use Rattle.reflector_core.specs.Keeping.{HoldsSnapshot, HoldsStill, HoldsTick, KeepCause};
ghost use Rattle.session_log.specs.Stored.{PlainStored, plain_of};
ghost use Rattle.session_journal.specs.declared.change.Change.TheVariants.{Kept};
ghost use Rattle.session_journal.specs.Keeper.{IsWrittenBy, lease, reached_to};
ghost use Rattle.session_journal.specs.State.{has_room, may_come};
ghost use Rattle.session_journal.specs.Changes.{IsTypedChange};
ghost use Rattle.session_keeper.specs.Keeping.{IsJournalOf, IsShut, WritesJournalOf, fault_count, is_nearly_full, is_settled, with_due_snapshot};

use entry_fields::LentWhat;
use reflector_core::{Keeper, Unkept};
use session_journal::{Journal, KeepFault, LentChange};
use store_io::Store;
use tea_base::SessionId;

/// A session's journal, as its keeper.
#[derive(Drop)]
pub struct JournalKeeper<S> {
    /// Of the session.
    pub id: SessionId,
    pub journal: Journal<S>,
    /// An entry or a horizon had no room in the journal. Nothing more is written then.
    pub full: bool,
}

impl<S: Store + Drop> JournalKeeper<S> {
    /// Notes that a record has no room in the journal.
    fn fill(&mut self) -> Unkept
        requires unfilled { self.old.full ≡ false }
        requires nearly { is_nearly_full self.old.journal.len ≡ true }
        ensures full { self.new ≡ record self.old { full = true } }
        ensures rose { Rose (fault_count S.faults self.old) (fault_count S.faults self.new) }
    {
        self.full = true;
        Unkept
    }

    /// Writes a snapshot if it is due and has room.
    fn put_snapshot(&mut self, time: u64, bytes: &[u8]) -> Result<(), Unkept>
        requires short { length bytes.now ≤ most_snapshot }
        requires unshut { IsShut self.old → ⊥ }
        ensures due { OnOk result ((id : List ℕ) (s : PlainStored) → IsWrittenBy S.bytes S.safe id self.old.journal s →
            IsTypedChange (Kept time bytes.now) → may_come s (Kept time bytes.now) ≡ true →
            IsWrittenBy S.bytes S.safe id self.new.journal (with_due_snapshot self.old.journal time bytes.now s)) }
        ensures written { OnOk result
            (HoldsSnapshot (WritesJournalOf S.bytes S.safe self.old)
            (WritesJournalOf S.bytes S.safe self.new) time bytes.now) }
        ensures held { HoldsStill (IsJournalOf S.bytes S.safe self.old) (IsJournalOf S.bytes S.safe self.new) }
        ensures cause { KeepCause (IsShut self.old) (IsShut self.new) (fault_count S.faults self.old)
            (fault_count S.faults self.new) result }
    {
        if !self.journal.is_due(bytes.len() as u64) {
            return Ok(());
        }
        match self.journal.keep(LentChange::Kept { time, bytes }) {
            Ok(()) => Ok(()),
            // a snapshot for which there is no room is left out
            Err(KeepFault::Full) => Ok(()),
            Err(KeepFault::Unkept) => Err(Unkept),
        }
    }
}

impl<S: Store + Drop> Keeper for JournalKeeper<S> {
    ghost use Rattle.session_keeper.specs.Keeping.{IsJournalOf, IsShut, WritesJournalOf, fault_count, is_settled};

    ghost holds = { IsJournalOf S.bytes S.safe };

    ghost writes = { WritesJournalOf S.bytes S.safe };

    ghost settled = { is_settled };

    ghost shut = { IsShut };

    ghost faults = { fault_count S.faults };

    fn keep_entry(&mut self, time: u64, view: u32, what: LentWhat<'_>) -> Result<(), Unkept> {
        if self.full {
            return Err(Unkept);
        }
        match self.journal.keep(LentChange::Came { time, view, what }) {
            Ok(()) => Ok(()),
            Err(KeepFault::Full) => Err(self.fill()),
            Err(KeepFault::Unkept) => Err(Unkept),
        }
    }

    fn keep_tick(&mut self, time: u64) -> Result<(), Unkept>
        ensures written { OnOk result
            (HoldsTick (WritesJournalOf S.bytes S.safe self.old) (WritesJournalOf S.bytes S.safe self.new) time) }
        ensures held { HoldsStill (IsJournalOf S.bytes S.safe self.old) (IsJournalOf S.bytes S.safe self.new) }
        ensures cause { KeepCause (IsShut self.old) (IsShut self.new) (fault_count S.faults self.old)
            (fault_count S.faults self.new) result }
        // The horizon is written as far ahead as `lease` says, and no further.
        ensures leased { OnOk result ((id : List ℕ) (s : PlainStored) → IsWrittenBy S.bytes S.safe id self.old.journal s
            →
            has_room (plain_of s.log (lease time) s.kept) ≡ true
            → IsWrittenBy S.bytes S.safe id self.new.journal (reached_to time s)) }
    {
        if self.full {
            return Err(Unkept);
        }
        match self.journal.reach(time) {
            Ok(()) => Ok(()),
            Err(KeepFault::Full) => Err(self.fill()),
            Err(KeepFault::Unkept) => Err(Unkept),
        }
    }

    fn keep_snapshot(&mut self, time: u64, bytes: &[u8]) -> Result<(), Unkept>
        requires { length bytes.now ≤ most_snapshot }
        ensures written { OnOk result
            (HoldsSnapshot (WritesJournalOf S.bytes S.safe self.old)
            (WritesJournalOf S.bytes S.safe self.new) time bytes.now) }
        ensures settled { OnOk result (is_settled self.new ≡ true) }
        ensures held { OnErr result
            (HoldsStill (IsJournalOf S.bytes S.safe self.old) (IsJournalOf S.bytes S.safe self.new)) }
        ensures cause { KeepCause (IsShut self.old) (IsShut self.new) (fault_count S.faults self.old)
            (fault_count S.faults self.new) result }
        // The snapshot is written if it is due and has room, and only then.
        ensures due { OnOk result ((id : List ℕ) (s : PlainStored) → IsWrittenBy S.bytes S.safe id self.old.journal s →
            IsTypedChange (Kept time bytes.now) → may_come s (Kept time bytes.now) ≡ true →
            IsWrittenBy S.bytes S.safe id self.new.journal (with_due_snapshot self.old.journal time bytes.now s)) }
    {
        if self.full || self.journal.shut {
            return Err(Unkept);
        }
        self.put_snapshot(time, bytes)?;
        self.settle()
    }

    fn settle(&mut self) -> Result<(), Unkept>
        ensures written { OnOk result
            (HoldsStill (WritesJournalOf S.bytes S.safe self.old) (WritesJournalOf S.bytes S.safe self.new)) }
        ensures settled { OnOk result (is_settled self.new ≡ true) }
        ensures open { OnOk result (IsShut self.new → ⊥) }
        ensures all { OnOk result (HoldsStill (WritesJournalOf S.bytes S.safe self.new)
            (IsJournalOf S.bytes S.safe self.new)) }
        ensures held { OnErr result
            (HoldsStill (IsJournalOf S.bytes S.safe self.old) (IsJournalOf S.bytes S.safe self.new)) }
        ensures cause { KeepCause (IsShut self.old) (IsShut self.new) (fault_count S.faults self.old)
            (fault_count S.faults self.new) result }
        // Nothing is written by it.
        ensures still { OnOk result ((id : List ℕ) (s : PlainStored) → IsWrittenBy S.bytes S.safe id self.old.journal s
            →
            IsWrittenBy S.bytes S.safe id self.new.journal s) }
    {
        if self.full {
            return Err(Unkept);
        }
        match self.journal.sync() {
            Ok(()) => Ok(()),
            Err(_) => Err(Unkept),
        }
    }

    fn is_settled(&self) -> bool {
        if self.full {
            return false;
        }
        self.journal.is_synced()
    }
}
