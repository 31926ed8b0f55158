//! Who keeps what changes in a session, before it changes.
ghost use Rattle.std.specs.Prelude.{◌≡◌, ◌≤◌, ℕ, Bool, true, List, length, Ok, OnOk, OnErr};
ghost use Rattle.tea_base.specs.Limits.{most_payload, most_snapshot};
ghost use Rattle.tea_base.specs.Readings.{payload_len};
ghost use Rattle.entry_fields.specs.Lent.{lent_what};
ghost use Rattle.reflector_core.specs.PlainSession.{PlainSession};
ghost use Rattle.reflector_core.specs.Keeping.{HoldsEntry, HoldsTick, HoldsSnapshot, HoldsStill, KeepCause};
ghost use Rattle.reflector_core.specs.declared.keeper.CallFault.TheVariants as faults;

use entry_fields::LentWhat;
use tea_base::WantOfMemory;

/// What was to change is not kept.
#[derive(Clone, Copy, Debug, PartialEq, Eq)]
pub struct Unkept;

/// Why a call was not answered. The session is as it was.
#[derive(Clone, Copy, Debug, PartialEq, Eq)]
pub enum CallFault {
    WantOfMemory,
    /// The keeper did not keep what was to change.
    Unkept,
}

impl From<WantOfMemory> for CallFault {
    ghost from_gives = { λ _ fault. fault ≡ faults.WantOfMemory };

    fn from(_want: WantOfMemory) -> Self {
        CallFault::WantOfMemory
    }
}

impl From<Unkept> for CallFault {
    ghost from_gives = { λ _ fault. fault ≡ faults.Unkept };

    fn from(_unkept: Unkept) -> Self {
        CallFault::Unkept
    }
}

/// A keeper of a session. Before the session changes, it writes what will change; once that is settled, it stays whatever
/// ends. So one call of `settle` may do for many changes. It may write a later horizon than the session has, so that it
/// need not write at each tick.
pub trait Keeper: Drop {
    /// What it holds, whatever ends.
    ghost holds: { Self → PlainSession → Type 0 };

    /// What it will hold once all is settled.
    ghost writes: { Self → PlainSession → Type 0 };

    /// Nothing is left to settle, and no call has failed.
    ghost settled: { Self → Bool };

    /// A call has failed, and it keeps nothing more.
    ghost shut: { Self → Type 0 };

    /// How often a call failed.
    ghost faults: { Self → ℕ };

    /// Writes one more entry. `time` is a TeaTime in microseconds.
    fn keep_entry(&mut self, time: u64, view: u32, what: LentWhat<'_>) -> Result<(), Unkept>
        requires { payload_len (lent_what what) ≤ most_payload }
        ensures written { OnOk result
            (HoldsEntry (writes self.old) (writes self.new) time view (lent_what what.entry)) }
        ensures held { HoldsStill (holds self.old) (holds self.new) }
        ensures cause { KeepCause (shut self.old) (shut self.new) (faults self.old) (faults self.new) result };

    /// Writes that a tick of this TeaTime may be told.
    fn keep_tick(&mut self, time: u64) -> Result<(), Unkept>
        ensures written { OnOk result (HoldsTick (writes self.old) (writes self.new) time) }
        ensures held { HoldsStill (holds self.old) (holds self.new) }
        ensures cause { KeepCause (shut self.old) (shut self.new) (faults self.old) (faults self.new) result };

    /// Writes a snapshot of a TeaTime, or goes on without it, and settles all.
    fn keep_snapshot(&mut self, time: u64, bytes: &[u8]) -> Result<(), Unkept>
        requires { length bytes.now ≤ most_snapshot }
        ensures written { OnOk result (HoldsSnapshot (writes self.old) (writes self.new) time bytes.now) }
        ensures settled { OnOk result (settled self.new ≡ true) }
        ensures held { OnErr result (HoldsStill (holds self.old) (holds self.new)) }
        ensures cause { KeepCause (shut self.old) (shut self.new) (faults self.old) (faults self.new) result };

    /// Makes all that is written stay whatever ends.
    fn settle(&mut self) -> Result<(), Unkept>
        ensures written { OnOk result (HoldsStill (writes self.old) (writes self.new)) }
        ensures settled { OnOk result (settled self.new ≡ true) }
        ensures open { OnOk result (shut self.new → ⊥) }
        ensures all { OnOk result (HoldsStill (writes self.new) (holds self.new)) }
        ensures held { OnErr result (HoldsStill (holds self.old) (holds self.new)) }
        ensures cause { KeepCause (shut self.old) (shut self.new) (faults self.old) (faults self.new) result };

    /// Whether nothing is left to settle: what is written is held, and no call has failed.
    fn is_settled(&self) -> bool
        ensures is { result ≡ settled self.now }
        ensures open { result ≡ true → shut self.now → ⊥ }
        ensures all { result ≡ true → HoldsStill (writes self.now) (holds self.now) };
}

/// A keeper of a session that need not stay. It does nothing, and never fails.
#[derive(Debug, Drop)]
pub struct NoKeeper;

impl Keeper for NoKeeper {
    ghost holds = { λ _ _. Unit {0} };

    ghost writes = { λ _ _. Unit {0} };

    ghost settled = { λ _. true };

    ghost shut = { λ _. ⊥ };

    ghost faults = { λ _. 0 };

    fn keep_entry(&mut self, _time: u64, _view: u32, _what: LentWhat<'_>) -> Result<(), Unkept> {
        Ok(())
    }

    fn keep_tick(&mut self, _time: u64) -> Result<(), Unkept> {
        Ok(())
    }

    fn keep_snapshot(&mut self, _time: u64, _bytes: &[u8]) -> Result<(), Unkept> {
        Ok(())
    }

    fn settle(&mut self) -> Result<(), Unkept> {
        Ok(())
    }

    fn is_settled(&self) -> bool {
        true
    }
}
