//! The keeper of a session's journal.
ghost use Rattle.std.specs.Prelude.{◌≡◌, ◌≤◌, ◌<◌, ◌+◌, ◌-◌, ◌^◌, ◌⊎◌, ◌++◌, ◌&&◌, not, ℕ, List, OnOk, OnErr, IfOk, IfErr, IsErr, Ok, Err, false, true, length, nat_le};
ghost use Rattle.tea_io.specs.Told.{with_more, Rose};
ghost use Rattle.tea_io.specs.Sink.{GrowsWithin};
ghost use Rattle.store_io.specs.Store.{MayBeCut, StoreCause};
ghost use Rattle.store_io.specs.Stores.{TellsOnly};
ghost use Rattle.byte_fields.specs.Fields.{FitsBlob, blob};
ghost use Rattle.session_log.specs.Stored.{PlainStored, plain_of, plain_stored};
ghost use Rattle.session_journal.specs.declared.change.Change.{Change};
ghost use Rattle.session_journal.specs.declared.change.Change.TheVariants.{Reached};
ghost use Rattle.session_journal.specs.Lent.{lent_change};
ghost use Rattle.session_journal.specs.Changes.{IsTypedChange, change_spelling};
ghost use Rattle.session_journal.specs.Heads.{record_len, payload_of};
ghost use Rattle.session_journal.specs.State.{after_change, horizon_after, may_come, has_room};
ghost use Rattle.session_journal.specs.Journal.{most_journal, read_journal, Goes, AreBytes};
ghost use Rattle.session_journal.specs.Reading.{read_place};
ghost use Rattle.session_journal.specs.Keeper.{IsKeptBy, IsWrittenBy, KeepsStill, lease, reached_to, since_after};

use crate::change::LentChange;
use crate::check::check_of;
use crate::heads::{head_of, payload_of};
use crate::reading::Read;
use arrayvec::ArrayVec;
use store_io::{Store, StoreFault};
use tea_base::END_OF_TIME;

/// The most bytes of a journal. A file that is longer is none.
pub const MOST_JOURNAL: u64 = 268_435_456;

/// Why a change was not written.
#[derive(Clone, Copy, Debug, PartialEq, Eq)]
pub enum KeepFault {
    /// The journal would be too long. Nothing was written.
    Full,
    /// The store failed, now or before. Nothing more is written.
    Unkept,
}

/// What was written was not made safe, since the store failed, now or before.
#[derive(Clone, Copy, Debug, PartialEq, Eq)]
pub struct Unsynced;

/// A journal that grows. It is made by `open`.
#[derive(Drop)]
pub struct Journal<S> {
    pub store: S,
    /// The check that the next record follows.
    pub check: [u8; 8],
    /// The horizon that its records tell, a TeaTime in microseconds.
    pub horizon: u64,
    /// How many bytes it has.
    pub len: u64,
    /// How many it had after the last snapshot that it keeps, or when it was opened.
    pub since: u64,
    /// Some of its bytes were not made safe since they were added.
    pub dirty: bool,
    /// A call of the store has failed.
    pub shut: bool,
}

/// A store on which no journal was opened, and why.
#[derive(Drop)]
pub struct Unopened<S> {
    pub store: S,
    pub fault: StoreFault,
}

/// The most bytes of the record of an entry or a horizon: of a head, of the payload of an Event, and of the check.
const MOST_RECORD: usize = 4130;

/// Three pieces as one.
fn joined(head: &[u8], payload: &[u8], check: &[u8]) -> ArrayVec<u8, MOST_RECORD>
    requires { length head.now + length payload.now + length check.now ≤ 4130 }
    ensures { result.items ≡ head.now ++ (payload.now ++ check.now) }
{
    let mut record = ArrayVec::new();
    let _ = record.try_extend_from_slice(head);
    let _ = record.try_extend_from_slice(payload);
    let _ = record.try_extend_from_slice(check);
    record
}

/// Appends three pieces by one call.
fn append_joined<S: Store>(
    store: &mut S,
    head: &[u8],
    payload: &[u8],
    check: &[u8],
) -> Result<(), StoreFault>
    requires { length head.now + length payload.now + length check.now ≤ 4130 }
    ensures ok { OnOk result (S.bytes store.new
        ≡ with_more (S.bytes store.old) (head.now ++ (payload.now ++ check.now))) }
    ensures part { OnErr result (GrowsWithin (S.bytes store.old) (S.bytes store.new)
        (head.now ++ (payload.now ++ check.now))) }
    ensures safe { S.safe store.new ≡ S.safe store.old }
    ensures cause { StoreCause (S.faults store.old) (S.faults store.new) result }
{
    store.append(joined(head, payload, check).as_slice())
}

/// Appends three pieces, one after the other.
fn append_pieces<S: Store>(
    store: &mut S,
    head: &[u8],
    payload: &[u8],
    check: &[u8],
) -> Result<(), StoreFault>
    ensures ok { OnOk result (S.bytes store.new
        ≡ with_more (S.bytes store.old) (head.now ++ (payload.now ++ check.now))) }
    ensures part { OnErr result (GrowsWithin (S.bytes store.old) (S.bytes store.new)
        (head.now ++ (payload.now ++ check.now))) }
    ensures safe { S.safe store.new ≡ S.safe store.old }
    ensures cause { StoreCause (S.faults store.old) (S.faults store.new) result }
{
    store.append(head)?;
    store.append(payload)?;
    store.append(check)
}

/// Appends a record, which is longer than that of an entry only where it has a snapshot. Takes no memory.
fn append<S: Store>(
    store: &mut S,
    head: &[u8],
    payload: &[u8],
    check: &[u8],
) -> Result<(), StoreFault>
    requires { length head.now + length payload.now + length check.now < 2 ^ 64 }
    ensures ok { OnOk result (S.bytes store.new
        ≡ with_more (S.bytes store.old) (head.now ++ (payload.now ++ check.now))) }
    ensures part { OnErr result (GrowsWithin (S.bytes store.old) (S.bytes store.new)
        (head.now ++ (payload.now ++ check.now))) }
    ensures safe { S.safe store.new ≡ S.safe store.old }
    ensures cause { StoreCause (S.faults store.old) (S.faults store.new) result }
{
    if head.len() + payload.len() + check.len() <= MOST_RECORD {
        append_joined(store, head, payload, check)
    } else {
        append_pieces(store, head, payload, check)
    }
}

impl<S: Store> Journal<S> {
    /// The journal that was read from a store. What is after its good bytes is cut, and all others are made safe. At an error
    /// the store may be cut or not.
    pub fn open(store: S, read: &Read<'_>) -> Result<Journal<S>, Unopened<S>>
        // The store's safe bytes are the journal of the session that was read.
        ensures keeps { IfOk result (λ journal. (id bytes : List ℕ) → TellsOnly (S.bytes store) bytes → AreBytes bytes →
            read_journal id bytes ≡ Goes (read_place read.now) → read.now.good ≡ length bytes - length read.now.torn.now
            →
            IsKeptBy S.bytes S.safe id journal (plain_stored read.now.stored)) }
        // So are all its bytes.
        ensures writes { IfOk result (λ journal. (id bytes : List ℕ) → TellsOnly (S.bytes store) bytes → AreBytes bytes
            →
            read_journal id bytes ≡ Goes (read_place read.now) → read.now.good ≡ length bytes - length read.now.torn.now
            →
            IsWrittenBy S.bytes S.safe id journal (plain_stored read.now.stored)) }
        ensures unshut { IfOk result (λ journal. (journal.shut ≡ false) × (journal.dirty ≡ false)) }
        ensures since { IfOk result (λ journal. journal.since ≡ read.now.good) }
        ensures faults { IfOk result (λ journal. S.faults store ≤ S.faults journal.store) }
        ensures err { IfErr result (λ unopened.
            MayBeCut read.now.good (S.bytes store) (S.bytes unopened.store) (S.safe store) (S.safe unopened.store)) }
        ensures cause { IfErr result (λ unopened. Rose (S.faults store) (S.faults unopened.store)) }
    {
        let mut store = store;
        match store.cut(read.good) {
            Err(fault) => Err(Unopened { store, fault }),
            Ok(()) => {
                let check = read.check;
                Ok(Journal {
                    store,
                    check,
                    horizon: read.stored.horizon,
                    len: read.good,
                    since: read.good,
                    dirty: false,
                    shut: false,
                })
            }
        }
    }

    /// Adds a record, by its head and its payload, after which the horizon is this one.
    fn add(&mut self, head: &[u8], payload: &[u8], horizon: u64) -> Result<(), KeepFault>
        requires unshut { self.old.shut ≡ false }
        requires head { 4 ≤ length head.now }
        requires fits { length head.now + length payload.now < 2 ^ 33 }
        ensures written { OnOk result ((id : List ℕ) (s : PlainStored) (c : Change)
            → IsWrittenBy S.bytes S.safe id self.old s →
            head.now ++ payload.now ≡ blob (change_spelling c) → IsTypedChange c → may_come s c ≡ true
            → horizon ≡ horizon_after s.horizon c →
            IsWrittenBy S.bytes S.safe id self.new (after_change s c)) }
        ensures kept { KeepsStill S.bytes S.safe self.old self.new }
        ensures full { result ≡ Err KeepFault.Full
            → (most_journal < self.old.len + (length head.now + length payload.now + 8)) × (self.new ≡ self.old) }
        ensures room { OnOk result (self.old.len + (length head.now + length payload.now + 8) ≤ most_journal) }
        ensures unshut { OnOk result (self.new.shut ≡ false) }
        ensures len { OnOk result (self.new.len ≡ self.old.len + (length head.now + length payload.now + 8)) }
        ensures since { self.new.since ≡ self.old.since }
        ensures horizon { OnOk result (self.new.horizon ≡ horizon) }
        ensures cause { result ≡ Err KeepFault.Unkept → (self.new.shut ≡ true)
            × Rose (S.faults self.old.store) (S.faults self.new.store) }
        ensures later { S.faults self.old.store ≤ S.faults self.new.store }
    {
        let record = (head.len() + payload.len()) as u64 + 8;
        let len = self.len.saturating_add(record);
        if len > MOST_JOURNAL {
            return Err(KeepFault::Full);
        }
        let check = check_of(&self.check, &head[4..], payload);
        match append(&mut self.store, head, payload, &check) {
            Err(_) => {
                self.shut = true;
                Err(KeepFault::Unkept)
            }
            Ok(()) => {
                self.check = check;
                self.horizon = horizon;
                self.len = len;
                self.dirty = true;
                Ok(())
            }
        }
    }

    /// Writes a change: its record is appended, and made safe by the next `sync`. Takes no memory.
    pub fn keep(&mut self, change: LentChange<'_>) -> Result<(), KeepFault>
        requires { length (payload_of (lent_change change)) < 2 ^ 31 }
        // What its bytes were the journal of, they are with this change.
        ensures written { OnOk result ((id : List ℕ) (s : PlainStored) → IsWrittenBy S.bytes S.safe id self.old s →
            IsTypedChange (lent_change change.entry) → may_come s (lent_change change.entry) ≡ true →
            IsWrittenBy S.bytes S.safe id self.new (after_change s (lent_change change.entry))) }
        // What the safe ones were the journal of, they are still.
        ensures kept { KeepsStill S.bytes S.safe self.old self.new }
        ensures full { result ≡ Err KeepFault.Full
            → (most_journal < self.old.len + record_len (lent_change change.entry)) × (self.new ≡ self.old) }
        ensures room { OnOk result (self.old.len + record_len (lent_change change.entry) ≤ most_journal) }
        ensures horizon { OnOk result (self.new.horizon ≡ horizon_after self.old.horizon (lent_change change.entry)) }
        ensures since { OnOk result (self.new.since
            ≡ since_after self.old.since self.new.len (lent_change change.entry)) }
        // After a failed call nothing is written.
        ensures shut { self.old.shut ≡ true → (result ≡ Err KeepFault.Unkept) × (self.new ≡ self.old) }
        ensures unshut { OnOk result (self.new.shut ≡ false) }
        ensures cause { result ≡ Err KeepFault.Unkept → (self.new.shut ≡ true)
            × ((self.old.shut ≡ true) ⊎ Rose (S.faults self.old.store) (S.faults self.new.store)) }
        ensures later { S.faults self.old.store ≤ S.faults self.new.store }
    {
        if self.shut {
            return Err(KeepFault::Unkept);
        }
        let head = head_of(change);
        let horizon = horizon_after(self.horizon, change);
        self.add(head.bytes(), payload_of(change), horizon)?;
        self.since = since_after(self.since, self.len, change);
        Ok(())
    }

    /// Writes that a tick of this time may be told: a horizon is written ahead, unless one is that reaches so far. Takes no
    /// memory.
    pub fn reach(&mut self, time: u64) -> Result<(), KeepFault>
        ensures written { OnOk result ((id : List ℕ) (s : PlainStored) → IsWrittenBy S.bytes S.safe id self.old s →
            has_room (plain_of s.log (lease time) s.kept) ≡ true
            → IsWrittenBy S.bytes S.safe id self.new (reached_to time s)) }
        ensures reached { OnOk result (time ≤ self.new.horizon) }
        // A tick that is within what is written writes nothing.
        ensures within { self.old.shut ≡ false → time ≤ self.old.horizon → (result ≡ Ok tt) × (self.new ≡ self.old) }
        ensures kept { KeepsStill S.bytes S.safe self.old self.new }
        ensures full { result ≡ Err KeepFault.Full → (most_journal < self.old.len + record_len (Reached (lease time)))
            × (self.new ≡ self.old) }
        ensures shut { self.old.shut ≡ true → (result ≡ Err KeepFault.Unkept) × (self.new ≡ self.old) }
        ensures unshut { OnOk result (self.new.shut ≡ false) }
        ensures cause { result ≡ Err KeepFault.Unkept → (self.new.shut ≡ true)
            × ((self.old.shut ≡ true) ⊎ Rose (S.faults self.old.store) (S.faults self.new.store)) }
        ensures later { S.faults self.old.store ≤ S.faults self.new.store }
    {
        if !self.shut && time <= self.horizon {
            return Ok(());
        }
        self.keep(LentChange::Reached {
            time: lease_of(time),
        })
    }

    /// Makes all that was written safe, unless all is. One call does for all records before it. A sync that failed is not tried
    /// again.
    pub fn sync(&mut self) -> Result<(), Unsynced>
        // What all its bytes were the journal of, the safe ones are.
        ensures synced { OnOk result ((id : List ℕ) (s : PlainStored) → IsWrittenBy S.bytes S.safe id self.old s
            → IsKeptBy S.bytes S.safe id self.new s) }
        ensures written { OnOk result ((id : List ℕ) (s : PlainStored) → IsWrittenBy S.bytes S.safe id self.old s
            → IsWrittenBy S.bytes S.safe id self.new s) }
        ensures clean { OnOk result ((self.new.dirty ≡ false) × (self.new.shut ≡ false)) }
        ensures kept { OnErr result (KeepsStill S.bytes S.safe self.old self.new) }
        ensures len { self.new.len ≡ self.old.len }
        ensures shut { self.old.shut ≡ true → IsErr result × (self.new ≡ self.old) }
        ensures cause { OnErr result ((self.new.shut ≡ true)
            × ((self.old.shut ≡ true) ⊎ Rose (S.faults self.old.store) (S.faults self.new.store))) }
        ensures later { S.faults self.old.store ≤ S.faults self.new.store }
    {
        if self.shut {
            return Err(Unsynced);
        }
        if !self.dirty {
            return Ok(());
        }
        match self.store.sync() {
            Err(_) => {
                self.shut = true;
                Err(Unsynced)
            }
            Ok(()) => {
                self.dirty = false;
                Ok(())
            }
        }
    }

    /// Whether all that was written is safe.
    pub fn is_synced(&self) -> bool
        ensures is { result ≡ (not self.now.shut && not self.now.dirty) }
        ensures open { result ≡ true → self.now.shut ≡ false }
        ensures synced { result ≡ true → (id : List ℕ) (s : PlainStored) → IsWrittenBy S.bytes S.safe id self.now s
            → IsKeptBy S.bytes S.safe id self.now s }
    {
        if self.shut {
            return false;
        }
        !self.dirty
    }

    /// Whether a snapshot of so many bytes is worth a record: the journal has grown by as many since the last one.
    pub fn is_due(&self, len: u64) -> bool
        ensures { result ≡ nat_le len (self.now.len - self.now.since) }
    {
        len <= self.len.saturating_sub(self.since)
    }
}

/// How far a horizon is written ahead of a tick: by two seconds, and not past the end of time unless the tick is.
fn lease_of(time: u64) -> u64
    ensures { result ≡ lease time }
{
    time.saturating_add(2_000_000).min(END_OF_TIME).max(time)
}

/// The horizon after a change.
fn horizon_after(horizon: u64, change: LentChange<'_>) -> u64
    ensures { result ≡ horizon_after horizon (lent_change change.entry) }
{
    match change {
        LentChange::Came { time, .. } => horizon.max(time),
        LentChange::Reached { time } => time,
        LentChange::Kept { .. } => horizon,
    }
}

/// How many bytes there were after the last snapshot, where there are `len` after this change.
fn since_after(since: u64, len: u64, change: LentChange<'_>) -> u64
    ensures { result ≡ since_after since len (lent_change change.entry) }
{
    match change {
        LentChange::Came { .. } | LentChange::Reached { .. } => since,
        LentChange::Kept { .. } => len,
    }
}
