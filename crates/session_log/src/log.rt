//! A log: the heads of its entries in a vector, and all payload bytes in a region.
ghost use Rattle.std.specs.Prelude.{◌≡◌, ◌↔◌, ◌+◌, ◌-◌, ◌^◌, ◌<◌, ◌≤◌, ◌⊎◌, ◌++◌, [], length, option_map, slice_get, IsTrue, IfOk, IsOk, OnOk, OnErr, Some, Err};
ghost use Rattle.tea_base.specs.Readings.{payload_bytes, count_until, last_number, last_time, payload_len};
ghost use Rattle.tea_base.specs.Legal.{IsLegal, MayFollow};
ghost use Rattle.tea_base.specs.Limits.{most_entries, most_bytes};
ghost use Rattle.session_log.specs.LogState.{next_entry, with_next, HasPayloadAt, LosesLast};
ghost use Rattle.session_log.specs.Heads.{what_of, IsPresence};
ghost use Rattle.session_log.specs.Kinds.{entry_kind};
ghost use Rattle.session_log.specs.Room.{Fills};
ghost use Rattle.session_log.specs.Spelling.{log_entry_spelling};
ghost use Rattle.byte_fields.specs.Fields.{list_of};

use crate::filling::Filling;
use crate::heads::{
    Head, HeadKind, count_until, last_number_in, last_time_in, payload_len, push_head,
};
use crate::kinds::{EntryKind, kind_of_head};
use crate::payloads::{copy_what, is_stored, store_event};
use crate::spelling::write_entries;
use event_region::Region;
use std::alloc::Global;
use std::marker::Model;
use tea_base::{Entry, WantOfMemory, What};

/// Why an entry was not given.
#[derive(Clone, Copy, Debug, PartialEq, Eq)]
pub enum GetRefusal {
    /// The seq is 0 or above the log's length.
    NoSuchSeq,
    WantOfMemory,
}

/// The log of a session. Contracts see its entries, which are a legal log, and how many more
/// entries and payload bytes it has room for.
#[derive(Drop)]
pub struct Log {
    heads: Vec<Head>,
    payloads: Region,
    // of the entries: the payloads of those that were popped are in the region still
    bytes: u64,
    // the vector's capacity tells no exact room, so it is counted here
    spare_entries: u32,
}

impl Model for Log {
    ghost use Rattle.session_log.specs.LogState.{LogState};

    ghost Value = { LogState };

    ghost use Rattle.session_log.specs.Kept.{log_state, IsSoundLog};

    ghost view = { log_state };

    ghost invariant = { IsSoundLog };
}

impl Log {
    /// The empty log, without room. Takes no memory.
    pub fn new(alloc: Global) -> Log
        ensures entries { result.entries ≡ [] }
        ensures spare_entries { result.spare_entries ≡ 0 }
        ensures spare_bytes { result.spare_bytes ≡ 0 }
    {
        Log {
            heads: Vec::new(alloc),
            payloads: Region::new(alloc),
            bytes: 0,
            spare_entries: 0,
        }
    }

    /// How many entries it has: at most 1,049,600.
    pub fn len(&self) -> u32
        ensures len { result ≡ length self.now.entries }
        ensures legal { IsLegal self.now.entries }
        ensures bound { result ≤ most_entries }
    {
        self.heads.len() as u32
    }

    /// How many payload bytes its entries have: at most 67,108,864.
    pub fn bytes(&self) -> u64
        ensures bytes { result ≡ payload_bytes self.now.entries }
        ensures bound { result ≤ most_bytes }
    {
        self.bytes
    }

    /// For how many entries and payload bytes there is room.
    pub fn spare(&self) -> (u32, u64)
        ensures entries { result.0 ≡ self.now.spare_entries }
        ensures bytes { result.1 ≡ self.now.spare_bytes }
    {
        (self.spare_entries, self.payloads.spare())
    }

    /// Makes room for at least so many entries and payload bytes. Room that is there already is
    /// kept, and needs no memory.
    pub fn reserve(&mut self, entries: u32, bytes: u64) -> Result<(), WantOfMemory>
        requires entries_bound { entries ≤ 2 ^ 21 }
        requires bytes_bound { bytes ≤ 2 ^ 27 }
        ensures same { self.new.entries ≡ self.old.entries }
        ensures entries { OnOk result (entries ≤ self.new.spare_entries) }
        ensures bytes { OnOk result (bytes ≤ self.new.spare_bytes) }
        ensures entries_kept { self.old.spare_entries ≤ self.new.spare_entries }
        ensures bytes_kept { self.old.spare_bytes ≤ self.new.spare_bytes }
        ensures succeeds { entries ≤ self.old.spare_entries → bytes ≤ self.old.spare_bytes →
            IsOk result }
        ensures err { OnErr result (self.new ≡ self.old) }
    {
        self.heads.reserve(entries as usize)?;
        self.payloads.reserve(bytes)?;
        self.spare_entries = self.spare_entries.max(entries);
        Ok(())
    }

    /// Appends an entry, and gives its seq. `time` is a TeaTime in microseconds. Uses up the room
    /// of one entry and of its payload, and takes no memory.
    pub fn push(&mut self, time: u64, view: u32, what: &What) -> u32
        requires legal { MayFollow self.old.entries (next_entry self.old.entries time view what.now) }
        requires room_for_entry { 0 < self.old.spare_entries }
        requires room_for_bytes { payload_len what.now ≤ self.old.spare_bytes }
        ensures seq { result ≡ length self.old.entries + 1 }
        ensures entries { self.new.entries ≡ with_next self.old.entries time view what.now }
        ensures spare_entries { self.new.spare_entries + 1 ≡ self.old.spare_entries }
        ensures spare_bytes { self.new.spare_bytes + payload_len what.now ≡ self.old.spare_bytes }
    {
        match what {
            What::Join => self.push_presence(time, view, HeadKind::Join),
            What::Exit => self.push_presence(time, view, HeadKind::Exit),
            What::Event { number, payload } => {
                self.push_event(time, view, *number, payload.bytes())
            }
        }
    }

    /// The same of an Event, from a payload that is borrowed.
    pub fn push_event(&mut self, time: u64, view: u32, number: u32, payload: &[u8]) -> u32
        requires legal { MayFollow self.old.entries
            (next_entry self.old.entries time view (What.Event number payload.now)) }
        requires room_for_entry { 0 < self.old.spare_entries }
        requires room_for_bytes { length payload.now ≤ self.old.spare_bytes }
        ensures seq { result ≡ length self.old.entries + 1 }
        ensures entries { self.new.entries ≡
            with_next self.old.entries time view (What.Event number payload.now) }
        ensures spare_entries { self.new.spare_entries + 1 ≡ self.old.spare_entries }
        ensures spare_bytes { self.new.spare_bytes + length payload.now ≡ self.old.spare_bytes }
    {
        let kind = store_event(&mut self.payloads, number, payload);
        let seq = push_head(&mut self.heads, time, view, kind);
        self.bytes += payload.len() as u64;
        self.spare_entries -= 1;
        seq
    }

    /// The same of a Join or an Exit.
    fn push_presence(&mut self, time: u64, view: u32, kind: HeadKind) -> u32
        requires presence { IsPresence kind }
        requires legal { MayFollow self.old.entries
            (next_entry self.old.entries time view (what_of [] kind)) }
        requires room_for_entry { 0 < self.old.spare_entries }
        ensures seq { result ≡ length self.old.entries + 1 }
        ensures entries { self.new.entries ≡ with_next self.old.entries time view (what_of [] kind) }
        ensures spare_entries { self.new.spare_entries + 1 ≡ self.old.spare_entries }
        ensures spare_bytes { self.new.spare_bytes ≡ self.old.spare_bytes }
    {
        let seq = push_head(&mut self.heads, time, view, kind);
        self.spare_entries -= 1;
        seq
    }

    /// Takes the last entry away, and tells its view and what it records. The memory of its payload is not used again. Takes
    /// no memory.
    pub fn pop(&mut self) -> (u32, EntryKind)
        requires { 0 < length self.old.entries }
        ensures popped { LosesLast self.old.entries self.new.entries result.0 result.1 }
        ensures spare_entries { self.new.spare_entries ≡ self.old.spare_entries }
        ensures spare_bytes { self.new.spare_bytes ≡ self.old.spare_bytes }
    {
        match self.heads.pop() {
            None => unreachable!(),
            Some(head) => {
                self.bytes -= payload_len(head.kind);
                (head.view, kind_of_head(head.kind))
            }
        }
    }

    /// How many entries have a time of at most `time`, in microseconds.
    pub fn count_until(&self, time: u64) -> u32
        ensures { result ≡ count_until self.now.entries time }
    {
        count_until(&self.heads, time)
    }

    /// The entry with a seq, its payload in memory of its own.
    pub fn get(&self, seq: u32) -> Result<Entry, GetRefusal>
        ensures ok { IfOk result (λ entry. slice_get self.now.entries (seq - 1) ≡ Some entry) }
        ensures no_such { (result ≡ Err GetRefusal.NoSuchSeq) ↔
            ((seq ≡ 0) ⊎ (length self.now.entries < seq)) }
    {
        if seq == 0 || seq as usize > self.heads.len() {
            return Err(GetRefusal::NoSuchSeq);
        }
        let head = self.heads[seq as usize - 1];
        match copy_what(*self.heads.allocator(), &self.payloads, head.kind) {
            Ok(what) => Ok(Entry {
                seq: head.seq,
                time: head.time,
                view: head.view,
                what,
            }),
            Err(_) => Err(GetRefusal::WantOfMemory),
        }
    }

    /// The time of the entry with a seq, in microseconds.
    pub fn time_of(&self, seq: u32) -> u64
        requires named { 0 < seq }
        requires there { seq ≤ length self.now.entries }
        ensures { option_map (λ entry. entry.time) (slice_get self.now.entries (seq - 1)) ≡
            Some result }
    {
        self.heads[seq as usize - 1].time
    }

    /// The view of the entry with a seq. Takes no memory.
    pub fn view_of(&self, seq: u32) -> u32
        requires named { 0 < seq }
        requires there { seq ≤ length self.now.entries }
        ensures { option_map (λ entry. entry.view) (slice_get self.now.entries (seq - 1)) ≡
            Some result }
    {
        self.heads[seq as usize - 1].view
    }

    /// What the entry with a seq records of its view. Takes no memory.
    pub fn kind_of(&self, seq: u32) -> EntryKind
        requires named { 0 < seq }
        requires there { seq ≤ length self.now.entries }
        ensures { option_map (λ entry. entry_kind entry.what) (slice_get self.now.entries (seq - 1)) ≡
            Some result }
    {
        kind_of_head(self.heads[seq as usize - 1].kind)
    }

    /// The time of the last entry, in microseconds, and 0 where there is none.
    pub fn last_time(&self) -> u64
        ensures { result ≡ last_time self.now.entries }
    {
        last_time_in(&self.heads)
    }

    /// Whether the entry with a seq is an Event with this payload. There is none with the seq 0 or
    /// one above the length.
    pub fn payload_is(&self, seq: u32, bytes: &[u8]) -> bool
        ensures { IsTrue result ↔ HasPayloadAt self.now.entries seq bytes.now }
    {
        if seq == 0 || seq as usize > self.heads.len() {
            return false;
        }
        is_stored(&self.payloads, self.heads[seq as usize - 1].kind, bytes)
    }

    /// How many Events a view sent, which is the number of the last one.
    pub fn last_number(&self, view: u32) -> u32
        ensures number { result ≡ last_number self.now.entries view }
        ensures bound { result ≤ most_entries }
    {
        last_number_in(&self.heads, view)
    }
}

/// Writes how many entries a log has, and each entry but for its seq.
pub fn write_log(out: &mut Filling, log: &Log)
    requires { length (list_of log_entry_spelling log.now.entries) ≤ out.old.spare }
    ensures { Fills out.old out.new (list_of log_entry_spelling log.now.entries) }
{
    out.put_u32(log.len());
    write_entries(out, &log.payloads, &log.heads);
}
