//! Files in memory that stores are opened on.
ghost use Rattle.std.specs.Prelude.{◌≡◌, ◌≢◌, ◌≤◌, ◌+◌, ◌⊎◌, ℕ, List, [], true, Some, None, Err, IfOk, OnOk, OnErr, vec_len, vec_capacity, if◌then◌else◌};
ghost use Rattle.std.specs.Str.{bytes_eq};
ghost use Rattle.std.specs.Option.{option_copied};
ghost use Rattle.tea_io.specs.Files.{Holds};
ghost use Rattle.tea_io.specs.Calls.{IsAnswerOr};
ghost use Rattle.store_io.specs.Store.{StoreCause};
ghost use Rattle.store_io.specs.Stores.{IsOpened, IsBack, content_after, out_after};
ghost use Rattle.tea_io.specs.Told.{count_up, Rose};
ghost use Rattle.store_io.specs.MemStores.{newest, is_out, content_of, found_answer, found_tried, open_answer, open_tried, counting};
ghost use Rattle.store_io.specs.MemStores.{copies_within, after_back, is_some_out, count_out};

use crate::calls::is_failing;
use crate::mem_store::MemStore;
use crate::store::StoreFault;
use crate::stores::{Opened, Stores};
use std::alloc::Global;
use std::marker::Model;
use std::mem;
use tea_base::{Blob, Numbers, Text, WantOfMemory};
use tea_io::{NamedBlob, NamedBlobs};

/// Files that are kept in memory. One store is out at a time: while it is, each opening fails. The calls whose numbers
/// they were given fail. They are counted from 1. A founding that fails has put its file where `torn` is not 0. A call that
/// is out of memory changes nothing, and is not among the calls.
#[derive(Drop)]
pub struct MemStores {
    alloc: Global,
    held: Vec<NamedBlob>,
    out: Option<Text>,
    failing: Numbers,
    failing_opened: Numbers,
    torn: u64,
    next_call: u64,
    faults: u64,
    ghost room: { vec_len held + count_out out ≤ vec_capacity held },
}

impl Model for MemStores {
    ghost use Rattle.store_io.specs.MemStores.{MemStoresState};

    ghost Value = { MemStoresState };

    ghost view = { λ stores. record {
      held = stores.held.items;
      out = stores.out;
      failing = stores.failing;
      failing_opened = stores.failing_opened;
      torn = stores.torn;
      next_call = stores.next_call;
      faults = stores.faults;
    } };
}

impl MemStores {
    /// These files, whose calls of the numbers `fail` fail. The first store that is opened has the numbers `fail_opened`, and
    /// `torn`. Takes no memory.
    pub fn new(
        alloc: Global,
        held: NamedBlobs,
        fail: Numbers,
        fail_opened: Numbers,
        torn: u64,
    ) -> MemStores
        ensures { result ≡ record {
          held = held;
          out = None;
          failing = fail;
          failing_opened = fail_opened;
          torn = torn;
          next_call = 1;
          faults = 0;
        } }
    {
        MemStores {
            alloc,
            held: held.into_vec(),
            out: None,
            failing: fail,
            failing_opened: fail_opened,
            torn,
            next_call: 1,
            faults: 0,
        }
    }

    /// The bytes of a name, if it has a file. This is no call that can fail. While a store is out, it gives what its file
    /// was when it was opened.
    pub fn get(&self, name: &Text) -> Option<&Blob>
        ensures { option_copied result ≡ newest None self.now.held name.now }
    {
        find(&self.held, name)
    }

    /// Counts a call that was not done.
    fn counted(&mut self, fault: StoreFault) -> StoreFault
        ensures same { result ≡ fault }
        ensures counts { self.new ≡ record self.old { faults = count_up self.old.faults } }
        ensures later { self.old.faults ≤ self.new.faults }
        ensures rose { Rose self.old.faults self.new.faults }
    {
        self.faults = self.faults.saturating_add(1);
        fault
    }

    /// Puts a file, and counts the call, but no fault.
    fn try_found(&mut self, name: &Text, bytes: &[u8]) -> Result<(), StoreFault>
        ensures answer { IsAnswerOr (Err StoreFault.WantOfMemory) (found_answer self.old) result }
        ensures leaves { self.new ≡ found_tried result name.now bytes.now self.old }
        ensures faults { self.new.faults ≡ self.old.faults }
    {
        let file = NamedBlob {
            name: name.try_clone()?,
            bytes: Blob::copy(self.alloc, bytes)?,
        };
        // Room for it, and for the file of the store that is out.
        if self.held.reserve(2).is_err() {
            return Err(StoreFault::WantOfMemory);
        }
        let fails = is_failing(self.failing.as_slice(), self.next_call);
        self.next_call = self.next_call.saturating_add(1);
        if !fails || self.torn != 0 {
            self.held.push_reserved(file);
        }
        if fails {
            return Err(StoreFault::Failed);
        }
        Ok(())
    }

    /// Opens a name, and counts the call, but no fault.
    fn try_open(&mut self, name: &Text, limit: u64) -> Result<Opened<MemStore>, StoreFault>
        ensures answer { IsAnswerOr (Err StoreFault.WantOfMemory) (open_answer self.old name.now limit) result }
        ensures leaves { self.new ≡ open_tried result name.now self.old }
        ensures faults { self.new.faults ≡ self.old.faults }
    {
        let name = name.try_clone()?;
        let found = copies_within(self.alloc, find(&self.held, &name), limit)?;
        // Room for the file when its store comes back.
        if self.held.reserve(1).is_err() {
            return Err(StoreFault::WantOfMemory);
        }
        let fails = is_failing(self.failing.as_slice(), self.next_call);
        self.next_call = self.next_call.saturating_add(1);
        if fails || self.out.is_some() {
            return Err(StoreFault::Failed);
        }
        match found {
            Opened::Absent => Ok(Opened::Absent),
            Opened::TooLarge { len } => Ok(Opened::TooLarge { len }),
            Opened::There { store, bytes } => {
                self.out = Some(name);
                let failing = mem::replace(&mut self.failing_opened, Numbers::new(self.alloc));
                let store = MemStore::new(store, failing, self.torn);
                Ok(Opened::There { store, bytes })
            }
        }
    }

    /// Puts what the store holds that is out.
    fn put_back(&mut self, store: MemStore)
        requires { is_some_out self.old.out ≡ true }
        ensures { (name : List ℕ) → self.old.out ≡ Some name → self.new ≡ after_back name store.bytes self.old }
    {
        match self.out.take() {
            Some(name) => {
                let bytes = store.into_bytes();
                self.held.push_reserved(NamedBlob { name, bytes });
            }
            None => unreachable!(),
        }
    }
}

impl Stores for MemStores {
    type Store = MemStore;

    ghost held = { content_of };

    ghost is_out = { is_out };

    ghost faults = { λ stores. stores.faults };

    fn found(&mut self, name: &Text, bytes: &[u8]) -> Result<(), StoreFault>
        ensures ok { OnOk result (Holds (content_of self.old name.now) (content_of self.new name.now) bytes.now) }
        ensures err { OnErr result ((content_of self.new name.now ≡ content_of self.old name.now)
            ⊎ Holds (content_of self.old name.now) (content_of self.new name.now) bytes.now) }
        ensures others { (other : List ℕ) → other ≢ name.now → content_of self.new other ≡ content_of self.old other }
        ensures out { (other : List ℕ) → is_out self.new other ≡ is_out self.old other }
        ensures cause { StoreCause self.old.faults self.new.faults result }

        // What it answers but for want of memory, and all that it leaves.
        ensures answer { IsAnswerOr (Err StoreFault.WantOfMemory) (found_answer self.old) result }
        ensures leaves { self.new ≡ counting result (found_tried result name.now bytes.now self.old) }
    {
        match self.try_found(name, bytes) {
            Ok(()) => Ok(()),
            Err(fault) => Err(self.counted(fault)),
        }
    }

    fn open(&mut self, name: &Text, limit: u64) -> Result<Opened<MemStore>, StoreFault>
        ensures given { IfOk result
            (IsOpened (λ store. Some store.bytes) (λ store. store.safe) (content_of self.old name.now) limit) }
        ensures held { IfOk result (λ opened. content_of self.new name.now
            ≡ content_after (content_of self.old name.now) opened) }
        ensures out { IfOk result (λ opened. is_out self.new name.now ≡ out_after (is_out self.old name.now) opened) }
        ensures err { OnErr result ((content_of self.new name.now ≡ content_of self.old name.now)
            × (is_out self.new name.now ≡ is_out self.old name.now)) }
        ensures others { (other : List ℕ) → other ≢ name.now →
            (content_of self.new other ≡ content_of self.old other) × (is_out self.new other ≡ is_out self.old other) }
        ensures cause { StoreCause self.old.faults self.new.faults result }

        // What it answers but for want of memory, and all that it leaves.
        ensures answer { IsAnswerOr (Err StoreFault.WantOfMemory) (open_answer self.old name.now limit) result }
        ensures leaves { self.new ≡ counting result (open_tried result name.now self.old) }
    {
        match self.try_open(name, limit) {
            Ok(opened) => Ok(opened),
            Err(fault) => Err(self.counted(fault)),
        }
    }

    fn back(&mut self, name: &Text, store: MemStore)
        requires out { is_out self.old name.now ≡ true }
        ensures back { IsBack (Some store.bytes) (content_of self.new name.now) }
        ensures others { (other : List ℕ) → other ≢ name.now →
            (content_of self.new other ≡ content_of self.old other) × (is_out self.new other ≡ is_out self.old other) }
        ensures faults { self.new.faults ≡ self.old.faults }

        ensures leaves { self.new ≡ after_back name.now store.bytes self.old }
    {
        self.put_back(store);
    }
}

/// The bytes of a file, if it has this name, or else what was found before.
fn newer<'a>(found: Option<&'a Blob>, file: &'a NamedBlob, name: &Text) -> Option<&'a Blob>
    ensures { option_copied result
        ≡ (if bytes_eq file.now.name name.now then Some file.now.bytes else option_copied found.entry) }
{
    if file.name.is_text(name) {
        return Some(&file.bytes);
    }
    found
}

/// The bytes of the last file of this name.
fn find<'a>(files: &'a [NamedBlob], name: &Text) -> Option<&'a Blob>
    ensures { option_copied result ≡ newest None files.now name.now }
{
    let mut found = None;
    for file in files {
        found = newer(found, file, name);
    }
    found
}

/// A copy for a store and one for its reader, if there are at most `limit` bytes.
fn copies_within(
    alloc: Global,
    found: Option<&Blob>,
    limit: u64,
) -> Result<Opened<Blob>, WantOfMemory>
    ensures { IfOk result (λ copies. copies ≡ copies_within (option_copied found.entry) limit) }
{
    let Some(blob) = found else {
        return Ok(Opened::Absent);
    };
    let len = blob.len() as u64;
    if len > limit {
        return Ok(Opened::TooLarge { len });
    }
    let store = Blob::copy(alloc, blob.bytes())?;
    let bytes = Blob::copy(alloc, blob.bytes())?;
    Ok(Opened::There { store, bytes })
}
