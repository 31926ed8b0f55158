//! A store in memory, that tears.
ghost use Rattle.std.specs.Prelude.{◌≡◌, ◌++◌, length, take, Some, Err, OnOk, OnErr, if◌then◌else◌};
ghost use Rattle.tea_io.specs.Told.{with_more};
ghost use Rattle.tea_io.specs.Sink.{GrowsWithin};
ghost use Rattle.tea_io.specs.Calls.{IsAnswerOr};
ghost use Rattle.store_io.specs.Store.{StoreCause, IsAllSafe, cut_to, MayBeCut};
ghost use Rattle.store_io.specs.MemStore.{store_of, store_answer, after_append, after_sync, after_cut};

use crate::calls::is_failing;
use crate::store::{Store, StoreFault};
use std::marker::Model;
use tea_base::{Blob, Numbers, WantOfMemory};

/// A store that keeps its bytes in memory. The calls whose numbers it was given fail. They are counted from 1. Of an
/// append that fails, the first `torn` bytes go in, and a cut that fails is done where `torn` is not 0. An append that is
/// out of memory adds nothing, and is not among the calls.
#[derive(Drop)]
pub struct MemStore {
    bytes: Vec<u8>,
    safe: u64,
    failing: Numbers,
    torn: u64,
    next_call: u64,
    faults: u64,
}

impl Model for MemStore {
    ghost use Rattle.store_io.specs.MemStore.{MemStoreState};

    ghost Value = { MemStoreState };

    ghost view = { λ store. record {
      bytes = store.bytes.items;
      safe = store.safe;
      failing = store.failing;
      torn = store.torn;
      next_call = store.next_call;
      faults = store.faults;
    } };
}

impl MemStore {
    /// A store of bytes that are safe. Takes no memory.
    pub fn new(bytes: Blob, fail: Numbers, torn: u64) -> MemStore
        ensures { result ≡ store_of bytes fail torn }
    {
        let safe = bytes.len() as u64;
        MemStore {
            bytes: bytes.into_vec(),
            safe,
            failing: fail,
            torn,
            next_call: 1,
            faults: 0,
        }
    }

    /// What it holds.
    pub fn bytes(&self) -> &[u8]
        ensures { result.now ≡ self.now.bytes }
    {
        self.bytes.as_slice()
    }

    /// How many of the first bytes are safe.
    pub fn safe(&self) -> u64
        ensures { result ≡ self.now.safe }
    {
        self.safe
    }

    /// What it holds. Takes no memory.
    pub fn into_bytes(self) -> Blob
        ensures { result ≡ self.bytes }
    {
        let MemStore { bytes, .. } = self;
        Blob::from_vec(bytes)
    }
}

/// What goes in of a piece: of one that fails, its first bytes.
fn front_of(piece: &[u8], fails: bool, count: u64) -> &[u8]
    ensures { result.now ≡ (if fails then take count piece.now else piece.now) }
{
    if !fails || piece.len() as u64 <= count {
        return piece;
    }
    &piece[..count as usize]
}

/// Adds bytes at the end, or is out of memory and changes nothing.
fn extend(bytes: &mut Vec<u8>, piece: &[u8]) -> Result<(), WantOfMemory>
    ensures ok { OnOk result (bytes.new.items ≡ bytes.old.items ++ piece.now) }
    ensures err { OnErr result (bytes.new.items ≡ bytes.old.items) }
{
    bytes.extend_from_slice(piece)?;
    Ok(())
}

/// Keeps the first bytes alone.
fn shorten(bytes: &mut Vec<u8>, len: u64)
    ensures { bytes.new.items ≡ take len bytes.old.items }
{
    if len < bytes.len() as u64 {
        bytes.truncate(len as usize);
    }
}

impl Store for MemStore {
    ghost bytes = { λ store. Some store.bytes };

    ghost safe = { λ store. store.safe };

    ghost faults = { λ store. store.faults };

    fn append(&mut self, piece: &[u8]) -> Result<(), StoreFault>
        ensures ok { OnOk result (Some self.new.bytes ≡ with_more (Some self.old.bytes) piece.now) }
        ensures part { OnErr result (GrowsWithin (Some self.old.bytes) (Some self.new.bytes) piece.now) }
        ensures safe { self.new.safe ≡ self.old.safe }
        ensures cause { StoreCause self.old.faults self.new.faults result }

        // What it answers but for want of memory, and all that it leaves.
        ensures answer { IsAnswerOr (Err StoreFault.WantOfMemory) (store_answer self.old) result }
        ensures leaves { self.new ≡ after_append result self.old piece.now }
    {
        let fails = is_failing(self.failing.as_slice(), self.next_call);
        match extend(&mut self.bytes, front_of(piece, fails, self.torn)) {
            Err(WantOfMemory) => {
                self.faults = self.faults.saturating_add(1);
                Err(StoreFault::WantOfMemory)
            }
            Ok(()) => {
                self.next_call = self.next_call.saturating_add(1);
                if fails {
                    self.faults = self.faults.saturating_add(1);
                    return Err(StoreFault::Failed);
                }
                Ok(())
            }
        }
    }

    fn sync(&mut self) -> Result<(), StoreFault>
        ensures bytes { Some self.new.bytes ≡ Some self.old.bytes }
        ensures ok { OnOk result (IsAllSafe (Some self.new.bytes) self.new.safe) }
        ensures err { OnErr result (self.new.safe ≡ self.old.safe) }
        ensures cause { StoreCause self.old.faults self.new.faults result }

        ensures answer { result ≡ store_answer self.old }
        ensures leaves { self.new ≡ after_sync result self.old }
    {
        let fails = is_failing(self.failing.as_slice(), self.next_call);
        self.next_call = self.next_call.saturating_add(1);
        if fails {
            self.faults = self.faults.saturating_add(1);
            return Err(StoreFault::Failed);
        }
        self.safe = self.bytes.len() as u64;
        Ok(())
    }

    fn cut(&mut self, len: u64) -> Result<(), StoreFault>
        ensures ok { OnOk result (Some self.new.bytes ≡ cut_to len (Some self.old.bytes)) }
        ensures safe { OnOk result (IsAllSafe (Some self.new.bytes) self.new.safe) }
        ensures err { OnErr result (MayBeCut len (Some self.old.bytes)
            (Some self.new.bytes) self.old.safe self.new.safe) }
        ensures cause { StoreCause self.old.faults self.new.faults result }

        ensures answer { result ≡ store_answer self.old }
        ensures leaves { self.new ≡ after_cut result len self.old }
    {
        let fails = is_failing(self.failing.as_slice(), self.next_call);
        self.next_call = self.next_call.saturating_add(1);
        if fails {
            self.faults = self.faults.saturating_add(1);
            if self.torn != 0 {
                shorten(&mut self.bytes, len);
                self.safe = self.safe.min(len);
            }
            return Err(StoreFault::Failed);
        }
        shorten(&mut self.bytes, len);
        self.safe = self.bytes.len() as u64;
        Ok(())
    }
}
