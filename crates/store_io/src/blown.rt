//! A store that ends.
ghost use Rattle.std.specs.Prelude.{◌≡◌, ◌≢◌, ◌+◌, OnOk, OnErr, Err};
ghost use Rattle.tea_io.specs.Told.{with_more, count_up};
ghost use Rattle.tea_io.specs.Sink.{GrowsWithin};
ghost use Rattle.store_io.specs.Store.{StoreCause, IsAllSafe, cut_to, MayBeCut};

use crate::store::{Store, StoreFault};

/// A store that passes `left` calls on, and then fails each and changes nothing. So a run over it is a run that ends at
/// that moment, as far as the store sees.
#[derive(Drop)]
pub struct Blown<S> {
    pub inner: S,
    /// How many calls are still passed on.
    pub left: u64,
    /// How many calls came after these.
    pub failed: u64,
}

impl<S: Store> Store for Blown<S> {
    ghost bytes = { λ blown. S.bytes blown.inner };

    ghost safe = { λ blown. S.safe blown.inner };

    ghost faults = { λ blown. S.faults blown.inner + blown.failed };

    fn append(&mut self, piece: &[u8]) -> Result<(), StoreFault>
        ensures ok { OnOk result (S.bytes self.new.inner ≡ with_more (S.bytes self.old.inner) piece.now) }
        ensures part { OnErr result (GrowsWithin (S.bytes self.old.inner) (S.bytes self.new.inner) piece.now) }
        ensures safe { S.safe self.new.inner ≡ S.safe self.old.inner }
        ensures cause { StoreCause (S.faults self.old.inner + self.old.failed)
            (S.faults self.new.inner + self.new.failed) result }

        // Once no call is passed on, each fails, and changes nothing but the count.
        ensures blown { self.old.left ≡ 0 → (result ≡ Err StoreFault.Failed) × (self.new.inner ≡ self.old.inner) }
        ensures after { self.old.left ≡ 0 → (self.new.left ≡ 0) × (self.new.failed ≡ count_up self.old.failed) }
        ensures passed { self.old.left ≢ 0 → (self.new.left + 1 ≡ self.old.left) × (self.new.failed ≡ self.old.failed) }
    {
        if self.left == 0 {
            self.failed = self.failed.saturating_add(1);
            return Err(StoreFault::Failed);
        }
        self.left -= 1;
        self.inner.append(piece)
    }

    fn sync(&mut self) -> Result<(), StoreFault>
        ensures bytes { S.bytes self.new.inner ≡ S.bytes self.old.inner }
        ensures ok { OnOk result (IsAllSafe (S.bytes self.new.inner) (S.safe self.new.inner)) }
        ensures err { OnErr result (S.safe self.new.inner ≡ S.safe self.old.inner) }
        ensures cause { StoreCause (S.faults self.old.inner + self.old.failed)
            (S.faults self.new.inner + self.new.failed) result }

        // Once no call is passed on, each fails, and changes nothing but the count.
        ensures blown { self.old.left ≡ 0 → (result ≡ Err StoreFault.Failed) × (self.new.inner ≡ self.old.inner) }
        ensures after { self.old.left ≡ 0 → (self.new.left ≡ 0) × (self.new.failed ≡ count_up self.old.failed) }
        ensures passed { self.old.left ≢ 0 → (self.new.left + 1 ≡ self.old.left) × (self.new.failed ≡ self.old.failed) }
    {
        if self.left == 0 {
            self.failed = self.failed.saturating_add(1);
            return Err(StoreFault::Failed);
        }
        self.left -= 1;
        self.inner.sync()
    }

    fn cut(&mut self, len: u64) -> Result<(), StoreFault>
        ensures ok { OnOk result (S.bytes self.new.inner ≡ cut_to len (S.bytes self.old.inner)) }
        ensures safe { OnOk result (IsAllSafe (S.bytes self.new.inner) (S.safe self.new.inner)) }
        ensures err { OnErr result (MayBeCut len (S.bytes self.old.inner) (S.bytes self.new.inner)
            (S.safe self.old.inner) (S.safe self.new.inner)) }
        ensures cause { StoreCause (S.faults self.old.inner + self.old.failed)
            (S.faults self.new.inner + self.new.failed) result }

        // Once no call is passed on, each fails, and changes nothing but the count.
        ensures blown { self.old.left ≡ 0 → (result ≡ Err StoreFault.Failed) × (self.new.inner ≡ self.old.inner) }
        ensures after { self.old.left ≡ 0 → (self.new.left ≡ 0) × (self.new.failed ≡ count_up self.old.failed) }
        ensures passed { self.old.left ≢ 0 → (self.new.left + 1 ≡ self.old.left) × (self.new.failed ≡ self.old.failed) }
    {
        if self.left == 0 {
            self.failed = self.failed.saturating_add(1);
            return Err(StoreFault::Failed);
        }
        self.left -= 1;
        self.inner.cut(len)
    }
}
