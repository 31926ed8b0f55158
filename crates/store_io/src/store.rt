//! A file that grows at its end.
ghost use Rattle.std.specs.Prelude.{◌≡◌, ℕ, List, Option, OnOk, OnErr};
ghost use Rattle.tea_io.specs.Told.{with_more};
ghost use Rattle.tea_io.specs.Sink.{GrowsWithin};
ghost use Rattle.store_io.specs.Store.{StoreCause, IsAllSafe, cut_to, MayBeCut};
ghost use Rattle.store_io.specs.declared.store.StoreFault.TheVariants.{WantOfMemory};

/// Why a call was not done. It is counted in both cases.
#[derive(Clone, Copy, Debug, PartialEq, Eq)]
pub enum StoreFault {
    /// The call failed.
    Failed,
    /// An allocation was refused.
    WantOfMemory,
}

impl From<tea_base::WantOfMemory> for StoreFault {
    ghost from_gives = { λ _ fault. fault ≡ WantOfMemory };

    fn from(_: tea_base::WantOfMemory) -> Self {
        StoreFault::WantOfMemory
    }
}

/// One file that grows at its end, and that its owner alone writes. Where an implementation knows what it holds, it tells,
/// and its owner can prove what an end of the program leaves.
pub trait Store {
    /// What a read would give, where that is told.
    ghost bytes: { Self → Option (List ℕ) };

    /// How many of the first bytes stay, whatever ends.
    ghost safe: { Self → ℕ };

    /// How often a call was not done.
    ghost faults: { Self → ℕ };

    /// Adds all the bytes at the end, or at an error a first part of them. None of them is safe yet.
    fn append(&mut self, piece: &[u8]) -> Result<(), StoreFault>
        ensures ok { OnOk result (bytes self.new ≡ with_more (bytes self.old) piece.now) }
        ensures part { OnErr result (GrowsWithin (bytes self.old) (bytes self.new) piece.now) }
        ensures safe { safe self.new ≡ safe self.old }
        ensures cause { StoreCause (faults self.old) (faults self.new) result };

    /// Makes all bytes safe. At an error no more of them is safe than before.
    fn sync(&mut self) -> Result<(), StoreFault>
        ensures bytes { bytes self.new ≡ bytes self.old }
        ensures ok { OnOk result (IsAllSafe (bytes self.new) (safe self.new)) }
        ensures err { OnErr result (safe self.new ≡ safe self.old) }
        ensures cause { StoreCause (faults self.old) (faults self.new) result };

    /// Keeps the first `len` bytes alone, and makes them safe. At an error they may be cut or not.
    fn cut(&mut self, len: u64) -> Result<(), StoreFault>
        ensures ok { OnOk result (bytes self.new ≡ cut_to len (bytes self.old)) }
        ensures safe { OnOk result (IsAllSafe (bytes self.new) (safe self.new)) }
        ensures err { OnErr result (MayBeCut len (bytes self.old) (bytes self.new) (safe self.old) (safe self.new)) }
        ensures cause { StoreCause (faults self.old) (faults self.new) result };
}
