//! Files by name, each of which a store may be opened on.
ghost use Rattle.std.specs.Prelude.{◌≡◌, ◌≢◌, ◌⊎◌, ℕ, List, Bool, true, IfOk, OnOk, OnErr};
ghost use Rattle.tea_io.specs.Files.{Content, Holds};
ghost use Rattle.store_io.specs.Store.{StoreCause};
ghost use Rattle.store_io.specs.Stores.{IsOpened, IsBack, content_after, out_after};

use crate::store::{Store, StoreFault};
use tea_base::{Blob, Text};

/// What was found under a name.
#[derive(Drop)]
pub enum Opened<S> {
    /// There is no file.
    Absent,
    /// A store, and what it holds.
    There { store: S, bytes: Blob },
    /// The file is longer than the limit.
    TooLarge { len: u64 },
}

/// Files by name. A store that was opened belongs to whoever opened it alone, until it comes back.
pub trait Stores {
    /// What holds the bytes of one name.
    type Store: Store;

    /// What a name holds, as far as it is told.
    ghost held: { Self → List ℕ → Content };

    /// Whether the store of a name may be given back.
    ghost is_out: { Self → List ℕ → Bool };

    /// How often a call was not done.
    ghost faults: { Self → ℕ };

    /// Puts a file whole or not at all, also where the program ends meanwhile. At an error it may be put.
    fn found(&mut self, name: &Text, bytes: &[u8]) -> Result<(), StoreFault>
        ensures ok { OnOk result (Holds (held self.old name.now) (held self.new name.now) bytes.now) }
        ensures err { OnErr result ((held self.new name.now ≡ held self.old name.now)
            ⊎ Holds (held self.old name.now) (held self.new name.now) bytes.now) }
        ensures others { (other : List ℕ) → other ≢ name.now → held self.new other ≡ held self.old other }
        ensures out { (other : List ℕ) → is_out self.new other ≡ is_out self.old other }
        ensures cause { StoreCause (faults self.old) (faults self.new) result };

    /// The store of a name, which nobody else has open, and its bytes, if there are at most `limit`.
    fn open(&mut self, name: &Text, limit: u64) -> Result<Opened<Self::Store>, StoreFault>
        ensures given { IfOk result (IsOpened Self.Store.bytes Self.Store.safe (held self.old name.now) limit) }
        ensures held { IfOk result (λ opened. held self.new name.now ≡ content_after (held self.old name.now) opened) }
        ensures out { IfOk result (λ opened. is_out self.new name.now ≡ out_after (is_out self.old name.now) opened) }
        ensures err { OnErr result ((held self.new name.now ≡ held self.old name.now)
            × (is_out self.new name.now ≡ is_out self.old name.now)) }
        ensures others { (other : List ℕ) → other ≢ name.now →
            (held self.new other ≡ held self.old other) × (is_out self.new other ≡ is_out self.old other) }
        ensures cause { StoreCause (faults self.old) (faults self.new) result };

    /// Gives a store back, under the name that it was opened by.
    fn back(&mut self, name: &Text, store: Self::Store)
        requires out { is_out self.old name.now ≡ true }
        ensures back { IsBack (Self.Store.bytes store) (held self.new name.now) }
        ensures others { (other : List ℕ) → other ≢ name.now →
            (held self.new other ≡ held self.old other) × (is_out self.new other ≡ is_out self.old other) }
        ensures faults { faults self.new ≡ faults self.old };
}
