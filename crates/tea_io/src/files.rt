//! Files by name.
ghost use Rattle.std.specs.Prelude.{◌≡◌, ◌≢◌, ℕ, ◌≤◌, List, length, Option, Err};
ghost use Rattle.std.specs.Prelude.{IfOk, IfErr, OnOk};
ghost use Rattle.tea_io.specs.declared.files.FileCall.{FileCall};
ghost use Rattle.tea_io.specs.declared.files.FileCall.TheVariants.{Look, Read, Write};
ghost use Rattle.tea_io.specs.declared.files.FileFault.TheVariants.{WantOfMemory};
ghost use Rattle.tea_io.specs.Files.{Content, MayBe, IsTooLargeFor, IsNotTooLarge, Holds};
ghost use Rattle.tea_io.specs.Files.{AsksFiles, FileCause, FileWant};

use tea_base::{Blob, Text};

/// Why a call of files was not answered.
#[derive(Clone, Copy, Debug, PartialEq, Eq)]
pub enum FileFault {
    /// The call failed. This is counted.
    Failed,
    /// The file is longer than the limit of the read.
    TooLarge { len: u64 },
    /// An allocation was refused. This is counted too.
    WantOfMemory,
}

impl From<tea_base::WantOfMemory> for FileFault {
    ghost from_gives = { λ _ fault. fault ≡ WantOfMemory };

    fn from(_: tea_base::WantOfMemory) -> Self {
        FileFault::WantOfMemory
    }
}

/// A call of files that was made, with its name.
#[derive(Debug, Drop)]
pub enum FileCall {
    /// A read of this name.
    Read(Text),
    /// A write under this name.
    Write(Text),
    /// A look at this name.
    Look(Text),
}

/// Files by name. Names are told apart by their characters. Where an implementation knows what it
/// holds and what it was asked, it tells, and its callers can prove what they read.
pub trait Files {
    /// What stands under a name, as far as it is told.
    ghost held: { Self → List ℕ → Content };

    /// The calls so far, where they are told.
    ghost asked: { Self → Option (List FileCall) };

    /// How often a call has failed.
    ghost faults: { Self → ℕ };

    /// How often a call was out of memory.
    ghost wants: { Self → ℕ };

    /// The bytes under a name, if there are at most `limit`. What is held stays, whatever the
    /// answer.
    fn read(&mut self, name: &Text, limit: u64) -> Result<Blob, FileFault>
        ensures given { IfOk result (MayBe (held self.old name.now)) }
        ensures within { IfOk result (λ blob. length blob ≤ limit) }
        ensures too_large { IfErr result (IsTooLargeFor (held self.old name.now) limit) }
        ensures same { (other : List ℕ) → held self.new other ≡ held self.old other }
        ensures asked { AsksFiles (asked self.old) (asked self.new) (Read name.now) result }
        ensures cause { FileCause (faults self.old) (faults self.new) result }
        ensures want { FileWant (wants self.old) (wants self.new) result };

    /// Puts bytes under a name. What is held under all other names stays, whatever the answer. A
    /// write that failed leaves open what is held under its own.
    fn write(&mut self, name: &Text, bytes: &[u8]) -> Result<(), FileFault>
        ensures put { OnOk result
            (Holds (held self.old name.now) (held self.new name.now) bytes.now) }
        ensures others { (other : List ℕ) → other ≢ name.now
            → held self.new other ≡ held self.old other }
        ensures refused { result ≡ Err WantOfMemory
            → held self.new name.now ≡ held self.old name.now }
        ensures no_limit { IfErr result IsNotTooLarge }
        ensures asked { AsksFiles (asked self.old) (asked self.new) (Write name.now) result }
        ensures cause { FileCause (faults self.old) (faults self.new) result }
        ensures want { FileWant (wants self.old) (wants self.new) result };

    /// Looks whether bytes can be put under a name, as far as that can be told before. What is held
    /// stays, whatever the answer. A later write may fail all the same.
    fn look(&mut self, name: &Text) -> Result<(), FileFault>
        ensures same { (other : List ℕ) → held self.new other ≡ held self.old other }
        ensures no_limit { IfErr result IsNotTooLarge }
        ensures asked { AsksFiles (asked self.old) (asked self.new) (Look name.now) result }
        ensures cause { FileCause (faults self.old) (faults self.new) result }
        ensures want { FileWant (wants self.old) (wants self.new) result };
}
