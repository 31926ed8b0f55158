//! The files of the system, on which stores are opened.
ghost use Rattle.std.specs.Prelude.{◌≡◌, true};
ghost use Rattle.tea_io.specs.Files.{Untold};

use crate::counting::{count, fault_of};
use crate::opening::open_locked;
use crate::placing::put_new;
use crate::store::FileStore;
use std::fs::File;
use std::rt;
use store_io::{Opened, StoreFault, Stores};
use tea_base::Text;

/// The files of the system.
///
/// - `found` puts a new file. Where the name has one, that one stays, and the call fails.
/// - `open` takes the lock of the file. Where another store has it, in this program or in another one, the call fails.
#[derive(Drop)]
pub struct FileStores<'a, R> {
    rt: &'a R,
    faults: u64,
}

impl<'a, R: rt::Files<File = File> + AllocGlobal> FileStores<'a, R> {
    /// No call has failed yet.
    pub fn new(rt: &'a R) -> FileStores<'a, R>
        ensures { result.faults ≡ 0 }
    {
        FileStores { rt, faults: 0 }
    }
}

impl<R: rt::Files<File = File> + AllocGlobal> Stores for FileStores<'_, R> {
    type Store = FileStore;

    ghost held = { λ stores name. Untold };

    ghost is_out = { λ stores name. true };

    ghost faults = { λ stores. stores.faults };

    fn found(&mut self, name: &Text, bytes: &[u8]) -> Result<(), StoreFault> {
        match put_new(self.rt, name.as_str(), bytes) {
            Ok(()) => Ok(()),
            Err(error) => Err(count(&mut self.faults, fault_of(error))),
        }
    }

    fn open(&mut self, name: &Text, limit: u64) -> Result<Opened<FileStore>, StoreFault> {
        match open_locked(self.rt, name.as_str(), limit) {
            Ok(opened) => Ok(opened),
            Err(error) => Err(count(&mut self.faults, fault_of(error))),
        }
    }

    fn back(&mut self, _name: &Text, store: FileStore) {
        drop(store);
    }
}
