//! A file of the system that grows at its end.
ghost use Rattle.std.specs.Prelude.{◌≡◌, true, OnErr, None, Err};
ghost use Rattle.store_io.specs.Store.{StoreCause};

use crate::counting::{count, fault_of};
use std::fs::File;
use std::io::{self, Write};
use store_io::{Store, StoreFault};

/// A file of the system, with its lock. The lock is let go when the store is dropped, and so when the program ends, however that is.
#[derive(Drop)]
pub struct FileStore {
    file: File,
    faults: u64,
    /// A sync has failed. The system may have dropped what it could not write, and still answer the next sync that all is
    /// written (<https://wiki.postgresql.org/wiki/Fsync_Errors>). So no further one is tried.
    sync_failed: bool,
}

impl FileStore {
    /// A file that was opened for appending, and whose lock was taken. No call has failed yet.
    pub(crate) fn new(file: File) -> FileStore
        ensures { result.faults ≡ 0 }
    {
        FileStore {
            file,
            faults: 0,
            sync_failed: false,
        }
    }

    /// Has the system write all bytes to the disk, unless it has failed at that before.
    ///
    /// `fdatasync` leaves out what no later read needs, as the time of the last change. It does write the new length of a
    /// file that has grown or was cut (fdatasync(2) of Linux).
    fn write_out(&mut self) -> Result<(), StoreFault>
        ensures again { self.old.sync_failed ≡ true → result ≡ Err StoreFault.Failed }
        ensures failed { OnErr result (self.new.sync_failed ≡ true) }
        ensures cause { StoreCause self.old.faults self.new.faults result }
    {
        if self.sync_failed {
            return Err(count(&mut self.faults, StoreFault::Failed));
        }
        match self.file.sync_data() {
            Ok(()) => Ok(()),
            Err(error) => {
                self.sync_failed = true;
                Err(count(&mut self.faults, fault_of(error)))
            }
        }
    }
}

/// Cuts a file that is longer than this. A shorter one would grow by zeros, so it is left as it is.
fn shorten(file: &File, len: u64) -> io::Result<()> {
    if len < file.metadata()?.len() {
        file.set_len(len)?;
    }
    Ok(())
}

impl Store for FileStore {
    ghost bytes = { λ store. None };

    ghost safe = { λ store. 0 };

    ghost faults = { λ store. store.faults };

    fn append(&mut self, piece: &[u8]) -> Result<(), StoreFault> {
        match self.file.write_all(piece) {
            Ok(()) => Ok(()),
            Err(error) => Err(count(&mut self.faults, fault_of(error))),
        }
    }

    fn sync(&mut self) -> Result<(), StoreFault> {
        self.write_out()
    }

    fn cut(&mut self, len: u64) -> Result<(), StoreFault> {
        match shorten(&self.file, len) {
            Ok(()) => self.write_out(),
            Err(error) => Err(count(&mut self.faults, fault_of(error))),
        }
    }
}
