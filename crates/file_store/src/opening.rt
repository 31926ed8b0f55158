//! Opening the file of a name for a store.
ghost use Rattle.std.specs.Prelude.{IfOk, None};
ghost use Rattle.tea_io.specs.Files.{Untold};
ghost use Rattle.store_io.specs.Stores.{IsOpened};

use crate::placing::open_folder;
use crate::store::FileStore;
use std::fs::{File, OpenFile};
use std::io::{self, ErrorKind, Read};
use std::rt::Files;
use store_io::Opened;
use tea_base::Blob;

/// Opens a file for reading and appending, takes its lock, and reads it, if it has at most `limit` bytes.
pub(crate) fn open_locked<R: Files<File = File> + AllocGlobal>(
    rt: &R,
    path: &str,
    limit: u64,
) -> io::Result<Opened<FileStore>>
    ensures { IfOk result (IsOpened (λ store. None) (λ store. 0) Untold limit) }
{
    let mut file = match File::options().read(true).append(true).open(rt, path) {
        Ok(file) => file,
        Err(error) if error.kind() == ErrorKind::NotFound => return Ok(Opened::Absent),
        Err(error) => return Err(error),
    };
    file.try_lock()?;
    let told = file.metadata()?;
    if !told.is_file() {
        return Err(io::Error::from(ErrorKind::InvalidInput));
    }
    if told.len() > limit {
        return Ok(Opened::TooLarge { len: told.len() });
    }
    // Whoever put the file may have been killed before its name was safe.
    open_folder(rt, path)?.sync_all()?;
    let mut bytes = Vec::with_capacity(rt.alloc(), told.len() as usize)?;
    file.by_ref()
        .take(limit.saturating_add(1))
        .read_to_end(&mut bytes)?;
    let len = bytes.len() as u64;
    if len > limit {
        return Ok(Opened::TooLarge { len });
    }
    Ok(Opened::There {
        store: FileStore::new(file),
        bytes: Blob::from_vec(bytes),
    })
}
