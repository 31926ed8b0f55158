//! Putting a file under a name, whole or not at all.

use std::fs::{self, File, OpenFile};
use std::io::{self, ErrorKind, Write};
use std::rt::Files;

/// Writes the bytes of a file, and has the system write them to the disk.
fn fill<F: Write + OpenFile>(file: &mut F, bytes: &[u8]) -> io::Result<()> {
    file.write_all(bytes)?;
    file.sync_all()
}

/// A new file beside a name, and the name of its own. A name that is in use is passed over: another program may write to it, or
/// was killed while it did.
fn new_beside<R: Files + AllocGlobal>(rt: &R, path: &str) -> io::Result<(String, R::File)> {
    for number in 0..u32::MAX {
        let name = format!(in rt.alloc(); "{path}.{number}.new")?;
        match File::create_new(rt, name.as_str()) {
            Ok(file) => return Ok((name, file)),
            Err(error) if error.kind() == ErrorKind::AlreadyExists => {}
            Err(error) => return Err(error),
        }
    }
    Err(io::Error::from(ErrorKind::AlreadyExists))
}

/// The folder of a file.
fn folder_of(path: &str) -> &str {
    match path.rsplit_once('/') {
        Some(("", _)) => "/",
        Some((folder, _)) => folder,
        None => ".",
    }
}

/// The folder of a file, whose names can be made safe.
pub(crate) fn open_folder<R: Files>(rt: &R, path: &str) -> io::Result<R::File> {
    File::open(rt, folder_of(path))
}

/// Puts a new file under a name, whole or not at all. Where the name has a file, that one stays, and the call fails.
///
/// The file gets its name by `link`, which fails where the name is in use, and not by `rename`, which would take the name
/// from a file that another program has put there and has begun to fill.
pub(crate) fn put_new<R: Files + AllocGlobal>(rt: &R, path: &str, bytes: &[u8]) -> io::Result<()> {
    let folder = open_folder(rt, path)?;
    let (name, mut file) = new_beside(rt, path)?;
    let put = fill(&mut file, bytes).and_then(|()| fs::hard_link(rt, name.as_str(), path));
    let removed = fs::remove_file(rt, name.as_str());
    put?;
    removed?;
    folder.sync_all()
}

/// Looks whether a new file can be made beside a name. It leaves none behind.
pub fn look_beside<R: Files + AllocGlobal>(rt: &R, path: &str) -> io::Result<()> {
    let (name, _file) = new_beside(rt, path)?;
    fs::remove_file(rt, name.as_str())
}

/// Gives a file the name of another one, and has the system keep that where it can: from then on the name has the new bytes.
fn move_over<R: Files>(rt: &R, name: &str, path: &str) -> io::Result<()> {
    fs::rename(rt, name, path)?;
    if let Ok(folder) = open_folder(rt, path) {
        let _ = folder.sync_all();
    }
    Ok(())
}

/// Puts a file in the place of the one that a name has, if it has one, whole or not at all. Where the call fails, that one stays,
/// and nothing is left of the new one. What the system's files hold is in no clause.
pub fn put_over<R: Files + AllocGlobal>(rt: &R, path: &str, bytes: &[u8]) -> io::Result<()> {
    let (name, mut file) = new_beside(rt, path)?;
    let put = fill(&mut file, bytes).and_then(|()| move_over(rt, name.as_str(), path));
    if put.is_err() {
        let _ = fs::remove_file(rt, name.as_str());
    }
    put
}
