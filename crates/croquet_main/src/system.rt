//! The words, the files, the clock and the standard output of the system. They tell no content, only how often they failed.
ghost use Rattle.std.specs.Prelude.{◌≡◌, ◌≤◌, ◌^◌, None, IfOk, IfErr};
ghost use Rattle.tea_io.specs.declared.files.FileFault.TheVariants.{Failed};
ghost use Rattle.tea_io.specs.Files.{Untold, FileCause, FileWant};
ghost use Rattle.croquet_main.specs.System.{IsCounted, IsWithin};

use crate::progress::Progress;
use crate::served::Served;
use file_store::{look_beside, put_over};
use hints::FileFailure;
use std::env::{Env, FillError};
use std::fs::{self, File, OpenFile};
use std::io::{self, ErrorKind, Read, Write};
use std::rt;
use std::time::Instant;
use tea_base::{Blob, Text, TextFault, WantOfMemory, Words};
use tea_io::{Clock, FileFault, Files, Sink, SinkFault};

/// How many bytes a word may have before more room is made for it.
const WORD_ROOM: usize = 4096;

/// The word of the command line at an index, if there is one. One that is not UTF-8 is given as an empty word, which no
/// command takes.
fn given_word<R: Env + AllocGlobal>(rt: &R, index: usize) -> Result<Option<Text>, WantOfMemory> {
    let mut room = vec![in rt.alloc(); 0u8; WORD_ROOM]?;
    for _ in 0..usize::BITS {
        match rt.arg(index, &mut room) {
            Ok(len) => {
                return match Text::read(rt.alloc(), &room[..len]) {
                    Ok(word) => Ok(Some(word)),
                    Err(TextFault::NotUtf8) => Ok(Some(Text::copy(rt.alloc(), "")?)),
                    Err(TextFault::WantOfMemory) => Err(WantOfMemory),
                };
            }
            Err(FillError::NotPresent) => return Ok(None),
            Err(FillError::TooLong) => {
                let more = room.len().saturating_mul(2);
                room = vec![in rt.alloc(); 0u8; more]?;
            }
        }
    }
    Err(WantOfMemory)
}

/// The words after the program's name.
pub fn given_words<R: Env + AllocGlobal>(rt: &R) -> Result<Words, WantOfMemory> {
    let mut words = Words::new(rt.alloc());
    for index in 1..usize::MAX {
        match given_word(rt, index)? {
            Some(word) => words.push(word)?,
            None => break,
        }
    }
    Ok(words)
}

/// The files of the system. What is read is noted for the session that is served, and for the line of long work. What is written is put under its name whole, or not
/// at all, where that is the name of a plain file or of none, and its folder takes a new file.
#[derive(Drop)]
pub struct SystemFiles<'a, R> {
    rt: &'a R,
    served: &'a Served,
    progress: &'a Progress,
    counts: FileCounts,
    failure: Option<FileFailure>,
}

/// How often a call of files has failed, and how often one was out of memory.
#[derive(Clone, Copy)]
struct FileCounts {
    faults: u64,
    wants: u64,
    /// Why the last one failed.
    reason: Option<ErrorKind>,
}

impl<'a, R: rt::Files + AllocGlobal> SystemFiles<'a, R> {
    /// No call has failed yet.
    pub fn new(rt: &'a R, served: &'a Served, progress: &'a Progress) -> SystemFiles<'a, R>
        ensures faults { result.counts.faults ≡ 0 }
        ensures wants { result.counts.wants ≡ 0 }
    {
        SystemFiles {
            rt,
            served,
            progress,
            counts: FileCounts {
                faults: 0,
                wants: 0,
                reason: None,
            },
            failure: None,
        }
    }
}

impl<R> SystemFiles<'_, R> {
    /// Takes out the file of which a call failed last, and why.
    pub fn take_failure(&mut self) -> Option<FileFailure> {
        self.failure.take()
    }

    /// Notes the file of which a call has just failed.
    fn note_failure(&mut self, name: &Text, is_write: bool)
        ensures { self.new.counts ≡ self.old.counts }
    {
        if let (Ok(name), Some(reason)) = (name.try_clone(), self.counts.reason) {
            self.failure = Some(FileFailure {
                name,
                is_write,
                reason,
            });
        }
    }
}

/// Counts a failure.
fn count_failure(counts: &mut FileCounts) -> FileFault
    ensures failed { result ≡ Failed }
    ensures counted { IsCounted counts.old counts.new result }
{
    counts.faults = counts.faults.saturating_add(1);
    FileFault::Failed
}

/// Counts a call that failed; one that wanted memory is no failure.
fn count_fault(counts: &mut FileCounts, error: io::Error) -> FileFault
    ensures { IsCounted counts.old counts.new result }
{
    let reason = error.kind();
    counts.reason = Some(reason);
    if reason == ErrorKind::OutOfMemory {
        counts.wants = counts.wants.saturating_add(1);
        return FileFault::WantOfMemory;
    }
    count_failure(counts)
}

/// Whether a name is that of a plain file that may be written, or of none. What else it names is written in its place, as a device, a
/// pipe and a symbolic link, or refuses that.
fn is_replaced<R: rt::Files>(rt: &R, path: &str) -> bool {
    match fs::symlink_metadata(rt, path) {
        Ok(found) => found.is_file() && File::options().write(true).open(rt, path).is_ok(),
        Err(error) => error.kind() == ErrorKind::NotFound,
    }
}

/// Whether an error says that no new file can be made beside a name, or moved over it. The file itself may still be written.
fn is_of_folder(error: &io::Error) -> bool {
    matches!(
        error.kind(),
        ErrorKind::PermissionDenied
            | ErrorKind::ResourceBusy
            | ErrorKind::ReadOnlyFilesystem
            | ErrorKind::InvalidFilename
    )
}

/// Looks whether a file can be written in its place. Where there is none, one is made and removed again. Of what is neither a file
/// nor a folder, as a device and a pipe, nothing can be told before.
fn look_over<R: rt::Files>(rt: &R, path: &str) -> io::Result<()> {
    match fs::metadata(rt, path) {
        Ok(found) if found.is_file() || found.is_dir() => {
            File::options().write(true).open(rt, path)?;
            Ok(())
        }
        Ok(_) => Ok(()),
        Err(error) if error.kind() == ErrorKind::NotFound => match File::create_new(rt, path) {
            Ok(_) => fs::remove_file(rt, path),
            // a symbolic link to no file
            Err(error) if error.kind() == ErrorKind::AlreadyExists => Ok(()),
            Err(error) => Err(error),
        },
        Err(error) => Err(error),
    }
}

/// Looks whether a file can be put under a name, as `write` puts it.
fn look_for<R: rt::Files + AllocGlobal>(rt: &R, path: &str) -> io::Result<()> {
    if is_replaced(rt, path) {
        match look_beside(rt, path) {
            Ok(()) => return Ok(()),
            Err(error) if is_of_folder(&error) => {}
            Err(error) => return Err(error),
        }
    }
    look_over(rt, path)
}

/// Writes a file in its place. Each error is a failure: being out of memory would say that it still holds what it held.
fn write_over<R: rt::Files>(
    rt: &R,
    path: &str,
    bytes: &[u8],
    counts: &mut FileCounts,
) -> Result<(), FileFault>
    ensures failed { IfErr result (λ fault. fault ≡ Failed) }
    ensures cause { FileCause counts.old.faults counts.new.faults result }
    ensures want { FileWant counts.old.wants counts.new.wants result }
{
    let done = File::create(rt, path).and_then(|mut file| file.write_all(bytes));
    match done {
        Ok(()) => Ok(()),
        Err(error) => {
            counts.reason = Some(error.kind());
            Err(count_failure(counts))
        }
    }
}

/// What a file holds.
#[derive(Drop)]
pub(crate) enum Found {
    Bytes(Vec<u8>),
    /// It is longer than the limit.
    TooLong(u64),
}

/// The bytes of a file, of which no more are read than one beyond the limit: what is no plain file tells no length,
/// and may never end.
pub(crate) fn read_within<R: rt::Files + AllocGlobal>(
    rt: &R,
    path: &str,
    limit: u64,
) -> io::Result<Found>
    ensures { IfOk result (IsWithin limit) }
{
    let file = File::open(rt, path)?;
    let told = file.metadata()?;
    if told.is_file() && told.len() > limit {
        return Ok(Found::TooLong(told.len()));
    }
    let mut bytes = Vec::new(rt.alloc());
    file.take(limit.saturating_add(1)).read_to_end(&mut bytes)?;
    let len = bytes.len() as u64;
    if len > limit {
        return Ok(Found::TooLong(len));
    }
    Ok(Found::Bytes(bytes))
}

impl<R: rt::Files + AllocGlobal> Files for SystemFiles<'_, R> {
    ghost held = { λ files name. Untold };

    ghost asked = { λ files. None };

    ghost faults = { λ files. files.counts.faults };

    ghost wants = { λ files. files.counts.wants };

    fn read(&mut self, name: &Text, limit: u64) -> Result<Blob, FileFault> {
        match read_within(self.rt, name.as_str(), limit) {
            Ok(Found::Bytes(bytes)) => {
                self.served.note_read(name, bytes.as_slice());
                self.progress.note_read(name, bytes.as_slice());
                Ok(Blob::from_vec(bytes))
            }
            Ok(Found::TooLong(len)) => Err(FileFault::TooLarge { len }),
            Err(error) => {
                let fault = count_fault(&mut self.counts, error);
                self.note_failure(name, false);
                Err(fault)
            }
        }
    }

    fn write(&mut self, name: &Text, bytes: &[u8]) -> Result<(), FileFault> {
        let path = name.as_str();
        if is_replaced(self.rt, path) {
            match put_over(self.rt, path, bytes) {
                Ok(()) => return Ok(()),
                Err(error) if is_of_folder(&error) => {}
                Err(error) => {
                    let fault = count_fault(&mut self.counts, error);
                    self.note_failure(name, true);
                    return Err(fault);
                }
            }
        }
        let written = write_over(self.rt, path, bytes, &mut self.counts);
        if written.is_err() {
            self.note_failure(name, true);
        }
        written
    }

    fn look(&mut self, name: &Text) -> Result<(), FileFault> {
        match look_for(self.rt, name.as_str()) {
            Ok(()) => Ok(()),
            Err(error) => {
                let fault = count_fault(&mut self.counts, error);
                self.note_failure(name, true);
                Err(fault)
            }
        }
    }
}

/// The standard output of the system.
#[derive(Drop)]
pub struct Output<'a, R> {
    rt: &'a R,
    faults: u64,
    wants: u64,
}

impl<'a, R: Print> Output<'a, R> {
    /// No write has failed yet, or wanted memory.
    pub fn new(rt: &'a R) -> Output<'a, R>
        ensures faults { result.faults ≡ 0 }
        ensures wants { result.wants ≡ 0 }
    {
        Output {
            rt,
            faults: 0,
            wants: 0,
        }
    }
}

impl<R: Print> Sink for Output<'_, R> {
    ghost written = { λ out. None };

    ghost faults = { λ out. out.faults };

    ghost wants = { λ out. out.wants };

    fn write(&mut self, bytes: &[u8]) -> Result<(), SinkFault> {
        match io::writer(self.rt).write_all(bytes) {
            Ok(()) => Ok(()),
            Err(error) if error.kind() == ErrorKind::OutOfMemory => {
                self.wants = self.wants.saturating_add(1);
                Err(SinkFault::WantOfMemory)
            }
            Err(_) => {
                self.faults = self.faults.saturating_add(1);
                Err(SinkFault::Failed)
            }
        }
    }
}

/// The latest time that the clock gives, in microseconds: some 142 years.
const LATEST: u64 = 1 << 52;

/// The clock of the system. It counts microseconds from when it was made, up to 2^52, and gives 0 where the system's cannot be read.
#[derive(Drop)]
pub struct SystemClock<'a, R> {
    rt: &'a R,
    made: Option<Instant>,
}

impl<'a, R: rt::Clock> SystemClock<'a, R> {
    /// A clock that counts from now on.
    pub fn new(rt: &'a R) -> SystemClock<'a, R> {
        SystemClock {
            rt,
            made: Instant::now(rt).ok(),
        }
    }
}

impl<R: rt::Clock> Clock for SystemClock<'_, R> {
    ghost gives = { λ clock value. value ≤ 2 ^ 52 };

    fn now(&self) -> u64 {
        match (self.made, Instant::now(self.rt)) {
            (Some(made), Ok(now)) => {
                let since = now.saturating_duration_since(made).as_micros();
                u64::try_from(since).unwrap_or(LATEST).min(LATEST)
            }
            _ => 0,
        }
    }
}
