//! Files in memory.
ghost use Rattle.std.specs.Prelude.{◌≡◌, ◌≢◌, ◌≤◌, ℕ, List, [], length, map, Some, Err};
ghost use Rattle.std.specs.Prelude.{IfOk, IfErr, OnOk, OnErr, AllPairs};
ghost use Rattle.std.specs.Option.{option_copied};
ghost use Rattle.tea_io.specs.declared.files.FileCall.TheVariants.{Look, Read, Write};
ghost use Rattle.tea_io.specs.Told.{Rose};
ghost use Rattle.tea_io.specs.Files.{MayBe, IsTooLargeFor, IsNotTooLarge, Holds, AsksFiles, FileCause, FileWant};
ghost use Rattle.tea_io.specs.MemFiles.{bytes_of, content_of, within_limit, with_file, files_with_call};
ghost use Rattle.tea_io.specs.MemFiles.{files_with_failure, files_after, files_counting, files_tried, read_answer, write_answer, IsAnswer};

use crate::calls::is_failing;
use crate::files::{FileCall, FileFault, Files};
use std::alloc::Global;
use std::marker::Model;
use tea_base::{Blob, List, Numbers, Text, WantOfMemory};

/// A file's name and its bytes.
#[derive(Debug, Drop)]
pub struct NamedBlob {
    pub name: Text,
    pub bytes: Blob,
}

/// Files in order.
pub type NamedBlobs = List<NamedBlob>;

/// Files that are kept in memory. The calls whose numbers it was given fail, and so does a read of
/// a name that is not held. They are counted from 1. A call that is out of memory changes nothing but
/// the count of such calls.
#[derive(Drop)]
pub struct MemFiles {
    alloc: Global,
    held: Vec<NamedBlob>,
    asked: Vec<FileCall>,
    failing: Numbers,
    next_call: u64,
    faults: u64,
    wants: u64,
}

impl Model for MemFiles {
    ghost use Rattle.tea_io.specs.MemFiles.{MemFilesState};

    ghost Value = { MemFilesState };

    ghost view = { λ files. record {
      held = files.held.items;
      asked = files.asked.items;
      failing = files.failing;
      next_call = files.next_call;
      faults = files.faults;
      wants = files.wants;
    } };
}

impl MemFiles {
    /// Files with these names and bytes, whose calls of these numbers fail. Takes no memory.
    pub fn new(alloc: Global, held: NamedBlobs, fail: Numbers) -> MemFiles
        requires distinct { AllPairs (λ a b. a ≢ b) (map (λ file. file.name) held) }
        ensures held { result.held ≡ held }
        ensures asked { result.asked ≡ [] }
        ensures failing { result.failing ≡ fail }
        ensures first { result.next_call ≡ 1 }
        ensures faults { result.faults ≡ 0 }
        ensures wants { result.wants ≡ 0 }
    {
        MemFiles {
            alloc,
            held: held.into_vec(),
            asked: Vec::new(alloc),
            failing: fail,
            next_call: 1,
            faults: 0,
            wants: 0,
        }
    }

    /// The bytes that are held under a name, if there are any. This is no call that can fail.
    pub fn get(&self, name: &Text) -> Option<&Blob>
        ensures { option_copied result ≡ bytes_of self.now.held name.now }
    {
        find(&self.held, name)
    }

    /// The calls so far that could fail, in order.
    pub fn asked(&self) -> &[FileCall]
        ensures { result.now ≡ self.now.asked }
    {
        self.asked.as_slice()
    }

    /// What a read answers.
    fn answer(&self, name: &Text, limit: u64) -> Result<Blob, FileFault>
        ensures { IsAnswer (read_answer self.now name.now limit) result }
    {
        if is_failing(self.failing.as_slice(), self.next_call) {
            return Err(FileFault::Failed);
        }
        read_within(self.alloc, find(&self.held, name), limit)
    }

    /// Notes and counts a call.
    fn note(&mut self, call: FileCall) -> Result<(), WantOfMemory>
        ensures ok { OnOk result (self.new ≡ files_with_call self.old call) }
        ensures err { OnErr result (self.new ≡ self.old) }
    {
        self.asked.push(call)?;
        self.next_call = self.next_call.saturating_add(1);
        Ok(())
    }

    /// Notes and counts a call that fails, and its fault.
    fn note_failed(&mut self, call: FileCall) -> Result<(), WantOfMemory>
        ensures ok { OnOk result (self.new ≡ files_with_failure self.old call) }
        ensures later { self.old.faults ≤ self.new.faults }
        ensures err { OnErr result (self.new ≡ self.old) }
    {
        self.note(call)?;
        self.faults = self.faults.saturating_add(1);
        Ok(())
    }

    /// Counts a call that was out of memory.
    fn counted(&mut self, fault: FileFault) -> FileFault
        ensures same { result ≡ fault }
        ensures counts { self.new ≡ files_counting fault self.old }
        ensures later { self.old.wants ≤ self.new.wants }
        ensures want { fault ≡ FileFault.WantOfMemory → Rose self.old.wants self.new.wants }
    {
        if fault == FileFault::WantOfMemory {
            self.wants = self.wants.saturating_add(1);
        }
        fault
    }

    /// Reads, and notes and counts the call, but not that it was out of memory.
    fn try_read(&mut self, name: &Text, limit: u64) -> Result<Blob, FileFault>
        ensures answer { IsAnswer (read_answer self.old name.now limit) result }
        ensures leaves { self.new ≡ files_tried result self.old (Read name.now) self.old.held }
        ensures later { self.old.faults ≤ self.new.faults }
        ensures wants { self.new.wants ≡ self.old.wants }
    {
        let call = FileCall::Read(name.try_clone()?);
        match self.answer(name, limit) {
            Ok(blob) => {
                self.note(call)?;
                Ok(blob)
            }
            Err(FileFault::TooLarge { len }) => {
                self.note(call)?;
                Err(FileFault::TooLarge { len })
            }
            Err(FileFault::Failed) => {
                self.note_failed(call)?;
                Err(FileFault::Failed)
            }
            Err(FileFault::WantOfMemory) => Err(FileFault::WantOfMemory),
        }
    }

    /// Writes, and notes and counts the call, but not that it was out of memory.
    fn try_write(&mut self, name: &Text, bytes: &[u8]) -> Result<(), FileFault>
        ensures answer { IsAnswer (write_answer self.old) result }
        ensures leaves { self.new
            ≡ files_tried result self.old (Write name.now) (with_file name.now bytes.now self.old.held) }
        ensures later { self.old.faults ≤ self.new.faults }
        ensures wants { self.new.wants ≡ self.old.wants }
    {
        let call = FileCall::Write(name.try_clone()?);
        if is_failing(self.failing.as_slice(), self.next_call) {
            self.note_failed(call)?;
            return Err(FileFault::Failed);
        }
        let file = NamedBlob {
            name: name.try_clone()?,
            bytes: Blob::copy(self.alloc, bytes)?,
        };
        // Room for the note comes first: once the file is in, nothing is refused.
        if self.asked.reserve(1).is_err() || self.held.insert(0, file).is_err() {
            return Err(FileFault::WantOfMemory);
        }
        self.asked.push_reserved(call);
        self.next_call = self.next_call.saturating_add(1);
        Ok(())
    }

    /// Looks, and notes and counts the call, but not that it was out of memory.
    fn try_look(&mut self, name: &Text) -> Result<(), FileFault>
        ensures answer { IsAnswer (write_answer self.old) result }
        ensures leaves { self.new ≡ files_tried result self.old (Look name.now) self.old.held }
        ensures later { self.old.faults ≤ self.new.faults }
        ensures wants { self.new.wants ≡ self.old.wants }
    {
        let call = FileCall::Look(name.try_clone()?);
        if is_failing(self.failing.as_slice(), self.next_call) {
            self.note_failed(call)?;
            return Err(FileFault::Failed);
        }
        self.note(call)?;
        Ok(())
    }
}

impl Files for MemFiles {
    ghost held = { content_of };

    ghost asked = { λ files. Some files.asked };

    ghost faults = { λ files. files.faults };

    ghost wants = { λ files. files.wants };

    fn read(&mut self, name: &Text, limit: u64) -> Result<Blob, FileFault>
        ensures given { IfOk result (MayBe (content_of self.old name.now)) }
        ensures within { IfOk result (λ blob. length blob ≤ limit) }
        ensures too_large { IfErr result (IsTooLargeFor (content_of self.old name.now) limit) }
        ensures same { (other : List ℕ) → content_of self.new other ≡ content_of self.old other }
        ensures asked { AsksFiles (Some self.old.asked) (Some self.new.asked) (Read name.now) result }
        ensures cause { FileCause self.old.faults self.new.faults result }
        ensures want { FileWant self.old.wants self.new.wants result }

        // What it answers but for want of memory, and all that it leaves.
        ensures answer { IsAnswer (read_answer self.old name.now limit) result }
        ensures leaves { self.new ≡ files_after result self.old (Read name.now) self.old.held }
    {
        match self.try_read(name, limit) {
            Ok(blob) => Ok(blob),
            Err(fault) => Err(self.counted(fault)),
        }
    }

    fn write(&mut self, name: &Text, bytes: &[u8]) -> Result<(), FileFault>
        ensures put { OnOk result
            (Holds (content_of self.old name.now) (content_of self.new name.now) bytes.now) }
        ensures others { (other : List ℕ) → other ≢ name.now
            → content_of self.new other ≡ content_of self.old other }
        ensures refused { result ≡ Err FileFault.WantOfMemory
            → content_of self.new name.now ≡ content_of self.old name.now }
        ensures no_limit { IfErr result IsNotTooLarge }
        ensures asked { AsksFiles (Some self.old.asked) (Some self.new.asked) (Write name.now) result }
        ensures cause { FileCause self.old.faults self.new.faults result }
        ensures want { FileWant self.old.wants self.new.wants result }

        // What it answers but for want of memory, and all that it leaves.
        ensures answer { IsAnswer (write_answer self.old) result }
        ensures leaves { self.new
            ≡ files_after result self.old (Write name.now) (with_file name.now bytes.now self.old.held) }
    {
        match self.try_write(name, bytes) {
            Ok(()) => Ok(()),
            Err(fault) => Err(self.counted(fault)),
        }
    }

    fn look(&mut self, name: &Text) -> Result<(), FileFault>
        ensures same { (other : List ℕ) → content_of self.new other ≡ content_of self.old other }
        ensures no_limit { IfErr result IsNotTooLarge }
        ensures asked { AsksFiles (Some self.old.asked) (Some self.new.asked) (Look name.now) result }
        ensures cause { FileCause self.old.faults self.new.faults result }
        ensures want { FileWant self.old.wants self.new.wants result }

        // What it answers but for want of memory, and all that it leaves.
        ensures answer { IsAnswer (write_answer self.old) result }
        ensures leaves { self.new ≡ files_after result self.old (Look name.now) self.old.held }
    {
        match self.try_look(name) {
            Ok(()) => Ok(()),
            Err(fault) => Err(self.counted(fault)),
        }
    }
}

/// The bytes of the first file of this name.
fn find<'a>(files: &'a [NamedBlob], name: &Text) -> Option<&'a Blob>
    ensures { option_copied result ≡ bytes_of files.now name.now }
{
    for file in files {
        if file.name.is_text(name) {
            return Some(&file.bytes);
        }
    }
    None
}

/// A copy of the bytes that were found, if there are at most `limit`.
fn read_within(alloc: Global, found: Option<&Blob>, limit: u64) -> Result<Blob, FileFault>
    ensures { IsAnswer (within_limit (option_copied found.entry) limit) result }
{
    let Some(blob) = found else {
        return Err(FileFault::Failed);
    };
    let len = blob.len() as u64;
    if len > limit {
        return Err(FileFault::TooLarge { len });
    }
    Ok(Blob::copy(alloc, blob.bytes())?)
}
