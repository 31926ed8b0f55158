//! A run of the program over files and an output in memory.
use crate::faults::Faults;
use crate::feed::no_feed;
use crate::stores::stores_of;
use case_lines::{WantingFiles, WantingSink};
use croquet::{Status, croquet};
use net_shares::{MemSharedNet, MemSigns, SharePlans};
use std::alloc::Global;
use std::sync::Wait;
use std::thread::Threads;
use store_io::MemStores;
use tea_base::{Blob, Numbers, Text, WantOfMemory, Words};
use tea_io::{Files, FixedClock, MemFiles, MemLinks, NamedBlob, NamedBlobs, OpenGate};

/// What a run is given: its words, and the files that it finds.
#[derive(Drop)]
pub(crate) struct Given {
    alloc: Global,
    words: Words,
    files: NamedBlobs,
}

/// What a run came to.
#[derive(Drop)]
pub(crate) struct Run {
    pub(crate) status: Status,
    pub(crate) text: Blob,
    files: MemFiles,
    stores: MemStores,
}

impl Given {
    /// No word and no file.
    pub(crate) fn new(alloc: Global) -> Given {
        Given {
            alloc,
            words: Words::new(alloc),
            files: NamedBlobs::new(alloc),
        }
    }

    /// Adds words that are divided by blanks.
    pub(crate) fn add_words(&mut self, words: &str) -> Result<(), WantOfMemory> {
        for word in words.split(' ') {
            self.words.push(Text::copy(self.alloc, word)?)?;
        }
        Ok(())
    }

    /// Adds a file that holds these bytes.
    pub(crate) fn add_file(&mut self, name: &str, bytes: &[u8]) -> Result<(), WantOfMemory> {
        self.files.push(NamedBlob {
            name: Text::copy(self.alloc, name)?,
            bytes: Blob::copy(self.alloc, bytes)?,
        })
    }

    /// Files that hold what is given, of which one call fails, counted from behind the writes that put them there.
    fn files(&self, faults: Faults) -> Result<MemFiles, WantOfMemory> {
        let writes = u32::try_from(self.files.len()).unwrap_or(u32::MAX);
        let failing = faults.failing_file_behind(writes);
        let failing = Numbers::from_vec(vec![in self.alloc; failing]?);
        let mut files = MemFiles::new(self.alloc, NamedBlobs::new(self.alloc), failing);
        for file in self.files.as_slice() {
            match files.write(&file.name, file.bytes.bytes()) {
                Ok(()) => {}
                Err(_) => return Err(WantOfMemory),
            }
        }
        Ok(files)
    }

    /// Runs the words over the files, and over no net.
    pub(crate) fn run<R: Threads + Wait + Sync>(
        &self,
        rt: &R,
        faults: Faults,
    ) -> Result<Run, WantOfMemory> {
        let mut files = WantingFiles {
            wants: 0,
            files: self.files(faults)?,
            calls: 0,
            wanting: faults.wanting_file,
        };
        let mut stores = stores_of(self.alloc, faults)?;
        let mut output = faults.output(self.alloc)?;
        let (_net, status) = croquet(
            rt,
            self.alloc,
            &self.words,
            &mut files,
            &mut stores,
            &mut no_feed(self.alloc),
            &FixedClock { at: 0 },
            no_net(self.alloc)?,
            &OpenGate,
            &MemSigns {
                names: Words::new(self.alloc),
            },
            &mut output,
        );
        let WantingSink { out, .. } = output;
        let WantingFiles { files, .. } = files;
        Ok(Run {
            status,
            text: out.into_bytes(),
            files,
            stores,
        })
    }
}

/// A net whose first call fails. A command whose net has failed makes no other call.
fn no_net(alloc: Global) -> Result<MemSharedNet, WantOfMemory> {
    let failing = Numbers::from_vec(vec![in alloc; 1]?);
    Ok(MemSharedNet::new(alloc, MemLinks::new(alloc), SharePlans::new(alloc), failing))
}

impl Run {
    /// The bytes of a file afterwards, if it is there.
    pub(crate) fn file(&self, alloc: Global, name: &str) -> Result<Option<Blob>, WantOfMemory> {
        match self.files.get(&Text::copy(alloc, name)?) {
            Some(bytes) => Ok(Some(bytes.clone()?)),
            None => Ok(None),
        }
    }

    /// The bytes of a journal afterwards, if it is there.
    pub(crate) fn journal(&self, alloc: Global, name: &str) -> Result<Option<Blob>, WantOfMemory> {
        match self.stores.get(&Text::copy(alloc, name)?) {
            Some(bytes) => Ok(Some(bytes.clone()?)),
            None => Ok(None),
        }
    }
}
