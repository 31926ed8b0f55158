//! The stores, and the one that was opened.
use crate::step::{Act, Step};
use file_store::{FileStore, FileStores};
use std::alloc::{AllocError, Global};
use std::fs::File;
use std::rt::Files;
use store_io::{Opened, Store, StoreFault, Stores};
use tea_base::{Blob, Text};

/// A store that was opened, and its name.
#[derive(Drop)]
struct Out {
    name: Text,
    store: FileStore,
}

/// The system's files, and the store that was opened last.
#[derive(Drop)]
pub(crate) struct Bench<'a, R> {
    alloc: Global,
    stores: FileStores<'a, R>,
    out: Option<Out>,
}

impl<'a, R: Files<File = File> + AllocGlobal> Bench<'a, R> {
    /// No store is opened yet.
    pub(crate) fn new(rt: &'a R) -> Bench<'a, R> {
        Bench {
            alloc: rt.alloc(),
            stores: FileStores::new(rt),
            out: None,
        }
    }

    /// Does a step, and says what it answered.
    pub(crate) fn take(&mut self, step: Step) -> Result<String, AllocError> {
        match step {
            Step::Found { name, bytes } => {
                told(self.alloc, self.stores.found(&name, bytes.as_slice()))
            }
            Step::Open { name, limit } => self.open(name, limit),
            Step::Act(act) => self.act(&act),
            Step::Back => self.back(),
            Step::Unread => String::from_str(self.alloc, "no step"),
        }
    }

    fn open(&mut self, name: Text, limit: u64) -> Result<String, AllocError> {
        match self.stores.open(&name, limit) {
            Ok(Opened::Absent) => String::from_str(self.alloc, "absent"),
            Ok(Opened::TooLarge { len }) => format!(in self.alloc; "too large {len}"),
            Ok(Opened::There { store, bytes }) => {
                self.out = Some(Out { name, store });
                there(self.alloc, &bytes)
            }
            Err(fault) => told(self.alloc, Err(fault)),
        }
    }

    fn act(&mut self, act: &Act) -> Result<String, AllocError> {
        match &mut self.out {
            Some(out) => told(self.alloc, done(&mut out.store, act)),
            None => String::from_str(self.alloc, "no step"),
        }
    }

    fn back(&mut self) -> Result<String, AllocError> {
        match self.out.take() {
            Some(Out { name, store }) => {
                self.stores.back(&name, store);
                told(self.alloc, Ok(()))
            }
            None => String::from_str(self.alloc, "no step"),
        }
    }
}

fn done(store: &mut FileStore, act: &Act) -> Result<(), StoreFault> {
    match act {
        Act::Append(piece) => store.append(piece.as_slice()),
        Act::Sync => store.sync(),
        Act::Cut(len) => store.cut(*len),
    }
}

fn there(alloc: Global, bytes: &Blob) -> Result<String, AllocError> {
    let digits = hex::encode(alloc, bytes.bytes())?;
    format!(in alloc; "there {}", digits.as_str())
}

fn told(alloc: Global, done: Result<(), StoreFault>) -> Result<String, AllocError> {
    let word = match done {
        Ok(()) => "done",
        Err(StoreFault::Failed) => "failed",
        Err(StoreFault::WantOfMemory) => "memory",
    };
    String::from_str(alloc, word)
}
