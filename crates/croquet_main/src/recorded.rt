//! The recorded session that a run reads, for a second run of it.
use crate::served::{Served, keep, owned};
use command_words::{Command, read_command};
use run_notes::{Recorded as Recording, Shadow};
use std::alloc::Global;
use std::sync::OnceLock;
use tea_base::{Blob, TIME_LIMIT, Text, Words};

/// The files of a recorded session.
#[derive(Clone, Copy)]
struct Source<'a> {
    name: &'a Text,
    persisted: Option<&'a Text>,
    log: &'a Text,
    /// The snapshot from which the run begins.
    from: Option<&'a Text>,
    /// The time up to which it goes.
    until: u64,
}

/// A recorded session, whose files are kept as they are read.
#[derive(Drop)]
pub struct Recorded {
    alloc: Global,
    session: Served,
    log: Text,
    from: Option<Text>,
    until: u64,
    /// The log's bytes.
    entries: OnceLock<Blob>,
    /// The snapshot's bytes.
    snapshot: OnceLock<Blob>,
}

/// What a command reads of a recorded session.
fn source_of(command: &Command) -> Option<Source<'_>> {
    match command {
        Command::Replay(request) => Some(Source {
            name: &request.name,
            persisted: request.persisted.as_ref(),
            log: &request.log,
            from: request.from.as_ref(),
            until: request.time,
        }),
        Command::Inspect(request) => Some(Source {
            name: &request.name,
            persisted: request.persisted.as_ref(),
            log: &request.log,
            from: None,
            until: TIME_LIMIT,
        }),
        Command::Trace(request) => Some(Source {
            name: &request.name,
            persisted: request.persisted.as_ref(),
            log: &request.log,
            from: None,
            until: request.to,
        }),
        _ => None,
    }
}

impl Recorded {
    /// The recorded session of these words, of which nothing was read yet. Where memory is short, none is known.
    pub fn of(alloc: Global, words: &Words) -> Option<Recorded> {
        match read_command(alloc, words) {
            Ok(Some(command)) => Recorded::in_command(alloc, &command),
            _ => None,
        }
    }

    fn in_command(alloc: Global, command: &Command) -> Option<Recorded> {
        let source = source_of(command)?;
        let log = source.log.try_clone().ok()?;
        Some(Recorded {
            alloc,
            session: Served::named(alloc, Some(source.name), source.persisted, 0),
            log,
            from: owned(source.from),
            until: source.until,
            entries: OnceLock::new(),
            snapshot: OnceLock::new(),
        })
    }

    /// A file was read. The first one is the program.
    pub fn note_read(&self, name: &Text, bytes: &[u8]) {
        self.session.note_read(name, bytes);
        if self.log.is_text(name) {
            keep(self.alloc, &self.entries, bytes);
        }
        match &self.from {
            Some(from) if from.is_text(name) => keep(self.alloc, &self.snapshot, bytes),
            _ => {}
        }
    }

    /// A second run of it, once all its files were read.
    pub fn shadow(&self) -> Option<Shadow> {
        let log = self.entries.get()?.bytes();
        let start = match &self.from {
            Some(_) => Some(self.snapshot.get()?.bytes()),
            None => None,
        };
        let recording = Recording {
            program: self.session.program()?,
            id: self.session.id()?,
            log,
            start,
            until: self.until,
        };
        match Shadow::of(self.alloc, recording) {
            Ok(shadow) => shadow,
            Err(_) => None,
        }
    }
}
