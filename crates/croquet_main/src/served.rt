//! Which session a run serves or joins, as its files are read, and what ends a service.
use command_outcome::read_program;
use command_words::{Command, ServingSpan, read_command};
use model_solved::Checked;
use model_value::Value;
use persist_json::from_json;
use run_notes::WorldWatch;
use snapshot_codec::session_id;
use std::alloc::Global;
use std::sync::OnceLock;
use tea_base::{Blob, SessionId, Text, Words};

/// The longest name of a session, in bytes of UTF-8.
const MOST_NAME: usize = 255;

/// What ends a service.
#[derive(Drop)]
pub enum ServiceEnd {
    /// The command is none, or memory is short.
    Unknown,
    /// Nothing but a kill.
    Kill {
        /// Whether a journal keeps what was told until then.
        is_kept: bool,
    },
    /// This file.
    File(Text),
}

impl ServiceEnd {
    /// That of a reflector or a host which serves so long, and keeps a journal or does not.
    fn of(span: &ServingSpan, is_kept: bool) -> ServiceEnd {
        let ServingSpan::Posts { until, .. } = span else {
            return ServiceEnd::Unknown;
        };
        match until {
            None => ServiceEnd::Kill { is_kept },
            Some(file) => match file.try_clone() {
                Ok(file) => ServiceEnd::File(file),
                Err(_) => ServiceEnd::Unknown,
            },
        }
    }
}

/// The session that `reflect` serves or `join` takes part in: its name from the words, and its program and its persisted value once they were read. Of a
/// service, what ends it.
#[derive(Drop)]
pub struct Served {
    alloc: Global,
    name: Option<Text>,
    /// The number of the view that takes part, 0 of a reflector.
    view: u32,
    /// The file of the persisted value, where it has one.
    persisted: Option<Text>,
    /// The program's text.
    text: OnceLock<Blob>,
    /// The JSON of the persisted value.
    json: OnceLock<Blob>,
    end: ServiceEnd,
}

impl Served {
    /// The session of these words. Those of another command serve none. Where memory is short, none is known.
    pub fn of(alloc: Global, words: &Words) -> Served {
        match read_command(alloc, words) {
            Ok(Some(command)) => Served::in_command(alloc, &command),
            _ => Served::named(alloc, None, None, 0),
        }
    }

    fn in_command(alloc: Global, command: &Command) -> Served {
        match command {
            Command::Reflect(request) => Served {
                end: ServiceEnd::of(&request.span, request.journal.is_some()),
                ..Served::named(alloc, Some(&request.name), request.persisted.as_ref(), 0)
            },
            Command::Join(request) => {
                let persisted = request.persisted.as_ref();
                Served::named(alloc, Some(&request.name), persisted, request.view)
            }
            Command::Live(request) => {
                let persisted = request.persisted.as_ref();
                Served::named(alloc, Some(&request.name), persisted, request.view)
            }
            Command::Host(request) => Served {
                end: ServiceEnd::of(&request.span, false),
                ..Served::named(alloc, None, None, 0)
            },
            _ => Served::named(alloc, None, None, 0),
        }
    }

    /// What ends the service.
    pub fn end(&self) -> &ServiceEnd {
        &self.end
    }

    /// A session of this name and with the persisted value of this file, of which nothing was read yet.
    pub fn named(
        alloc: Global,
        name: Option<&Text>,
        persisted: Option<&Text>,
        view: u32,
    ) -> Served {
        let is_known = match persisted {
            Some(persisted) => persisted.try_clone().is_ok(),
            None => true,
        };
        Served {
            alloc,
            name: if is_known { owned(name) } else { None },
            view,
            persisted: owned(persisted),
            text: OnceLock::new(),
            json: OnceLock::new(),
            end: ServiceEnd::Unknown,
        }
    }

    /// A file was read. The first one is the program.
    pub fn note_read(&self, name: &Text, bytes: &[u8]) {
        if self.name.is_none() {
            return;
        }
        if self.text.get().is_none() {
            keep(self.alloc, &self.text, bytes);
            return;
        }
        match &self.persisted {
            Some(persisted) if persisted.is_text(name) => keep(self.alloc, &self.json, bytes),
            _ => {}
        }
    }

    /// The id, once all that it is made from was read.
    pub fn id(&self) -> Option<SessionId> {
        let name = self.name.as_ref()?;
        if name.bytes().len() > MOST_NAME {
            return None;
        }
        let text = self.text.get()?.bytes();
        if self.persisted.is_none() {
            return Some(session_id(name, text, &Value::Nil));
        }
        match from_json(self.alloc, self.json.get()?.bytes()) {
            Ok(value) => Some(session_id(name, text, &value)),
            Err(_) => None,
        }
    }

    /// The program with its persisted value, where it has no fault.
    pub fn program(&self) -> Option<Checked> {
        let Ok(program) = read_program(self.alloc, self.text.get()?.bytes()) else {
            return None;
        };
        if self.persisted.is_none() {
            return Some(program);
        }
        match from_json(self.alloc, self.json.get()?.bytes()) {
            Ok(value) => Some(program.with_persisted(value)),
            Err(_) => None,
        }
    }

    /// What follows the world of the view that takes part, once all that it is made from was read.
    pub fn watch(&self) -> Option<WorldWatch> {
        if self.view == 0 {
            return None;
        }
        let (id, program) = (self.id()?, self.program()?);
        WorldWatch::new(self.alloc, program, id, self.view).ok()
    }
}

/// The same text in memory of its own.
pub fn owned(text: Option<&Text>) -> Option<Text> {
    text?.try_clone().ok()
}

/// Keeps a file's bytes, where none are kept there. Where memory is short, none are.
pub fn keep(alloc: Global, place: &OnceLock<Blob>, bytes: &[u8]) {
    if place.get().is_none() {
        if let Ok(bytes) = Blob::copy(alloc, bytes) {
            let _ = place.try_set(bytes);
        }
    }
}
