//! The hint that a person gets on the error stream when a run has ended.
ghost use Rattle.std.specs.Prelude.{◌≡◌};

use crate::progress::Progress;
use crate::system::{Found, read_within};
use hints::{Ended, Given, files_looked_at, hint};
use std::alloc::Global;
use std::env::Env;
use std::io::Eprint;
use std::time::Clock;
use std::{fs, rt};
use tea_base::{Blob, Text, WantOfMemory, Words};
use tea_io::{Sink, SinkFault};

/// The longest line that is kept, in bytes. No line of a fault is longer.
const LONGEST_LINE: usize = 128;

/// The most bytes of a file that is read again: those of a log.
const MOST_BYTES: u64 = 268_435_456;

/// A sink that keeps the last line that was written, where it is short. The line of long work is taken away before anything is written.
#[derive(Drop)]
pub struct NotedSink<'a, R, W> {
    rt: &'a R,
    sink: W,
    progress: &'a Progress,
    line: Option<Blob>,
}

impl<'a, R, W: Sink> NotedSink<'a, R, W> {
    /// Over this sink, to which nothing was written yet.
    pub fn new(rt: &'a R, sink: W, progress: &'a Progress) -> NotedSink<'a, R, W>
        ensures { result.sink ≡ sink }
    {
        NotedSink {
            rt,
            sink,
            progress,
            line: None,
        }
    }

    /// Takes out what was written last, where it is short.
    pub fn take_line(&mut self) -> Option<Blob> {
        self.line.take()
    }
}

impl<R: Eprint + Clock + AllocGlobal, W: Sink> Sink for NotedSink<'_, R, W> {
    ghost written = { λ noted. W.written noted.sink };

    ghost faults = { λ noted. W.faults noted.sink };

    ghost wants = { λ noted. W.wants noted.sink };

    fn write(&mut self, bytes: &[u8]) -> Result<(), SinkFault> {
        self.progress.end(self.rt);
        self.line = if bytes.len() <= LONGEST_LINE {
            Blob::copy(self.rt.alloc(), bytes).ok()
        } else {
            None
        };
        self.sink.write(bytes)
    }
}

/// Whether the environment asks to be left alone.
pub fn is_quiet<R: Env>(rt: &R) -> bool {
    let mut room = [0u8; 2];
    match rt.var("CROQUET_QUIET", &mut room) {
        Ok(len) => len == 1 && room[0] == b'1',
        Err(_) => false,
    }
}

/// The bytes of a plain file. What is none, as a pipe, is not read a second time.
fn read_again<R: rt::Files + AllocGlobal>(rt: &R, name: &Text) -> Given {
    let path = name.as_str();
    match fs::metadata(rt, path) {
        Ok(found) if found.is_file() => {}
        _ => return None,
    }
    match read_within(rt, path, MOST_BYTES) {
        Ok(Found::Bytes(bytes)) => Some(Blob::from_vec(bytes)),
        _ => None,
    }
}

/// The hint on a run, once the files that it speaks of were read again.
fn hint_of<R: rt::Files + AllocGlobal>(
    rt: &R,
    words: &Words,
    ended: &Ended,
) -> Result<String, WantOfMemory> {
    let alloc = rt.alloc();
    let names = files_looked_at(alloc, words, ended.status, ended.line())?;
    let mut files: Vec<Given> = Vec::new(alloc);
    for name in names.as_slice() {
        files.push(read_again(rt, name))?;
    }
    hint(alloc, words, ended, &files)
}

/// Says on the error stream what is wrong with a run of these words, where something is. What cannot be said is no fault.
pub fn say_hint<R: rt::Files + Eprint + AllocGlobal>(rt: &R, words: &Words, ended: &Ended) {
    if ended.status == 0 {
        return;
    }
    if let Ok(text) = hint_of(rt, words, ended) {
        let _ = eprint!(rt; "{text}");
    }
}
