//! The lines of the standard input, as they come.
ghost use Rattle.std.specs.Prelude.{◌≡◌, ◌≤◌, None};
ghost use Rattle.live_shell.specs.declared.feed.Fed.TheVariants as fed;
ghost use Rattle.live_shell.specs.Feeds.{FeedCause};

use libc::net::{POLLIN, POLLNVAL, poll};
use libc::types::pollfd;
use line_pieces::LinePieces;
use live_shell::{Fed, Feed};
use std::alloc::Global;
use std::io::{ErrorKind, Input, Read};
use std::time::Duration;
use std::{rt, thread};
use tea_base::{Blob, WantOfMemory};

/// How many bytes are read at a time.
const ROOM: usize = 65_536;

/// The descriptor of the standard input.
const STANDARD_INPUT: i32 = 0;

/// The pause before another link is made, in seconds.
const PAUSE: u64 = 1;

/// What a look at the standard input gives.
#[derive(Clone, Copy)]
enum Look {
    /// Nothing has come.
    Nothing,
    /// So many bytes came.
    Bytes(usize),
    /// No byte will come.
    End,
    Failed,
    WantOfMemory,
}

/// The lines of the standard input. LF ends a line, and a CR before it is dropped; the last line may lack it. Nothing is waited for: where no line
/// has come whole, `next` says so at once. Of a line that has more than 65,537 bytes the first 65,537 are told.
///
/// It reads only where poll(2) says that a read does not wait, so it may stop in the midst of a line, whose rest comes with a later look.
#[derive(Drop)]
pub struct SystemFeed<'a, R> {
    rt: &'a R,
    /// What was read last: the bytes from `taken` to `end` are still to be taken.
    room: Vec<u8>,
    taken: usize,
    end: usize,
    pieces: LinePieces,
    /// No byte will come.
    ended: bool,
    /// The standard input was open when the feed was made. Else its number may be that of something else later.
    is_open: bool,
    faults: u64,
}

/// What poll(2) reports of the standard input at once; 0 where it has nothing to report.
fn reported() -> i16 {
    let mut asked = [pollfd {
        fd: STANDARD_INPUT,
        events: POLLIN,
        revents: 0,
    }];
    if poll(&mut asked, 0) < 1 {
        return 0;
    }
    asked[0].revents
}

/// Reads what has come, where something has.
fn read_some<R: Input>(rt: &R, room: &mut [u8]) -> Look {
    if reported() == 0 {
        return Look::Nothing;
    }
    match rt.reader().read(room) {
        Ok(0) => Look::End,
        Ok(count) => Look::Bytes(count),
        Err(error) => match error.kind() {
            ErrorKind::Interrupted | ErrorKind::WouldBlock => Look::Nothing,
            ErrorKind::OutOfMemory => Look::WantOfMemory,
            _ => Look::Failed,
        },
    }
}

impl<'a, R: Input + rt::Clock + AllocGlobal> SystemFeed<'a, R> {
    /// A feed of what is still to come.
    pub fn new(rt: &'a R) -> Result<SystemFeed<'a, R>, WantOfMemory> {
        Ok(SystemFeed {
            rt,
            room: vec![in rt.alloc(); 0u8; ROOM]?,
            taken: 0,
            end: 0,
            pieces: LinePieces::new(rt.alloc()),
            ended: false,
            is_open: reported() & POLLNVAL == 0,
            faults: 0,
        })
    }
}

impl<R> SystemFeed<'_, R> {
    /// The next line of what was read, if one ends in it. What is left of it then is the beginning of a line.
    fn line(&mut self) -> Result<Option<Blob>, WantOfMemory>
        ensures faults { self.new.faults ≡ self.old.faults }
    {
        let end = self.end.min(self.room.len());
        let from = self.taken.min(end);
        let taken = self.pieces.take(&self.room[from..end])?;
        self.taken = from.saturating_add(taken.count);
        Ok(taken.line)
    }

    /// The line that no LF ends, and then that no line will come.
    fn last(&mut self) -> Fed
        ensures faults { self.new.faults ≡ self.old.faults }
        ensures cause { FeedCause self.old.faults self.new.faults result }
    {
        if self.pieces.is_empty() {
            return Fed::Closed;
        }
        match self.pieces.last() {
            Ok(line) => Fed::Line(line),
            Err(WantOfMemory) => Fed::WantOfMemory,
        }
    }

    /// Counts a read that failed.
    fn fail(&mut self) -> Fed
        ensures later { self.old.faults ≤ self.new.faults }
        ensures cause { FeedCause self.old.faults self.new.faults result }
    {
        self.faults = self.faults.saturating_add(1);
        Fed::Failed
    }

    /// What was read holds a line, or none.
    fn after_look(&mut self, count: usize) -> Fed
        ensures faults { self.new.faults ≡ self.old.faults }
        ensures cause { FeedCause self.old.faults self.new.faults result }
    {
        self.taken = 0;
        self.end = count;
        match self.line() {
            Ok(Some(line)) => Fed::Line(line),
            Ok(None) => Fed::Nothing,
            Err(WantOfMemory) => Fed::WantOfMemory,
        }
    }
}

impl<R: Input> SystemFeed<'_, R> {
    /// Looks whether something has come.
    fn look(&mut self) -> Fed
        ensures later { self.old.faults ≤ self.new.faults }
        ensures cause { FeedCause self.old.faults self.new.faults result }
    {
        if !self.is_open {
            return self.fail();
        }
        match read_some(self.rt, &mut self.room) {
            Look::Nothing => Fed::Nothing,
            Look::Bytes(count) => self.after_look(count),
            Look::End => {
                self.ended = true;
                self.last()
            }
            Look::Failed => self.fail(),
            Look::WantOfMemory => Fed::WantOfMemory,
        }
    }
}

impl<R: Input + rt::Clock> Feed for SystemFeed<'_, R> {
    ghost coming = { λ feed. None };

    ghost told = { λ feed. None };

    ghost faults = { λ feed. feed.faults };

    fn next(&mut self) -> Fed {
        match self.line() {
            Ok(Some(line)) => return Fed::Line(line),
            Ok(None) => {}
            Err(WantOfMemory) => return Fed::WantOfMemory,
        }
        if self.ended {
            return self.last();
        }
        self.look()
    }

    fn pause(&mut self) {
        let _ = thread::sleep(self.rt, Duration::from_secs(PAUSE));
    }
}
