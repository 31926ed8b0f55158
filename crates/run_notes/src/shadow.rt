//! A second run of a recorded session, which goes step by step, so that what it has done can be counted.
use crate::worlds::world_of;
use model_solved::Checked;
use session_journal::{JournalFault, read_journal, session_of};
use session_log::{Log, LogFault, decode_stored};
use std::alloc::Global;
use std::sync::Arc;
use tea_base::{SessionId, TIME_LIMIT, WantOfMemory};
use world::World;

/// A recorded session, as the files of a run tell it.
#[derive(Drop)]
pub struct Recorded<'a> {
    pub program: Checked,
    pub id: SessionId,
    /// A stored session, or a journal.
    pub log: &'a [u8],
    /// The snapshot from which the run begins, where it does not begin with the session.
    pub start: Option<&'a [u8]>,
    /// The time up to which entries are handled.
    pub until: u64,
}

/// A second run of a recorded session. It handles the entries that the first run handles, and nothing more.
#[derive(Drop)]
pub struct Shadow {
    log: Log,
    world: World,
    /// How many entries of the log are earlier than the world with which it began.
    skipped: u32,
    /// How many entries of the log it is past.
    place: u32,
    /// How many entries of the log it is past at its end.
    last: u32,
}

/// The log of a journal or of a stored session, none where the bytes are neither.
fn log_of(alloc: Global, bytes: &[u8]) -> Result<Option<Log>, WantOfMemory> {
    let Some(id) = session_of(bytes) else {
        return match decode_stored(alloc, bytes) {
            Ok(stored) => Ok(Some(stored.log)),
            Err(LogFault::WantOfMemory) => Err(WantOfMemory),
            Err(LogFault::BadLog) => Ok(None),
        };
    };
    match read_journal(alloc, &id, bytes) {
        Ok(read) => Ok(Some(read.stored.log)),
        Err(JournalFault::WantOfMemory) => Err(WantOfMemory),
        Err(_) => Ok(None),
    }
}

impl Shadow {
    /// The second run of a session, before its first step; none where its files are not those of a session.
    pub fn of(alloc: Global, recorded: Recorded<'_>) -> Result<Option<Shadow>, WantOfMemory> {
        let Recorded {
            program,
            id,
            log,
            start,
            until,
        } = recorded;
        let Some(log) = log_of(alloc, log)? else {
            return Ok(None);
        };
        let program = Arc::new(alloc, program)?;
        let world = match start {
            Some(bytes) => world_of(alloc, &program, &id, bytes)?,
            None => Some(World::first(alloc, program, id)?),
        };
        let Some(world) = world else {
            return Ok(None);
        };
        let skipped = log.count_until(world.time());
        let last = log.count_until(until);
        Ok(Some(Shadow {
            log,
            world,
            skipped,
            place: skipped,
            last,
        }))
    }

    /// Runs one message that is due, or handles one entry. Tells whether there was one.
    pub fn step(&mut self) -> bool {
        let seq = self.place.saturating_add(1);
        if seq > self.last || seq > self.log.len() {
            return false;
        }
        let time = self.log.time_of(seq);
        let goes = match self.world.turn(time) {
            Ok(Some(_)) => true,
            Ok(None) => self.enter(seq),
            Err(_) => false,
        };
        let _published = self.world.take_out();
        goes
    }

    /// Handles the entry of this number, once no message is due before it.
    fn enter(&mut self, seq: u32) -> bool {
        let Ok(entry) = self.log.get(seq) else {
            return false;
        };
        if entry.time >= TIME_LIMIT || self.world.enter(&entry).is_err() {
            return false;
        }
        self.place = seq;
        true
    }

    /// How many entries it has handled.
    pub fn done(&self) -> u64 {
        u64::from(self.place.saturating_sub(self.skipped))
    }

    /// How many entries there are to handle.
    pub fn total(&self) -> u64 {
        u64::from(self.last.saturating_sub(self.skipped))
    }
}
