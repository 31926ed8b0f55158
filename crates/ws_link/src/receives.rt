//! How long the receives of a link wait.

use std::time::{Duration, Instant};

/// How long a receive waits for bytes at a link that was accepted, in milliseconds.
const ACCEPTED_TIME: u64 = 50;
/// The same at a link that was made.
const MADE_TIME: u64 = 10;
/// How long a receive waits that took a part of a message, in milliseconds.
const PART_TIME: u64 = 1000;
/// How long after news ended a receive no news ends another, in milliseconds. Callers count the receives that were quiet in a row, so
/// a burst of news must not pass for a long silence.
const NEWS_GAP: u64 = 4;
/// A receive after so many frames that were sent waits for nothing: whoever sends so many in a row has more to send.
const LONG_ROW: u32 = 256;

/// The receives of a link, one after the other.
#[derive(Drop)]
pub struct Receives {
    /// How long each waits, in milliseconds.
    time: u64,
    /// When the one that goes on began, where the clock told it.
    began: Option<Instant>,
    /// Whether it took a part of a message.
    has_part: bool,
    /// Whether news came in it.
    has_news: bool,
    /// Whether it waits for nothing.
    is_hasty: bool,
    /// When news last ended a receive, where the clock told it.
    woken: Option<Instant>,
    /// How many frames were sent since the last one began.
    row: u32,
}

impl Receives {
    /// The receives of a link that was accepted, or made.
    pub fn new(is_accepted: bool) -> Receives {
        Receives {
            time: if is_accepted {
                ACCEPTED_TIME
            } else {
                MADE_TIME
            },
            began: None,
            has_part: false,
            has_news: false,
            is_hasty: false,
            woken: None,
            row: 0,
        }
    }

    /// A receive begins at this time.
    pub fn begin(&mut self, now: Option<Instant>) {
        self.began = now;
        self.has_part = false;
        self.has_news = false;
        self.is_hasty = self.row >= LONG_ROW;
        self.row = 0;
    }

    /// A frame is sent.
    pub fn note_frame(&mut self) {
        self.row = self.row.saturating_add(1);
    }

    /// Bytes were taken.
    pub fn note_part(&mut self) {
        self.has_part = true;
    }

    /// The bytes that were taken are a ping or a pong, and no part of a message.
    pub fn forget_part(&mut self) {
        self.has_part = false;
    }

    /// News came.
    pub fn note_news(&mut self) {
        self.has_news = true;
    }

    /// The receive ends at this time, quiet.
    pub fn end_quiet(&mut self, now: Option<Instant>) {
        if self.has_news {
            self.woken = now;
        }
    }

    /// How much longer the receive waits, at this time. One that took a part of a message waits for the rest, and news does not end
    /// it. Where the clock cannot be read, nothing is waited for.
    pub fn left(&self, now: Option<Instant>) -> Duration {
        if self.is_hasty {
            return Duration::ZERO;
        }
        if self.has_part {
            return left_of(self.began, now, PART_TIME);
        }
        let left = left_of(self.began, now, self.time);
        if self.has_news {
            return left.min(left_of(self.woken, now, NEWS_GAP));
        }
        left
    }
}

/// What is left of so many milliseconds since a time. Nothing is where a time is not known.
pub fn left_of(since: Option<Instant>, now: Option<Instant>, millis: u64) -> Duration {
    match (since, now) {
        (Some(since), Some(now)) => Duration::from_millis(millis).saturating_sub(
            now.saturating_duration_since(since),
        ),
        _ => Duration::ZERO,
    }
}
