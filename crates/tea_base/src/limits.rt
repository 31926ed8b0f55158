//! The limits of a session.

/// Times are below this, in microseconds.
pub const TIME_LIMIT: u64 = 1 << 53;

/// At a horizon of this time or later nothing is stamped but Exits. In microseconds.
pub const END_OF_TIME: u64 = TIME_LIMIT - 4_096;

/// The most entries of a log.
pub const MOST_ENTRIES: u32 = 1_049_600;

/// How many entries may come before something other than an Exit is refused.
pub const MOST_OPEN_ENTRIES: u32 = 1_048_576;

/// The most payload bytes of an Event.
pub const MOST_PAYLOAD: usize = 4_096;

/// The most payload bytes of a log.
pub const MOST_BYTES: u64 = 67_108_864;

/// The most views that are here.
pub const MOST_HERE: u32 = 1_024;

/// The most bytes of a snapshot.
pub const MOST_SNAPSHOT: usize = 4_194_304;
