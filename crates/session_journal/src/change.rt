//! What a record says.
use entry_fields::LentWhat;
use tea_base::{Blob, What};

/// What changed in a session. Times are TeaTimes, in microseconds.
#[derive(Debug, Drop)]
pub enum Change {
    /// The log has one entry more.
    Came { time: u64, view: u32, what: What },
    /// No tick is later than this until the next such record.
    Reached { time: u64 },
    /// A snapshot of this time is kept.
    Kept { time: u64, bytes: Blob },
}

/// The same, its bytes in memory of others.
#[derive(Clone, Copy, Debug)]
pub enum LentChange<'a> {
    Came {
        time: u64,
        view: u32,
        what: LentWhat<'a>,
    },
    Reached {
        time: u64,
    },
    Kept {
        time: u64,
        bytes: &'a [u8],
    },
}
