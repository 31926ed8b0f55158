//! The base types of a session: bytes, text, lists, and the entries of a log.
#![tactic(auto)]

mod blob;
mod entry;
mod limits;
mod list;
mod text;
mod want;

pub use blob::Blob;
pub use entry::{Entries, Entry, SessionId, What};
pub use limits::{
    END_OF_TIME, MOST_BYTES, MOST_ENTRIES, MOST_HERE, MOST_OPEN_ENTRIES, MOST_PAYLOAD,
    MOST_SNAPSHOT, TIME_LIMIT,
};
pub use list::List;
pub use text::{Text, TextFault, Words};
pub use want::{WantOfMemory, push};

/// Numbers in order.
pub type Numbers = List<u32>;
