//! The journal of a session: records of what changed, that read from the front whatever an end of the program has left after them.
#![tactic(auto)]

mod change;
mod check;
mod founding;
mod heads;
mod keeper;
mod laws;
mod reading;
mod records;

pub use change::{Change, LentChange};
pub use founding::{Draft, founding_of, header_of};
pub use keeper::{Journal, KeepFault, MOST_JOURNAL, Unopened, Unsynced};
pub use laws::{
    a_founding_is_read, a_header_keeps_the_first_session, an_end_loses_nothing,
    front_reads_whole_records, own_records_are_read_first, what_is_read_is_spelled,
    what_is_read_may_be_opened,
};
pub use reading::{JournalFault, Read, read_journal, session_of};
