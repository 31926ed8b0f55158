//! The log of a session: its entries in order, in memory.
#![tactic(auto)]

mod filling;
mod heads;
mod kinds;
mod laws;
mod legality;
mod lent;
mod log;
mod payloads;
mod reading;
mod room;
mod spelling;
mod stored;
mod storing;
mod tally;

pub use kinds::EntryKind;
pub use laws::{one_spelling, stored_sessions_fit};
pub use legality::ViewState;
pub use lent::{LentLogEntry, entry_at};
pub use log::{GetRefusal, Log};
pub use reading::{LogFault, append};
pub use room::Room;
pub use stored::{Kept, LentKept, Stored, decode_stored};
pub use storing::encode_stored;
pub use tally::{Tally, learn, may_follow, no_entries};
