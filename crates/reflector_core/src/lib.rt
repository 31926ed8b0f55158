//! The session of a reflector: it stamps requests, and answers each by one table.
#![tactic(auto)]

mod keeper;
mod laws;
mod request;
mod run;
mod session;

pub use keeper::{CallFault, Keeper, NoKeeper, Unkept};
pub use laws::{
    a_stored_session_comes_back, log_grows, offers_change_what_is_kept, prepared_calls_are_answered,
};
pub use request::{Refusal, Replies, Reply, Request, Requests};
pub use run::play;
pub use session::{Mark, Session};
pub use wire_frames::{Base, Want};
