//! One session that threads share: a ticket lock round it, whose history replays.
#![tactic(auto)]

mod bells;
mod held;
pub mod knowledge;
mod laws;
mod lock;
mod rule;
mod trust;

pub use laws::{
    history_goes_on, pass_crosses_threads, session_crosses_threads, sound_at_each_place,
};
pub use lock::{Pass, SharedSession, Unmade};
pub use trust::{Trust, TrustAll};
