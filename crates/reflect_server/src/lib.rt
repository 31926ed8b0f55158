//! A reflector: it accepts links from a net, serves each in a thread beside the rest, and gives back the session.
//!
//! [`reflect_kept`] says what comes of it: one history, in which each link that was accepted has its talk, and whose play the session's keeper
//! holds. [`reflect`] is for a session without a keeper.
#![tactic(auto)]

mod accepting;
mod laws;
mod opening;
mod passes;
mod reflecting;
mod reflection;

pub use laws::those_here;
pub use opening::{LaterClock, Unopened, close_opened, open_session};
pub use reflecting::{reflect, reflect_kept, unheard, unopened_fault};
pub use reflection::{Ends, KeptFault, Opening, Reflected, ServeFault, Server};
