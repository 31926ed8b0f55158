//! Many sessions in one reflector: each link that it accepts is served by the session that its first frame names.
//!
//! [`host`] says what comes of it: each session is the play of one history, in which each link that went to it has its talk, as if it were alone.
#![tactic(auto)]

mod accepting;
mod claiming;
mod hearing;
mod hosting;
mod peeked;
mod rooms;
mod routing;
mod running;
mod seats;
mod serving;

pub use claiming::{Target, target_of};
pub use hearing::hear_first;
pub use hosting::{Host, HostEnd, HostEnds, Hosted, SessionIds, Sessions};
pub use peeked::Peeking;
pub use rooms::{Room, Row, merge_row};
pub use running::{Opened, close_made, host, open_all, rooms_for, unheard};
pub use seats::Seat;
pub use serving::{HostService, RoomedLink, serve_first};
