//! Notes for a person at the terminal while a run goes on: who comes to a reflector and who goes, what the world of a view counts, and how far
//! long work is.
//!
//! [`Guest`] follows the frames of one link of a reflector, and [`WorldWatch`] those of the links of a view. [`Work`] is work of which a line is shown,
//! and [`Shadow`] a second run of it, whose entries are counted. All of them are told what happens, and give texts and numbers: no file, no link and no
//! output is touched here. That these are the right ones is tested, and not proved.
#![tactic(auto)]

mod guest;
mod laws;
mod shadow;
mod telling;
mod watch;
mod work;
mod worlds;

pub use guest::Guest;
pub use laws::notes_cross_threads;
pub use shadow::{Recorded, Shadow};
pub use watch::WorldWatch;
pub use work::{Pace, Work, work_of};
