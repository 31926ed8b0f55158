//! A recorded session at any moment of its log, in any order of asking.
//!
//! A time line keeps *keyframes*: the first world of the session, and the world after each so many entries of the log. A
//! moment is made from the last keyframe before it, so fewer entries are handled for it than from one keyframe to the next.
//! It is what a replay of the log from its beginning makes.
#![tactic(auto)]

mod fault;
mod frames;
mod laws;
mod line;
mod running;

pub use fault::LineFault;
pub use laws::one_moment;
pub use line::TimeLine;
