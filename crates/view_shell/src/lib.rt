//! Views: what a participant does by a script, over any net and output.
//!
//! [`run_view`] connects to a session's reflector, joins, does the script line by line, prints what the view shows, and leaves. What it
//! does to the outside is stated phase by phase.
//!
//! What a view does at a line and at a frame, but for the link and the output, is lent to views that are fed otherwise.
#![tactic(auto)]

mod ending;
mod hearing;
mod laws;
mod lines;
mod publishing;
mod sending;
mod showing;
mod text;
mod view;
mod watcher;

pub use ending::ViewEnd;
pub use hearing::{Stop, has_caught_up, take};
pub use laws::{one_run, votes_agree};
pub use lines::{last_line, rest, shown_text, snap_frame, time_after};
pub use publishing::{publish, vote};
pub use sending::MOST_RECEIVES;
pub use showing::world_text;
pub use text::{mark_line, numbers_line};
pub use view::{Visit, run_view};
pub use watcher::Watcher;
