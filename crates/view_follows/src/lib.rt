//! What the last line of a view says of the log that its links told, and of the log that a reflector wrote.
#![tactic(auto)]

mod laws;

pub use laws::{
    answers_tell_of_runs, ends_are_caused, journals_leave, links_meet, live_ends_are_caused,
    runs_live_on, views_of_any_runs, views_of_many_runs, views_replay,
};
