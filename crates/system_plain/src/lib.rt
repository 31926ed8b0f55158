//! A session, its views and their connections as one system, over any world that meets a few laws: its steps, and what is true after
//! every list of them.
#![tactic(auto)]

mod laws;

pub use laws::{
    clients_are_found, connection_is_line, connections_are_served, every_schedule,
    frames_move_in_time, line_is_served, publication_is_decided, schedules_grow,
    schedules_in_parts, steps_in_words, steps_that_rest, whole_schedules,
};
