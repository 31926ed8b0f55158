//! The limits of what a run may be asked for.

/// The most links that a reflector accepts.
pub const MOST_CONNECTIONS: u32 = 64;

/// The most views of a drill.
pub const MOST_DRILL_VIEWS: u32 = 8;

/// The most events that each view of a drill publishes.
pub const MOST_DRILL_EVENTS: u32 = 10_000;
