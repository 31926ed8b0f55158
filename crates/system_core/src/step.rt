//! Steps of a system.
use model_value::Value;
use replica_plain::How;
use tea_base::{List, Text, WantOfMemory};

/// A step that a system may take. One that cannot be made changes nothing.
#[derive(Drop)]
pub enum ScheduleStep {
    /// A view, not 0, that has no replica founds one, and joins by a first connection.
    Found {
        view: u32,
    },
    /// The view publishes an event.
    Publish {
        view: u32,
        scope: Text,
        event: Text,
        value: Value,
    },
    /// What the view has not given yet goes up on its newest connection, if that is open.
    Transmit {
        view: u32,
    },
    /// The reflector acts on the next frame of a connection. Where that is closed and has none left, its view leaves.
    Take {
        connection: u32,
        now: u64,
    },
    /// The session's time goes on.
    Tick {
        now: u64,
    },
    /// The reflector sends what is new on a connection.
    Pull {
        connection: u32,
    },
    /// The view takes the next frame of its newest connection.
    Receive {
        view: u32,
    },
    /// A connection is closed for new frames, and keeps the first so many frames in flight.
    Cut {
        connection: u32,
        up: u32,
        down: u32,
    },
    /// The view joins by a new connection. It keeps its world until a Sync gives it another one.
    Reconnect {
        view: u32,
        how: How,
    },
    /// The view loses its world, and joins by a new connection, Whole in place of Resume. It keeps the events that are not
    /// acknowledged.
    Restart {
        view: u32,
        how: How,
    },
    /// The view's snapshot goes up on its newest connection, if that is open.
    Snap {
        view: u32,
    },
}

/// Steps in order.
pub type Schedule = List<ScheduleStep>;

/// Why a system did not take a step.
#[derive(Clone, Copy, Debug, PartialEq, Eq)]
pub enum StepFault {
    /// An earlier step of this system wanted memory, so what it holds is not known.
    Spoilt,
    WantOfMemory,
}
