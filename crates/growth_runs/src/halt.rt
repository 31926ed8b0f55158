//! Why a run ends before its line.
use std::alloc::AllocError;
use std::io::{self, ErrorKind};
use tea_base::WantOfMemory;

/// What was promised of a call that is out of memory.
#[derive(Clone, Copy, Debug)]
pub(crate) enum Promise {
    /// The session is as it was.
    SessionStays,
    /// A Send into room that was prepared has an answer.
    RoomIsThere,
    /// The cursor is as it was.
    CursorStays,
    /// After a Sync that found no memory the replica is not broken.
    SyncLeavesReplica,
    /// A broken replica answers Broken, and gives nothing that models published.
    BrokenReplicaSaysSo,
    /// A program, or a frame that nothing keeps the replica from taking, is refused for want of memory alone.
    CauseIsNamed,
}

/// Why a run ends before its line.
#[derive(Clone, Copy, Debug)]
pub(crate) enum Halt {
    /// Memory ran out at something else than the calls that are looked at, or at such a call twice.
    WantOfMemory,
    /// The words are none of this program's, or its output failed.
    Failed,
    Broken(Promise),
}

impl Halt {
    /// The status with which the program ends.
    pub(crate) fn status(&self) -> u8 {
        match self {
            Halt::Broken(_) => 1,
            Halt::Failed => 5,
            Halt::WantOfMemory => 8,
        }
    }

    /// The line that is printed, without its end.
    pub(crate) fn line(&self) -> &'static str {
        match self {
            Halt::WantOfMemory => "memory",
            Halt::Failed => "failed",
            Halt::Broken(promise) => promise.line(),
        }
    }
}

impl Promise {
    fn line(&self) -> &'static str {
        match self {
            Promise::SessionStays =>
                "BROKEN PROMISE: a session that was out of memory is another one",
            Promise::RoomIsThere => "BROKEN PROMISE: a Send into prepared room was out of memory",
            Promise::CursorStays =>
                "BROKEN PROMISE: a cursor that was out of memory is another one",
            Promise::SyncLeavesReplica =>
                "BROKEN PROMISE: a Sync that was out of memory broke the replica",
            Promise::BrokenReplicaSaysSo => "BROKEN PROMISE: a broken replica told something",
            Promise::CauseIsNamed => "BROKEN PROMISE: memory ran out, and another cause was named",
        }
    }
}

impl From<WantOfMemory> for Halt {
    fn from(_error: WantOfMemory) -> Self {
        Halt::WantOfMemory
    }
}

impl From<AllocError> for Halt {
    fn from(_error: AllocError) -> Self {
        Halt::WantOfMemory
    }
}

impl From<io::Error> for Halt {
    fn from(error: io::Error) -> Self {
        match error.kind() {
            ErrorKind::OutOfMemory => Halt::WantOfMemory,
            _ => Halt::Failed,
        }
    }
}
