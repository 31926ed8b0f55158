//! How a connection ends.
use join_sync::Cursor;

/// How a connection ends.
#[derive(Clone, Copy, Debug, PartialEq, Eq)]
pub enum Ended {
    /// Its view left by a LEAVE.
    Left,
    /// The link said that it has ended.
    LinkEnd,
    /// A call of the link failed.
    LinkFault,
    /// The link was quiet so many times in a row.
    Idle { quiets: u32 },
    /// A request was refused as that of an old connection; `current` is the seq of its view's last Join or Exit.
    Stale { current: u32 },
    /// Its first frame was refused, with this code.
    Refused { code: u8 },
    WantOfMemory,
    /// What a call would have changed was not kept by the session's keeper.
    Unkept,
}

/// Where a talk stops, and what is left to do.
#[derive(Clone, Copy, Debug)]
pub enum Halt {
    /// Nothing is.
    Over(Ended),
    /// The view is to leave.
    Leave { cursor: Cursor, ended: Ended },
}
