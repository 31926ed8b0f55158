//! The tags of frames: the first byte of each. By the tags of a view's frames a refusal names the frame that it is about.

/// The tag of a JOIN.
pub const JOIN_TAG: u8 = 1;

/// The tag of a SEND.
pub const SEND_TAG: u8 = 2;

/// The tag of a SNAP.
pub const SNAP_TAG: u8 = 3;

/// The tag of a LEAVE.
pub const LEAVE_TAG: u8 = 4;

/// The tag of a view's ALIVE.
pub const ALIVE_TAG: u8 = 5;

/// The tag of a SYNC.
pub const SYNC_TAG: u8 = 65;

/// The tag of a RECV.
pub const RECV_TAG: u8 = 66;

/// The tag of a TICK.
pub const TICK_TAG: u8 = 67;

/// The tag of a DONE.
pub const DONE_TAG: u8 = 68;

/// The tag of a SNAPPED.
pub const SNAPPED_TAG: u8 = 69;

/// The tag of a REFUSED.
pub const REFUSED_TAG: u8 = 70;

/// The tag of a reflector's ALIVE.
pub const SERVER_ALIVE_TAG: u8 = 71;

/// The tag of no frame. A refusal of a frame that could not be read is about it.
pub const NO_TAG: u8 = 0;
