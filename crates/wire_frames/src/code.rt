//! Why a frame is refused.

/// Why a frame is refused. Its number is the code by which a REFUSED tells it.
#[derive(Clone, Copy, Debug, PartialEq, Eq)]
pub enum RefusalCode {
    /// The request is of an old connection.
    Stale = 1,
    /// A payload or a snapshot is too long.
    TooLong = 2,
    /// Another event of the view has this number.
    Differs = 3,
    /// The number is not the view's next one.
    Gap = 4,
    /// The log has no room.
    LogFull = 5,
    /// The time of the session has ended.
    TimeEnd = 6,
    /// As many views are here as may be.
    ViewsFull = 7,
    /// The number of the view is 0.
    BadView = 8,
    /// The time is above the horizon.
    Ahead = 9,
    /// A later snapshot is kept.
    Older = 10,
    /// The log has no entry of this seq.
    NoSuchSeq = 11,
    /// The first frame joins another session.
    OtherSession = 12,
    /// The frame could not be read.
    BadFrame = 13,
    /// The first frame joins none.
    NotJoined = 14,
    /// The view has joined by this link already.
    AlreadyJoined = 15,
}

/// Each of them.
const ALL: [RefusalCode; 15] = [
    RefusalCode::Stale,
    RefusalCode::TooLong,
    RefusalCode::Differs,
    RefusalCode::Gap,
    RefusalCode::LogFull,
    RefusalCode::TimeEnd,
    RefusalCode::ViewsFull,
    RefusalCode::BadView,
    RefusalCode::Ahead,
    RefusalCode::Older,
    RefusalCode::NoSuchSeq,
    RefusalCode::OtherSession,
    RefusalCode::BadFrame,
    RefusalCode::NotJoined,
    RefusalCode::AlreadyJoined,
];

impl RefusalCode {
    ghost use Rattle.std.specs.Prelude.{◌≡◌, ◌↔◌, Some};
    ghost use Rattle.wire_frames.specs.Codes.{code_number};
    ghost use Rattle.wire_frames.specs.declared.code.RefusalCode.{RefusalCode};

    /// Its number.
    pub fn number(self) -> u8
        ensures { result ≡ code_number self }
    {
        self as u8
    }

    /// That of this number, if there is one.
    pub fn of(number: u8) -> Option<RefusalCode>
        ensures { (code : RefusalCode) → (result ≡ Some code) ↔ (code_number code ≡ number) }
    {
        for code in &ALL {
            if code.number() == number {
                return Some(*code);
            }
        }
        None
    }
}
