//! The first frame of a connection.
ghost use Rattle.std.specs.Prelude.{◌≡◌};
ghost use Rattle.join_sync.specs.Requests.{first_request};

use crate::frames::tag;
use reflector_core::Request;
use tea_base::SessionId;
use wire_frames::{ClientFrame, RefusalCode, ServerFrame};

/// Why a connection is refused before its session is asked.
#[derive(Clone, Copy, Debug, PartialEq, Eq)]
pub enum Early {
    /// Its first frame joins another session.
    OtherSession,
    /// Its first frame joins none.
    NotJoined,
}

impl Early {
    ghost use Rattle.join_sync.specs.Refusals.{early_code, early_frame};

    /// The code by which a frame tells it.
    fn code(self) -> RefusalCode
        ensures { result ≡ early_code self }
    {
        match self {
            Early::OtherSession => RefusalCode::OtherSession,
            Early::NotJoined => RefusalCode::NotJoined,
        }
    }

    /// The frame that tells it of this first frame.
    pub fn frame(self, first: &ClientFrame) -> ServerFrame
        ensures { result ≡ early_frame self first.now }
    {
        ServerFrame::Refused {
            about: tag(first),
            code: self.code().number(),
            kept: 0,
            more: 0,
        }
    }
}

/// What the first frame of a connection asks of this session: a Join of its view, at the caller's clock. `now` is in
/// microseconds, any number. Takes no memory.
pub fn open(first: &ClientFrame, id: &SessionId, now: u64) -> Result<Request, Early>
    ensures { result ≡ first_request first.now id.now now }
{
    match first {
        ClientFrame::Join {
            session,
            view,
            want,
        } => {
            if session != id {
                return Err(Early::OtherSession);
            }
            Ok(Request::Join {
                view: *view,
                now,
                want: *want,
            })
        }
        ClientFrame::Send { .. }
        | ClientFrame::Snap { .. }
        | ClientFrame::Leave
        | ClientFrame::Alive => Err(Early::NotJoined),
    }
}
