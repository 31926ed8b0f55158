//! What frames come to.
use reflector_core::Request;
use wire_frames::ServerFrame;

/// What a frame of a view that has joined comes to.
#[derive(Debug, Drop)]
pub enum Act {
    /// This is asked of the session; [`Cursor::answer`](crate::Cursor::answer) makes the answer of its reply.
    Call(Request),
    /// Nothing is asked; this is the answer.
    Answer(ServerFrame),
}
