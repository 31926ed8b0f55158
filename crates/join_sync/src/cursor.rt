//! The cursor of a connection.
use crate::act::Act;
use crate::frames::{
    batch_frames, last_seq, leave_answer, newer_tick, refused_frame, send_answer, snap_answer,
};
use reflector_core::{Reply, Request};
use std::alloc::Global;
use tea_base::WantOfMemory;
use wire_frames::{ClientFrame, JOIN_TAG, RefusalCode, ServerFrame, ServerFrames};

/// A Pull of a connection asks for so many entries at most.
pub const MOST_PULLED: u32 = 256;

/// How far a connection of a view that has joined was sent the log.
#[derive(Clone, Copy, Debug, PartialEq, Eq)]
pub struct Cursor {
    /// The number of the view.
    pub view: u32,
    /// The seq of its Join by this connection.
    pub joined: u32,
    /// The seq of the last entry that was sent; before the first one, the seq behind which its entries begin.
    pub after: u32,
    /// The time of the last tick that was sent, in microseconds since the founding; 0 before the first one.
    pub last_tick: u64,
}

impl Cursor {
    ghost use Rattle.std.specs.Prelude.{◌≡◌, Some, IfOk, OnOk, OnErr};
    ghost use Rattle.join_sync.specs.Answers.{IsJoinReply, IsReplyTo, answer_frame, first_cursor, join_answer, leave_answer, send_answer, snap_answer};
    ghost use Rattle.join_sync.specs.Batches.{IsBatchAfter, next_cursor, next_frames};
    ghost use Rattle.join_sync.specs.Requests.{IsOfFrame, act_on};

    /// What the reply to a Join makes of its connection: a cursor, if it joined, and the frame that answers its Join.
    /// Takes no memory.
    pub fn opened(view: u32, reply: Reply) -> (Option<Cursor>, ServerFrame)
        requires { IsJoinReply reply }
        ensures cursor { result.0 ≡ first_cursor view reply }
        ensures answer { Some result.1 ≡ join_answer reply }
    {
        match reply {
            Reply::Joined {
                seq,
                last,
                from,
                base,
                ..
            } => {
                let cursor = Cursor {
                    view,
                    joined: seq,
                    after: from,
                    last_tick: 0,
                };
                let sync = ServerFrame::Sync {
                    joined: seq,
                    last,
                    from,
                    base,
                };
                (Some(cursor), sync)
            }
            Reply::Refused(refusal) => (None, refused_frame(JOIN_TAG, refusal)),
            _ => unreachable!(),
        }
    }

    /// The seq behind which the next entries are to be pulled. Takes no memory.
    pub fn after(&self) -> u32
        ensures { result ≡ self.now.after }
    {
        self.after
    }

    /// What a frame behind the JOIN comes to. `now` is the caller's clock, in microseconds, any number. Takes no memory.
    pub fn act(&self, frame: ClientFrame, now: u64) -> Act
        ensures { result ≡ act_on self.now frame now }
    {
        match frame {
            ClientFrame::Join { .. } => Act::Answer(ServerFrame::Refused {
                about: JOIN_TAG,
                code: RefusalCode::AlreadyJoined.number(),
                kept: 0,
                more: 0,
            }),
            ClientFrame::Send { number, payload } => Act::Call(Request::Send {
                view: self.view,
                joined: self.joined,
                number,
                payload,
                now,
            }),
            ClientFrame::Snap { time, bytes } => Act::Call(Request::Offer {
                view: self.view,
                joined: self.joined,
                time,
                bytes,
            }),
            ClientFrame::Leave => Act::Call(Request::Leave {
                view: self.view,
                joined: self.joined,
                now,
            }),
            ClientFrame::Alive => Act::Answer(ServerFrame::Alive),
        }
    }

    /// The frame that answers the frame of a request, by the session's reply; none where the view has left. Takes no memory.
    pub fn answer(&self, request: &Request, reply: &Reply) -> Option<ServerFrame>
        requires asked { IsOfFrame request.now }
        requires replied { IsReplyTo request.now reply.now }
        ensures { result ≡ answer_frame request.now reply.now }
    {
        match request {
            Request::Send { number, .. } => send_answer(*number, reply),
            Request::Offer { time, .. } => snap_answer(*time, reply),
            Request::Leave { .. } => leave_answer(reply),
            Request::Join { .. } | Request::Tick { .. } | Request::Pull { .. } => unreachable!(),
        }
    }

    /// The frames of a batch that was pulled behind this cursor: each entry, in order, and then its tick, if that is above
    /// the last one that was sent. They count as sent. Without memory the cursor stays.
    pub fn next(&mut self, alloc: Global, batch: Reply) -> Result<ServerFrames, WantOfMemory>
        requires { IsBatchAfter self.old.after batch }
        ensures frames { IfOk result (λ frames. frames ≡ next_frames self.old batch) }
        ensures cursor { OnOk result (self.new ≡ next_cursor self.old batch) }
        ensures err { OnErr result (self.new ≡ self.old) }
    {
        let (entries, tick) = match batch {
            Reply::Batch { entries, tick } => (entries, tick),
            _ => unreachable!(),
        };
        let after = last_seq(self.after, &entries);
        let tick = newer_tick(self.last_tick, tick);
        let frames = batch_frames(alloc, entries, tick)?;
        self.after = after;
        self.last_tick = tick.unwrap_or(self.last_tick);
        Ok(frames)
    }
}
