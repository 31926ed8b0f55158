//! Frames that a connection is sent.
ghost use Rattle.std.specs.Prelude.{◌≡◌, ◌+◌, ◌++◌, length, IfOk};
ghost use Rattle.wire_frames.specs.Spelling.{client_tag};
ghost use Rattle.join_sync.specs.Answers.{IsLeaveReply, IsOfferReply, IsSendReply, leave_answer, send_answer, snap_answer};
ghost use Rattle.join_sync.specs.Batches.{ComeAfter, entry_frames, newer_tick, tick_frames};
ghost use Rattle.join_sync.specs.Refusals.{refused_frame};

use reflector_core::{Refusal, Reply};
use std::alloc::Global;
use tea_base::{Entries, WantOfMemory};
use wire_frames::{
    ALIVE_TAG, ClientFrame, JOIN_TAG, LEAVE_TAG, RefusalCode, SEND_TAG, SNAP_TAG, ServerFrame,
    ServerFrames,
};

// ---- answers

/// The tag of a frame.
pub fn tag(frame: &ClientFrame) -> u8
    ensures { result ≡ client_tag frame.now }
{
    match frame {
        ClientFrame::Join { .. } => JOIN_TAG,
        ClientFrame::Send { .. } => SEND_TAG,
        ClientFrame::Snap { .. } => SNAP_TAG,
        ClientFrame::Leave => LEAVE_TAG,
        ClientFrame::Alive => ALIVE_TAG,
    }
}

/// The session refused the request of a frame with this tag.
pub fn refused_frame(about: u8, refusal: Refusal) -> ServerFrame
    ensures { result ≡ refused_frame about refusal }
{
    let (code, kept, more) = match refusal {
        Refusal::Stale { current } => (RefusalCode::Stale, u64::from(current), 0),
        Refusal::TooLong { len } => (RefusalCode::TooLong, u64::from(len), 0),
        Refusal::Differs { seq } => (RefusalCode::Differs, u64::from(seq), 0),
        Refusal::Gap { expected } => (RefusalCode::Gap, u64::from(expected), 0),
        Refusal::LogFull { entries, bytes } => (RefusalCode::LogFull, u64::from(entries), bytes),
        Refusal::TimeEnd { horizon } => (RefusalCode::TimeEnd, horizon, 0),
        Refusal::ViewsFull { here } => (RefusalCode::ViewsFull, u64::from(here), 0),
        Refusal::BadView => (RefusalCode::BadView, 0, 0),
        Refusal::Ahead { horizon } => (RefusalCode::Ahead, horizon, 0),
        Refusal::Older { kept } => (RefusalCode::Older, kept, 0),
        Refusal::NoSuchSeq { len } => (RefusalCode::NoSuchSeq, u64::from(len), 0),
    };
    ServerFrame::Refused {
        about,
        code: code.number(),
        kept,
        more,
    }
}

/// The answer to a SEND with this number.
pub fn send_answer(number: u32, reply: &Reply) -> Option<ServerFrame>
    requires { IsSendReply reply.now }
    ensures { result ≡ send_answer number reply.now }
{
    match reply {
        Reply::Stamped { seq, time } | Reply::Again { seq, time } => Some(ServerFrame::Done {
            number,
            seq: *seq,
            time: *time,
        }),
        Reply::Refused(refusal) => Some(refused_frame(SEND_TAG, *refusal)),
        _ => unreachable!(),
    }
}

/// The answer to a SNAP with this time.
pub fn snap_answer(time: u64, reply: &Reply) -> Option<ServerFrame>
    requires { IsOfferReply reply.now }
    ensures { result ≡ snap_answer time reply.now }
{
    match reply {
        Reply::Kept => Some(ServerFrame::Snapped { time }),
        Reply::Refused(refusal) => Some(refused_frame(SNAP_TAG, *refusal)),
        _ => unreachable!(),
    }
}

/// The answer to a LEAVE.
pub fn leave_answer(reply: &Reply) -> Option<ServerFrame>
    requires { IsLeaveReply reply.now }
    ensures { result ≡ leave_answer reply.now }
{
    match reply {
        Reply::Left { .. } => None,
        Reply::Refused(refusal) => Some(refused_frame(LEAVE_TAG, *refusal)),
        _ => unreachable!(),
    }
}

// ---- batches

/// The seq of the last entry that was sent, once these are.
pub fn last_seq(after: u32, entries: &Entries) -> u32
    requires { ComeAfter after entries.now }
    ensures { result ≡ after + length entries.now }
{
    match entries.as_slice().last() {
        Some(entry) => entry.seq,
        None => after,
    }
}

/// The tick, where it is above the last one that was sent.
pub fn newer_tick(last: u64, tick: Option<u64>) -> Option<u64>
    ensures { result ≡ newer_tick last tick }
{
    tick.filter(|time| last < *time)
}

/// The frames of entries, in order.
fn entry_frames(alloc: Global, entries: Entries) -> Result<ServerFrames, WantOfMemory>
    ensures { IfOk result (λ frames. frames ≡ entry_frames entries) }
{
    let frames = entries
        .into_vec()
        .into_iter()
        .map(|entry| ServerFrame::Recv(entry))
        .collect(alloc)?;
    Ok(ServerFrames::from_vec(frames))
}

/// The frames of entries, and of a tick behind them.
pub fn batch_frames(
    alloc: Global,
    entries: Entries,
    tick: Option<u64>,
) -> Result<ServerFrames, WantOfMemory>
    ensures { IfOk result (λ frames. frames ≡ entry_frames entries ++ tick_frames tick) }
{
    let mut frames = entry_frames(alloc, entries)?;
    if let Some(time) = tick {
        frames.push(ServerFrame::Tick(time))?;
    }
    Ok(frames)
}
