//! The calls of a session, each looked at where it is out of memory.
ghost use Rattle.std.specs.Prelude.{◌≡◌, IfOk};
ghost use Rattle.join_sync.specs.Batches.{IsBatchAfter};

use crate::halt::{Halt, Promise};
use join_sync::{Cursor, MOST_PULLED};
use reflector_core::{Reply, Request, Session, Want};
use std::alloc::Global;
use tea_base::{Blob, WantOfMemory};

/// The view that sends.
const VIEW: u32 = 7;

/// The view that joins after it.
const OTHER_VIEW: u32 = 8;

/// How many events are sent into prepared room.
const SENDS: u32 = 16;

/// How many bytes the payload of each has.
const PAYLOAD_BYTES: usize = 4_096;

/// How many bytes they have together.
const ALL_BYTES: u64 = 65_536;

/// The cursor of the view that sends, before anything was sent on its connection.
const START: Cursor = Cursor {
    view: VIEW,
    joined: 1,
    after: 0,
    last_tick: 0,
};

/// The line of the run.
pub(crate) fn line(alloc: Global) -> Result<String, Halt> {
    let mut session = Session::new(alloc);
    ask(&mut session, &join(VIEW))?;
    prepare(&mut session)?;
    send_all(alloc, &mut session)?;
    ask(&mut session, &join(OTHER_VIEW))?;
    ask(&mut session, &offer(alloc)?)?;
    let frames = hand_out(alloc, &mut session)?;
    told_line(alloc, &session, frames)
}

fn told_line(alloc: Global, session: &Session, frames: usize) -> Result<String, Halt> {
    let (entries, horizon) = (session.log().len(), session.horizon());
    let kept = session.kept_time().unwrap_or(0);
    Ok(format!(in alloc;
        "session entries {entries} horizon {horizon} kept {kept} frames {frames}"
    )?)
}

fn join(view: u32) -> Request {
    Request::Join {
        view,
        now: 0,
        want: Want::Fresh,
    }
}

fn offer(alloc: Global) -> Result<Request, WantOfMemory> {
    Ok(Request::Offer {
        view: VIEW,
        joined: START.joined,
        time: 1,
        bytes: Blob::copy(alloc, b"world")?,
    })
}

/// Makes a call. Where it is out of memory, it is looked at the session, and the call is made again.
fn ask(session: &mut Session, request: &Request) -> Result<Reply, Halt> {
    let before = session.store()?;
    if let Ok(reply) = session.call(request) {
        return Ok(reply);
    }
    look(session, &before)?;
    Ok(session.call(request)?)
}

/// The session is stored as before: so its log, its horizon and what it keeps are the same.
fn look(session: &Session, before: &Blob) -> Result<(), Halt> {
    if session.store()? == *before {
        Ok(())
    } else {
        Err(Halt::Broken(Promise::SessionStays))
    }
}

/// Makes room for the events.
fn prepare(session: &mut Session) -> Result<(), Halt> {
    let before = session.store()?;
    if session.prepare(SENDS, ALL_BYTES).is_ok() {
        return Ok(());
    }
    look(session, &before)?;
    Ok(session.prepare(SENDS, ALL_BYTES)?)
}

/// Sends the events, for which there is room.
fn send_all(alloc: Global, session: &mut Session) -> Result<(), Halt> {
    for number in 1..=SENDS {
        let request = send(alloc, number)?;
        if session.call(&request).is_err() {
            return Err(Halt::Broken(Promise::RoomIsThere));
        }
    }
    Ok(())
}

fn send(alloc: Global, number: u32) -> Result<Request, Halt> {
    Ok(Request::Send {
        view: VIEW,
        joined: START.joined,
        number,
        payload: Blob::from_vec(vec![in alloc; 0u8; PAYLOAD_BYTES]?),
        now: 0,
    })
}

/// Makes frames of all entries, and gives how many they are. Where the cursor is out of memory, it is looked at, and the same is done again.
fn hand_out(alloc: Global, session: &mut Session) -> Result<usize, Halt> {
    let mut cursor = START;
    if let Some(frames) = frames(alloc, session, &mut cursor)? {
        return Ok(frames);
    }
    if cursor != START {
        return Err(Halt::Broken(Promise::CursorStays));
    }
    frames(alloc, session, &mut cursor)?.ok_or(Halt::WantOfMemory)
}

/// Pulls all entries, and gives how many frames the cursor makes of them; none where that is out of memory.
fn frames(alloc: Global, session: &mut Session, cursor: &mut Cursor) -> Result<Option<usize>, Halt>
    requires { cursor.old.after ≡ 0 }
{
    let batch = pull(session)?;
    match cursor.next(alloc, batch) {
        Ok(frames) => Ok(Some(frames.len())),
        Err(WantOfMemory) => Ok(None),
    }
}

/// Pulls all entries. Where that is out of memory, it is looked at the session, and they are pulled again.
fn pull(session: &mut Session) -> Result<Reply, Halt>
    ensures { IfOk result (λ reply. IsBatchAfter 0 reply) }
{
    let before = session.store()?;
    match pull_once(session) {
        Ok(reply) => return Ok(reply),
        Err(WantOfMemory) => look(session, &before)?,
    }
    Ok(pull_once(session)?)
}

fn pull_once(session: &mut Session) -> Result<Reply, WantOfMemory>
    ensures { IfOk result (λ reply. IsBatchAfter 0 reply) }
{
    // says that the session is sound, and so that its log is legal
    let _ = session.horizon(); // for the prover
    session.call(&Request::Pull {
        after: 0,
        limit: MOST_PULLED,
    })
}
