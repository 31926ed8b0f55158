//! The turns of a connection whose view has joined.
ghost use Rattle.std.specs.Prelude.{◌≡◌, ◌<◌, ℕ, List, Option, Some, None, IfOk, IfSome};
ghost use Rattle.std.specs.List.{AllByRecursion};
ghost use Rattle.byte_fields.specs.Fields.{whole};
ghost use Rattle.tea_io.specs.Links.{most_quiets};
ghost use Rattle.wire_frames.specs.Frames.{FitsServer};
ghost use Rattle.wire_frames.specs.Reading.{client_at};
ghost use Rattle.wire_frames.specs.declared.frame.ServerFrame.{ServerFrame};
ghost use Rattle.reflector_core.specs.Growth.{GrowsTo};
ghost use Rattle.session_lock.specs.History.{play_from};
ghost use Rattle.session_lock.specs.Passes.{PassState};
ghost use Rattle.join_sync.specs.Requests.{IsOfFrame};
ghost use Rattle.connection.specs.declared.ending.Ended.{Ended};
ghost use Rattle.join_sync.specs.Batches.{IsBatchAfter, next_cursor, next_frames};
ghost use Rattle.system_plain.specs.Steps.{answer_frames};
ghost use Rattle.reflector_core.specs.declared.request.Reply.{Reply};
ghost use Rattle.session_lock.specs.Keeping.{SomeShut};
ghost use Rattle.connection.specs.Exchanges.{Answered, IsAskedInTime, IsMadeSo};
ghost use Rattle.connection.specs.Phases.{Asking, Hearing, Leaving, Over, Pulling, Taking, Ticking, answered_by, end_in, halt_phase, pulled_phase};
ghost use Rattle.connection.specs.Standing.{IsStanding};
ghost use Rattle.connection.specs.Talk.{LinkAccount, TalksOn, TalksOrHalts, account, link_account};

use crate::asking::{Service, ask, ended_by};
use crate::ending::{Ended, Halt};
use crate::sending::{leave_at, tell, tell_all, tell_end, unread_frame};
use join_sync::{Act, Cursor, MOST_PULLED};
use reflector_core::{Keeper, Refusal, Reply, Request};
use session_lock::Pass;
use std::sync::Wait;
use tea_base::{Blob, WantOfMemory};
use tea_io::{Clock, Heard, Link, MOST_QUIETS};
use wire_frames::{ClientFrame, FrameFault, ServerFrame, read_client};

// ---- a frame

/// How the reply to a frame's request ends the connection, if it does.
fn end_in(reply: &Reply) -> Option<Ended>
    ensures { result ≡ end_in reply.now }
{
    match reply {
        Reply::Left { .. } => Some(Ended::Left),
        Reply::Refused(Refusal::Stale { current }) => Some(Ended::Stale { current: *current }),
        _ => None,
    }
}

/// Sends the answer to a frame's request, if there is one; the connection may end by it.
fn answer<C: Clock, R: Wait, K: Keeper, L: Link>(
    service: &Service<'_, C, R, K>,
    link: &mut L,
    cursor: &Cursor,
    ended: Option<Ended>,
    answer: Option<ServerFrame>,
) -> Result<(), Halt>
    requires { IfSome answer FitsServer }
    ensures { (pass : PassState)
        → TalksOrHalts (IsMadeSo (C.gives service.now.clock.now) (SomeShut K.shut)) service.now.id
        (answered_by cursor.now ended (answer_frames answer)) (λ _. Ticking cursor.now 0) result
        (account pass (link_account L.Link link.old)) (account pass (link_account L.Link link.new)) }
{
    match (ended, answer) {
        (None, None) => Ok(()),
        (None, Some(frame)) => tell(service, link, cursor, &frame),
        (Some(ended), None) => Err(Halt::Over(ended)),
        (Some(ended), Some(frame)) => Err(tell_end(service, link, cursor, &frame, ended)),
    }
}

/// Makes the request of a frame.
fn make<C: Clock, R: Wait, K: Keeper, L: Link>(
    service: &Service<'_, C, R, K>,
    pass: &mut Pass<K>,
    link: &mut L,
    cursor: &Cursor,
    request: &Request,
) -> Result<(), Halt>
    requires session { pass.old.session ≡ service.now.shared.now.session }
    requires frame { IsOfFrame request.now }
    requires timely { (given : Reply) → IsAskedInTime (C.gives service.now.clock.now) (Answered request.now given) }
    ensures kept { pass.new ≡ record pass.old { seen = pass.new.seen } }
    ensures grows { GrowsTo (play_from pass.old.opening pass.old.seen) (play_from pass.new.opening pass.new.seen) }
    ensures talk { TalksOrHalts (IsMadeSo (C.gives service.now.clock.now) (SomeShut K.shut)) service.now.id
        (Asking cursor.now request.now) (λ _. Ticking cursor.now 0) result
        (account pass.old (link_account L.Link link.old)) (account pass.new (link_account L.Link link.new)) }
{
    let reply = match ask(service, pass, request) {
        Ok(reply) => reply,
        Err(fault) => return Err(leave_at(cursor, ended_by(fault))),
    };
    let frame = cursor.answer(request, &reply);
    answer(service, link, cursor, end_in(&reply), frame)
}

/// Acts on a frame.
fn act<C: Clock, R: Wait, K: Keeper, L: Link>(
    service: &Service<'_, C, R, K>,
    pass: &mut Pass<K>,
    link: &mut L,
    cursor: &Cursor,
    frame: ClientFrame,
) -> Result<(), Halt>
    requires session { pass.old.session ≡ service.now.shared.now.session }
    ensures kept { pass.new ≡ record pass.old { seen = pass.new.seen } }
    ensures grows { GrowsTo (play_from pass.old.opening pass.old.seen) (play_from pass.new.opening pass.new.seen) }
    ensures talk { (bytes : List ℕ) → whole client_at bytes ≡ Some frame
        → TalksOrHalts (IsMadeSo (C.gives service.now.clock.now) (SomeShut K.shut)) service.now.id
        (Taking cursor.now bytes) (λ _. Ticking cursor.now 0) result (account pass.old (link_account L.Link link.old))
        (account pass.new (link_account L.Link link.new)) }
{
    let now = service.clock.now();
    match cursor.act(frame, now) {
        Act::Call(request) => make(service, pass, link, cursor, &request),
        Act::Answer(frame) => tell(service, link, cursor, &frame),
    }
}

/// Takes a frame.
fn take<C: Clock, R: Wait, K: Keeper, L: Link>(
    service: &Service<'_, C, R, K>,
    pass: &mut Pass<K>,
    link: &mut L,
    cursor: &Cursor,
    bytes: &Blob,
) -> Result<(), Halt>
    requires session { pass.old.session ≡ service.now.shared.now.session }
    ensures kept { pass.new ≡ record pass.old { seen = pass.new.seen } }
    ensures grows { GrowsTo (play_from pass.old.opening pass.old.seen) (play_from pass.new.opening pass.new.seen) }
    ensures talk { TalksOrHalts (IsMadeSo (C.gives service.now.clock.now) (SomeShut K.shut)) service.now.id
        (Taking cursor.now bytes.now) (λ _. Ticking cursor.now 0) result
        (account pass.old (link_account L.Link link.old)) (account pass.new (link_account L.Link link.new)) }
{
    match read_client(service.alloc, bytes.bytes()) {
        Ok(frame) => act(service, pass, link, cursor, frame),
        Err(FrameFault::BadFrame) => tell(service, link, cursor, &unread_frame()),
        Err(FrameFault::WantOfMemory) => Err(leave_at(cursor, Ended::WantOfMemory)),
    }
}

/// Hears the link once, and acts on what it says. The answer is how many Quiets came in a row.
fn receive<C: Clock, R: Wait, K: Keeper, L: Link>(
    service: &Service<'_, C, R, K>,
    pass: &mut Pass<K>,
    link: &mut L,
    cursor: &Cursor,
    quiets: u32,
) -> Result<u32, Halt>
    requires session { pass.old.session ≡ service.now.shared.now.session }
    requires row { quiets < most_quiets }
    ensures kept { pass.new ≡ record pass.old { seen = pass.new.seen } }
    ensures grows { GrowsTo (play_from pass.old.opening pass.old.seen) (play_from pass.new.opening pass.new.seen) }
    ensures row { IfOk result (λ row. row < most_quiets) }
    ensures talk { TalksOrHalts (IsMadeSo (C.gives service.now.clock.now) (SomeShut K.shut)) service.now.id
        (Hearing cursor.now quiets) (λ row. Ticking cursor.now row) result
        (account pass.old (link_account L.Link link.old)) (account pass.new (link_account L.Link link.new)) }
{
    match link.recv() {
        Heard::Frame(bytes) => {
            take(service, pass, link, cursor, &bytes)?;
            Ok(0)
        }
        Heard::Quiet => {
            if quiets + 1 == MOST_QUIETS {
                return Err(leave_at(
                    cursor,
                    Ended::Idle {
                        quiets: MOST_QUIETS,
                    },
                ));
            }
            Ok(quiets + 1)
        }
        Heard::End => Err(leave_at(cursor, Ended::LinkEnd)),
        Heard::Failed => Err(leave_at(cursor, Ended::LinkFault)),
        Heard::WantOfMemory => Err(leave_at(cursor, Ended::WantOfMemory)),
    }
}

// ---- what is new

/// Makes the Tick of a turn.
fn tick<C: Clock, R: Wait, K: Keeper>(
    service: &Service<'_, C, R, K>,
    pass: &mut Pass<K>,
    cursor: &Cursor,
) -> Result<(), Halt>
    requires session { pass.old.session ≡ service.now.shared.now.session }
    ensures kept { pass.new ≡ record pass.old { seen = pass.new.seen } }
    ensures grows { GrowsTo (play_from pass.old.opening pass.old.seen) (play_from pass.new.opening pass.new.seen) }
    ensures talk { (quiets : ℕ) (link : LinkAccount)
        → TalksOrHalts (IsMadeSo (C.gives service.now.clock.now) (SomeShut K.shut)) service.now.id
        (Ticking cursor.now quiets) (λ _. Pulling cursor.now quiets) result (account pass.old link)
        (account pass.new link) }
{
    let now = service.clock.now();
    match ask(service, pass, &Request::Tick { now }) {
        Ok(_) => Ok(()),
        Err(fault) => Err(leave_at(cursor, ended_by(fault))),
    }
}

/// Sends the frames of a batch.
fn hand_out<C: Clock, R: Wait, K: Keeper, L: Link>(
    service: &Service<'_, C, R, K>,
    link: &mut L,
    cursor: &mut Cursor,
    batch: Reply,
) -> Result<(), Halt>
    requires batch { IsBatchAfter cursor.old.after batch }
    requires fit { AllByRecursion FitsServer (next_frames cursor.old batch) }
    ensures cursor { IfOk result (λ _. cursor.new ≡ next_cursor cursor.old batch) }
    ensures talk { (pass : PassState) (quiets : ℕ)
        → TalksOrHalts (IsMadeSo (C.gives service.now.clock.now) (SomeShut K.shut)) service.now.id
        (pulled_phase cursor.old quiets batch) (λ _. Hearing cursor.new quiets) result
        (account pass (link_account L.Link link.old)) (account pass (link_account L.Link link.new)) }
{
    let before = *cursor;
    let frames = match cursor.next(service.alloc, batch) {
        Ok(frames) => frames,
        Err(WantOfMemory) => return Err(leave_at(&before, Ended::WantOfMemory)),
    };
    tell_all(service, link, &before, frames.as_slice())
}

/// Makes the Pull of a turn, and sends what it gives.
fn pull<C: Clock, R: Wait, K: Keeper, L: Link>(
    service: &Service<'_, C, R, K>,
    pass: &mut Pass<K>,
    link: &mut L,
    cursor: &mut Cursor,
) -> Result<(), Halt>
    requires session { pass.old.session ≡ service.now.shared.now.session }
    requires standing { IsStanding (play_from pass.old.opening pass.old.seen) cursor.old }
    ensures kept { pass.new ≡ record pass.old { seen = pass.new.seen } }
    ensures standing { IfOk result (λ _. IsStanding (play_from pass.new.opening pass.new.seen) cursor.new) }
    ensures talk { (quiets : ℕ) → TalksOrHalts
        (IsMadeSo (C.gives service.now.clock.now) (SomeShut K.shut)) service.now.id
        (Pulling cursor.old quiets) (λ _. Hearing cursor.new quiets) result
        (account pass.old (link_account L.Link link.old)) (account pass.new (link_account L.Link link.new)) }
{
    let request = Request::Pull {
        after: cursor.after,
        limit: MOST_PULLED,
    };
    let batch = match ask(service, pass, &request) {
        Ok(batch) => batch,
        Err(fault) => return Err(leave_at(cursor, ended_by(fault))),
    };
    hand_out(service, link, cursor, batch)
}

// ---- turns

/// What is new is sent, and then the link is heard: the end of a turn, and the begin of the next one. The answer is how many Quiets came
/// in a row.
fn turn<C: Clock, R: Wait, K: Keeper, L: Link>(
    service: &Service<'_, C, R, K>,
    pass: &mut Pass<K>,
    link: &mut L,
    cursor: &mut Cursor,
    quiets: u32,
) -> Result<u32, Halt>
    requires session { pass.old.session ≡ service.now.shared.now.session }
    requires standing { IsStanding (play_from pass.old.opening pass.old.seen) cursor.old }
    requires row { quiets < most_quiets }
    ensures kept { pass.new ≡ record pass.old { seen = pass.new.seen } }
    ensures standing { IfOk result (λ _. IsStanding (play_from pass.new.opening pass.new.seen) cursor.new) }
    ensures row { IfOk result (λ row. row < most_quiets) }
    ensures talk { TalksOrHalts (IsMadeSo (C.gives service.now.clock.now) (SomeShut K.shut)) service.now.id
        (Ticking cursor.old quiets) (λ row. Ticking cursor.new row) result
        (account pass.old (link_account L.Link link.old)) (account pass.new (link_account L.Link link.new)) }
{
    tick(service, pass, cursor)?;
    pull(service, pass, link, cursor)?;
    receive(service, pass, link, cursor, quiets)
}

/// Takes turns until the talk stops.
pub fn converse<C: Clock, R: Wait, K: Keeper, L: Link>(
    service: &Service<'_, C, R, K>,
    pass: &mut Pass<K>,
    link: &mut L,
    first: Cursor,
) -> Halt
    requires session { pass.old.session ≡ service.now.shared.now.session }
    requires standing { IsStanding (play_from pass.old.opening pass.old.seen) first }
    ensures kept { pass.new ≡ record pass.old { seen = pass.new.seen } }
    ensures talk { TalksOn (IsMadeSo (C.gives service.now.clock.now) (SomeShut K.shut)) service.now.id (Ticking first 0)
        (halt_phase result) (account pass.old (link_account L.Link link.old))
        (account pass.new (link_account L.Link link.new)) }
{
    let mut cursor = first;
    let mut quiets = 0;
    for _ in service.rt.forever() {
        match turn(service, pass, link, &mut cursor, quiets) {
            Ok(row) => quiets = row,
            Err(halt) => return halt,
        }
    }
    unreachable!()
}

/// The view leaves, whatever comes of it.
pub fn leave<C: Clock, R: Wait, K: Keeper>(
    service: &Service<'_, C, R, K>,
    pass: &mut Pass<K>,
    cursor: &Cursor,
)
    requires session { pass.old.session ≡ service.now.shared.now.session }
    ensures kept { pass.new ≡ record pass.old { seen = pass.new.seen } }
    ensures talk { (ended : Ended) (link : LinkAccount)
        → TalksOn (IsMadeSo (C.gives service.now.clock.now) (SomeShut K.shut)) service.now.id
        (Leaving cursor.now ended) (Over ended) (account pass.old link) (account pass.new link) }
{
    let now = service.clock.now();
    let request = Request::Leave {
        view: cursor.view,
        joined: cursor.joined,
        now,
    };
    let _ = ask(service, pass, &request);
}
