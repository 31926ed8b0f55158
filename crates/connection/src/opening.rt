//! The first frame of a connection.
ghost use Rattle.std.specs.Prelude.{◌≡◌, ℕ, List, Option, Some, IfOk, MatchResult};
ghost use Rattle.session_lock.specs.History.{play_from};
ghost use Rattle.session_lock.specs.Passes.{PassState};
ghost use Rattle.byte_fields.specs.Fields.{whole};
ghost use Rattle.wire_frames.specs.Frames.{FitsServer};
ghost use Rattle.wire_frames.specs.Reading.{client_at};
ghost use Rattle.system_plain.specs.Steps.{joined_view};
ghost use Rattle.wire_frames.specs.declared.frame.ServerFrame.{ServerFrame};
ghost use Rattle.reflector_core.specs.declared.request.Reply.{Reply};
ghost use Rattle.session_lock.specs.Keeping.{SomeShut};
ghost use Rattle.connection.specs.Exchanges.{Answered, IsAskedInTime, IsMadeSo};
ghost use Rattle.connection.specs.Phases.{Joining, Opening, Over, Beginning, Ticking, greeted_phase};
ghost use Rattle.join_sync.specs.Requests.{IsJoin};
ghost use Rattle.connection.specs.Standing.{IsStanding};
ghost use Rattle.connection.specs.Talk.{TalksOn, TalksOrHalts, account, link_account};

use crate::asking::{Service, ask, ended_by};
use crate::ending::{Ended, Halt};
use crate::sending::{refuse, tell, unread_frame};
use join_sync::{Cursor, open};
use reflector_core::{Keeper, Request};
use session_lock::Pass;
use std::sync::Wait;
use tea_base::Blob;
use tea_io::{Clock, Heard, Link, MOST_QUIETS};
use wire_frames::{ClientFrame, FrameFault, ServerFrame, read_client};

/// Waits for the first frame.
pub fn first_frame<C: Clock, R: Wait, K: Keeper, L: Link>(
    service: &Service<'_, C, R, K>,
    link: &mut L,
) -> Result<Blob, Ended>
    ensures { (pass : PassState) → MatchResult result
        (λ bytes. TalksOn (IsMadeSo (C.gives service.now.clock.now) (SomeShut K.shut)) service.now.id (Opening 0)
        (Beginning bytes) (account pass (link_account L.Link link.old)) (account pass (link_account L.Link link.new)))
        (λ ended. TalksOn (IsMadeSo (C.gives service.now.clock.now) (SomeShut K.shut)) service.now.id (Opening 0)
        (Over ended) (account pass (link_account L.Link link.old)) (account pass (link_account L.Link link.new))) }
{
    for _quiets in 0..MOST_QUIETS {
        match link.recv() {
            Heard::Frame(bytes) => return Ok(bytes),
            Heard::Quiet => {}
            Heard::End => return Err(Ended::LinkEnd),
            Heard::Failed => return Err(Ended::LinkFault),
            Heard::WantOfMemory => return Err(Ended::WantOfMemory),
        }
    }
    Err(Ended::Idle {
        quiets: MOST_QUIETS,
    })
}

/// Tells a view what its Join came to.
fn greet<C: Clock, R: Wait, K: Keeper, L: Link>(
    service: &Service<'_, C, R, K>,
    link: &mut L,
    cursor: Option<Cursor>,
    frame: &ServerFrame,
) -> Result<Cursor, Halt>
    requires { FitsServer frame.now }
    ensures cursor { IfOk result (λ joined. cursor ≡ Some joined) }
    ensures talk { (pass : PassState)
        → TalksOrHalts (IsMadeSo (C.gives service.now.clock.now) (SomeShut K.shut)) service.now.id
        (greeted_phase cursor (Some frame.now)) (λ joined. Ticking joined 0) result
        (account pass (link_account L.Link link.old)) (account pass (link_account L.Link link.new)) }
{
    let Some(cursor) = cursor else {
        return Err(refuse(service, link, frame));
    };
    tell(service, link, &cursor, frame)?;
    Ok(cursor)
}

/// The view that a Join is of.
fn joined_view(request: &Request) -> u32
    requires { IsJoin request.now }
    ensures { result ≡ joined_view request.now }
{
    match request {
        Request::Join { view, .. } => *view,
        _ => unreachable!(),
    }
}

/// Makes the Join.
fn join<C: Clock, R: Wait, K: Keeper, L: Link>(
    service: &Service<'_, C, R, K>,
    pass: &mut Pass<K>,
    link: &mut L,
    request: &Request,
) -> Result<Cursor, Halt>
    requires session { pass.old.session ≡ service.now.shared.now.session }
    requires join { IsJoin request.now }
    requires timely { (given : Reply) → IsAskedInTime (C.gives service.now.clock.now) (Answered request.now given) }
    ensures kept { pass.new ≡ record pass.old { seen = pass.new.seen } }
    ensures standing { IfOk result (λ cursor. IsStanding (play_from pass.new.opening pass.new.seen) cursor) }
    ensures talk { TalksOrHalts (IsMadeSo (C.gives service.now.clock.now) (SomeShut K.shut)) service.now.id
        (Joining request.now) (λ cursor. Ticking cursor 0) result (account pass.old (link_account L.Link link.old))
        (account pass.new (link_account L.Link link.new)) }
{
    let reply = match ask(service, pass, request) {
        Ok(reply) => reply,
        Err(fault) => return Err(Halt::Over(ended_by(fault))),
    };
    let (cursor, frame) = Cursor::opened(joined_view(request), reply);
    greet(service, link, cursor, &frame)
}

/// Enters by the first frame, which has to be a JOIN of this session.
fn enter<C: Clock, R: Wait, K: Keeper, L: Link>(
    service: &Service<'_, C, R, K>,
    pass: &mut Pass<K>,
    link: &mut L,
    frame: &ClientFrame,
) -> Result<Cursor, Halt>
    requires session { pass.old.session ≡ service.now.shared.now.session }
    ensures kept { pass.new ≡ record pass.old { seen = pass.new.seen } }
    ensures standing { IfOk result (λ cursor. IsStanding (play_from pass.new.opening pass.new.seen) cursor) }
    ensures talk { (bytes : List ℕ) → whole client_at bytes ≡ Some frame.now
        → TalksOrHalts (IsMadeSo (C.gives service.now.clock.now) (SomeShut K.shut)) service.now.id
        (Beginning bytes) (λ cursor. Ticking cursor 0) result (account pass.old (link_account L.Link link.old))
        (account pass.new (link_account L.Link link.new)) }
{
    let now = service.clock.now();
    match open(frame, &service.id, now) {
        Ok(request) => join(service, pass, link, &request),
        Err(early) => Err(refuse(service, link, &early.frame(frame))),
    }
}

/// Reads the first frame, and joins.
pub fn begin<C: Clock, R: Wait, K: Keeper, L: Link>(
    service: &Service<'_, C, R, K>,
    pass: &mut Pass<K>,
    link: &mut L,
    bytes: &Blob,
) -> Result<Cursor, Halt>
    requires session { pass.old.session ≡ service.now.shared.now.session }
    ensures kept { pass.new ≡ record pass.old { seen = pass.new.seen } }
    ensures standing { IfOk result (λ cursor. IsStanding (play_from pass.new.opening pass.new.seen) cursor) }
    ensures talk { TalksOrHalts (IsMadeSo (C.gives service.now.clock.now) (SomeShut K.shut)) service.now.id
        (Beginning bytes.now) (λ cursor. Ticking cursor 0) result (account pass.old (link_account L.Link link.old))
        (account pass.new (link_account L.Link link.new)) }
{
    match read_client(service.alloc, bytes.bytes()) {
        Ok(frame) => enter(service, pass, link, &frame),
        Err(FrameFault::BadFrame) => Err(refuse(service, link, &unread_frame())),
        Err(FrameFault::WantOfMemory) => Err(Halt::Over(Ended::WantOfMemory)),
    }
}
