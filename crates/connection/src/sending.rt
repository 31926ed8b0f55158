//! Frames that go to a link.
ghost use Rattle.std.specs.Prelude.{◌≡◌, List, Some, [], ◌∷◌};
ghost use Rattle.std.specs.List.{AllByRecursion};
ghost use Rattle.tea_io.specs.Links.{NoneFalls, SendCause};
ghost use Rattle.wire_frames.specs.Frames.{FitsServer};
ghost use Rattle.wire_frames.specs.declared.frame.ServerFrame.{ServerFrame};
ghost use Rattle.session_lock.specs.Keeping.{SomeShut};
ghost use Rattle.session_lock.specs.Passes.{PassState};
ghost use Rattle.connection.specs.Exchanges.{IsMadeSo};
ghost use Rattle.system_plain.specs.ConnectionLine.{unread_frame};
ghost use Rattle.connection.specs.Phases.{TalkPhase, Leaving, answered_by, code_in, ending_phase, halt_phase, refused_phase, telling_phase};
ghost use Rattle.connection.specs.Talk.{SendsSpelled, TalksOn, TalksOrHalts, account, link_account};

use crate::asking::Service;
use crate::ending::{Ended, Halt};
use join_sync::Cursor;
use reflector_core::Keeper;
use std::alloc::Global;
use std::sync::Wait;
use tea_io::{Clock, Link, LinkFault};
use wire_frames::{NO_TAG, RefusalCode, ServerFrame, typed_server, write_server};

/// Sends a frame that fits its fields.
fn send<L: Link>(alloc: Global, link: &mut L, frame: &ServerFrame) -> Result<(), LinkFault>
    requires { FitsServer frame.now }
    ensures sent { SendsSpelled (L.sent link.old) (L.sent link.new) frame.now result }
    ensures heard { L.heard link.new ≡ L.heard link.old }
    ensures later { NoneFalls (L.counts link.old) (L.counts link.new) }
    ensures cause { SendCause (L.counts link.old) (L.counts link.new) result }
{
    typed_server(frame); // for the prover
    let Ok(bytes) = write_server(alloc, frame) else {
        return Err(LinkFault::WantOfMemory);
    };
    link.send(bytes.bytes())
}

/// The view is to leave.
pub fn leave_at(cursor: &Cursor, ended: Ended) -> Halt
    ensures { halt_phase result ≡ Leaving cursor.now ended }
{
    Halt::Leave {
        cursor: *cursor,
        ended,
    }
}

/// Sends a frame to a view that has joined.
pub fn tell<C: Clock, R: Wait, K: Keeper, L: Link>(
    service: &Service<'_, C, R, K>,
    link: &mut L,
    cursor: &Cursor,
    frame: &ServerFrame,
) -> Result<(), Halt>
    requires { FitsServer frame.now }
    ensures { (pass : PassState) (rest : List ServerFrame) (next : TalkPhase)
        → TalksOrHalts (IsMadeSo (C.gives service.now.clock.now) (SomeShut K.shut)) service.now.id
        (telling_phase cursor.now (frame.now ∷ rest) next) (λ _. telling_phase cursor.now rest next) result
        (account pass (link_account L.Link link.old)) (account pass (link_account L.Link link.new)) }
{
    match send(service.alloc, link, frame) {
        Ok(()) => Ok(()),
        Err(LinkFault::Failed) => Err(leave_at(cursor, Ended::LinkFault)),
        Err(LinkFault::WantOfMemory) => Err(leave_at(cursor, Ended::WantOfMemory)),
    }
}

/// Sends frames in order.
pub fn tell_all<C: Clock, R: Wait, K: Keeper, L: Link>(
    service: &Service<'_, C, R, K>,
    link: &mut L,
    cursor: &Cursor,
    frames: &[ServerFrame],
) -> Result<(), Halt>
    requires { AllByRecursion FitsServer frames.now }
    ensures { (pass : PassState) (next : TalkPhase)
        → TalksOrHalts (IsMadeSo (C.gives service.now.clock.now) (SomeShut K.shut)) service.now.id
        (telling_phase cursor.now frames.now next) (λ _. next) result (account pass (link_account L.Link link.old))
        (account pass (link_account L.Link link.new)) }
{
    for frame in frames {
        tell(service, link, cursor, frame)?;
    }
    Ok(())
}

/// Sends the last frame of a connection, which ends so also where the send fails. Where memory is wanted, it stops as `wants` says.
pub fn tell_last<C: Clock, R: Wait, K: Keeper, L: Link>(
    service: &Service<'_, C, R, K>,
    link: &mut L,
    frame: &ServerFrame,
    ended: Ended,
    wants: Halt,
) -> Halt
    requires { FitsServer frame.now }
    ensures { (pass : PassState) → TalksOn (IsMadeSo (C.gives service.now.clock.now) (SomeShut K.shut)) service.now.id
        (ending_phase (frame.now ∷ []) ended (halt_phase wants)) (halt_phase result)
        (account pass (link_account L.Link link.old)) (account pass (link_account L.Link link.new)) }
{
    match send(service.alloc, link, frame) {
        Ok(()) => Halt::Over(ended),
        Err(LinkFault::Failed) => Halt::Over(ended),
        Err(LinkFault::WantOfMemory) => wants,
    }
}

/// Sends the last frame to a view that has joined. Where memory is wanted, the view leaves.
pub fn tell_end<C: Clock, R: Wait, K: Keeper, L: Link>(
    service: &Service<'_, C, R, K>,
    link: &mut L,
    cursor: &Cursor,
    frame: &ServerFrame,
    ended: Ended,
) -> Halt
    requires { FitsServer frame.now }
    ensures { (pass : PassState) → TalksOn (IsMadeSo (C.gives service.now.clock.now) (SomeShut K.shut)) service.now.id
        (answered_by cursor.now (Some ended) (frame.now ∷ [])) (halt_phase result)
        (account pass (link_account L.Link link.old)) (account pass (link_account L.Link link.new)) }
{
    let wants = leave_at(cursor, Ended::WantOfMemory);
    tell_last(service, link, frame, ended, wants)
}

/// The code of a refusal.
fn code_in(frame: &ServerFrame) -> u8
    ensures { result ≡ code_in frame.now }
{
    match frame {
        ServerFrame::Refused { code, .. } => *code,
        ServerFrame::Sync { .. }
        | ServerFrame::Recv(_)
        | ServerFrame::Tick(_)
        | ServerFrame::Done { .. }
        | ServerFrame::Snapped { .. }
        | ServerFrame::Alive => 0,
    }
}

/// Refuses the first frame of a connection, which ends by it.
pub fn refuse<C: Clock, R: Wait, K: Keeper, L: Link>(
    service: &Service<'_, C, R, K>,
    link: &mut L,
    frame: &ServerFrame,
) -> Halt
    requires { FitsServer frame.now }
    ensures { (pass : PassState) → TalksOn (IsMadeSo (C.gives service.now.clock.now) (SomeShut K.shut)) service.now.id
        (refused_phase frame.now) (halt_phase result) (account pass (link_account L.Link link.old))
        (account pass (link_account L.Link link.new)) }
{
    let code = code_in(frame);
    let wants = Halt::Over(Ended::WantOfMemory);
    tell_last(service, link, frame, Ended::Refused { code }, wants)
}

/// The frame that refuses one that could not be read.
pub fn unread_frame() -> ServerFrame
    ensures { result ≡ unread_frame }
{
    ServerFrame::Refused {
        about: NO_TAG,
        code: RefusalCode::BadFrame.number(),
        kept: 0,
        more: 0,
    }
}
