//! What a view does at what its link says.
ghost use Rattle.std.specs.Prelude.{◌≡◌, ◌≤◌, ◌<◌, ◌+◌, ◌⊎◌, ℕ, nat_le, true, List, [], None, Some, IfOk, OnOk};
ghost use Rattle.byte_fields.specs.Fields.{whole};
ghost use Rattle.wire_frames.specs.Reading.{server_at};
ghost use Rattle.view_script.specs.PlainLine.{PlainLine, most_publishes};
ghost use Rattle.view_shell.specs.Phases.{Begins, Over, Phase, Receives, TellsText, Viewer, after_entry, after_frame, after_sync, bad_base, give_vote, go_on, heard_frame, heard_quiet, quiet, reads};
ghost use Rattle.view_shell.specs.Viewers.{HasHeard, IsReady, KnowsItself, viewer};
ghost use Rattle.view_shell.specs.ViewText.{snapped_line, snap_refused_line};
ghost use Rattle.live_view.specs.Doing.{Comes, IsReadyAt, aim_of, phase_at, votes_at, votes_for};

use crate::doing::{await_goal, send_unsent, stay_alive, tell};
use crate::facts::seen_of;
use crate::input::{Goal, Place};
use crate::outcome::LiveOutcome;
use crate::texts::{refused_text, rejoined_text, snapped_text, voted_text};
use replica_plain::How;
use tea_base::{Blob, WantOfMemory};
use tea_io::MOST_QUIETS;
use view_shell::{Stop, ViewEnd, Watcher, take, vote};
use wire_frames::ServerFrame;

/// The view goes on to hear its link for the same.
fn hear_on(
    watcher: &mut Watcher,
    out: &mut LiveOutcome,
    goal: Goal,
) -> Result<Option<Place>, WantOfMemory>
    requires heard { HasHeard watcher.old }
    ensures ready { OnOk result (IsReady watcher.new) }
    ensures knows { KnowsItself watcher.new }
    ensures count { IfOk result (λ place. watcher.new.published + votes_at place
        ≤ watcher.old.published + votes_for goal) }
    ensures told { (address : List ℕ) (lines : List PlainLine) → IfOk result (λ place. Comes out.old out.new
        (go_on (viewer address watcher.old lines) [] (Receives (aim_of goal)))
        (viewer address watcher.new lines) place) }
{
    stay_alive(watcher, out)?;
    await_goal(watcher, out, goal)
}

/// It is told that the snapshot is kept.
fn snapped(
    watcher: &mut Watcher,
    out: &mut LiveOutcome,
    time: u64,
) -> Result<Option<Place>, WantOfMemory>
    requires heard { HasHeard watcher.old }
    ensures ready { OnOk result (IsReady watcher.new) }
    ensures knows { KnowsItself watcher.new }
    ensures count { (votes : ℕ) → IfOk result (λ place. watcher.new.published + votes_at place
        ≤ watcher.old.published + votes) }
    ensures told { (address : List ℕ) (lines : List PlainLine) → IfOk result (λ place. Comes out.old out.new
        (go_on (viewer address watcher.old lines) [] (TellsText (snapped_line time)))
        (viewer address watcher.new lines) place) }
{
    stay_alive(watcher, out)?;
    let text = snapped_text(watcher.alloc, time)?;
    tell(watcher, out, text.as_str())?;
    Ok(None)
}

/// It is told that the snapshot is refused.
fn refused(
    watcher: &mut Watcher,
    out: &mut LiveOutcome,
    code: u8,
    kept: u64,
) -> Result<Option<Place>, WantOfMemory>
    requires heard { HasHeard watcher.old }
    ensures ready { OnOk result (IsReady watcher.new) }
    ensures knows { KnowsItself watcher.new }
    ensures count { (votes : ℕ) → IfOk result (λ place. watcher.new.published + votes_at place
        ≤ watcher.old.published + votes) }
    ensures told { (address : List ℕ) (lines : List PlainLine) → IfOk result (λ place. Comes out.old out.new
        (go_on (viewer address watcher.old lines) [] (TellsText (snap_refused_line code kept)))
        (viewer address watcher.new lines) place) }
{
    stay_alive(watcher, out)?;
    let text = refused_text(watcher.alloc, code, kept)?;
    tell(watcher, out, text.as_str())?;
    Ok(None)
}

/// A Sync was taken for the first time: the lines begin.
fn begun(watcher: &mut Watcher, out: &mut LiveOutcome) -> Result<Option<Place>, WantOfMemory>
    requires heard { HasHeard watcher.old }
    ensures ready { OnOk result (IsReady watcher.new) }
    ensures knows { KnowsItself watcher.new }
    ensures count { (votes : ℕ) → IfOk result (λ place. watcher.new.published + votes_at place
        ≤ watcher.old.published + votes) }
    ensures told { (address : List ℕ) (lines : List PlainLine) → IfOk result (λ place. Comes out.old out.new
        (go_on (viewer address watcher.old lines) [] Begins) (viewer address watcher.new lines) place) }
{
    stay_alive(watcher, out)?;
    Ok(None)
}

/// A Sync was taken behind a cut: what is not acknowledged is sent again.
fn rejoined(
    watcher: &mut Watcher,
    out: &mut LiveOutcome,
    joined: u32,
    from: u32,
) -> Result<Option<Place>, WantOfMemory>
    requires heard { HasHeard watcher.old }
    ensures ready { OnOk result (IsReady watcher.new) }
    ensures knows { KnowsItself watcher.new }
    ensures count { (votes : ℕ) → IfOk result (λ place. watcher.new.published + votes_at place
        ≤ watcher.old.published + votes) }
    ensures told { (address : List ℕ) (lines : List PlainLine) → IfOk result (λ place. Comes out.old out.new
        (after_sync (viewer address watcher.old lines) How.Resume joined from)
        (viewer address watcher.new lines) place) }
{
    stay_alive(watcher, out)?;
    send_unsent(watcher, out)?;
    let text = rejoined_text(watcher.alloc, joined, from)?;
    tell(watcher, out, text.as_str())?;
    Ok(None)
}

/// A Sync was taken.
fn synced(
    watcher: &mut Watcher,
    out: &mut LiveOutcome,
    how: How,
    joined: u32,
    from: u32,
) -> Result<Option<Place>, WantOfMemory>
    requires heard { HasHeard watcher.old }
    ensures ready { OnOk result (IsReady watcher.new) }
    ensures knows { KnowsItself watcher.new }
    ensures count { (votes : ℕ) → IfOk result (λ place. watcher.new.published + votes_at place
        ≤ watcher.old.published + votes) }
    ensures told { (address : List ℕ) (lines : List PlainLine) → IfOk result (λ place. Comes out.old out.new
        (after_sync (viewer address watcher.old lines) how joined from) (viewer address watcher.new lines) place) }
{
    match how {
        How::Fresh => begun(watcher, out),
        How::Whole => begun(watcher, out),
        How::Resume => rejoined(watcher, out, joined, from),
    }
}

/// A vote was published: it is sent and told.
fn give_vote(
    watcher: &mut Watcher,
    out: &mut LiveOutcome,
    at: u32,
) -> Result<Option<Place>, WantOfMemory>
    requires heard { HasHeard watcher.old }
    ensures ready { OnOk result (IsReady watcher.new) }
    ensures knows { KnowsItself watcher.new }
    ensures count { (votes : ℕ) → IfOk result (λ place. watcher.new.published + votes_at place
        ≤ watcher.old.published + votes) }
    ensures told { (address : List ℕ) (lines : List PlainLine) → IfOk result (λ place. Comes out.old out.new
        (give_vote (viewer address watcher.old lines) at) (viewer address watcher.new lines) place) }
{
    stay_alive(watcher, out)?;
    send_unsent(watcher, out)?;
    let text = voted_text(watcher.alloc, at, watcher.published)?;
    tell(watcher, out, text.as_str())?;
    Ok(None)
}

/// Votes on an entry that the view has now.
fn put_vote(
    watcher: &mut Watcher,
    out: &mut LiveOutcome,
    at: u32,
) -> Result<Option<Place>, WantOfMemory>
    requires heard { HasHeard watcher.old }
    requires room { watcher.old.published < most_publishes }
    ensures ready { OnOk result (IsReady watcher.new) }
    ensures knows { KnowsItself watcher.new }
    ensures count { IfOk result (λ place. watcher.new.published + votes_at place ≤ watcher.old.published + 1) }
    ensures told { (address : List ℕ) (lines : List PlainLine) → IfOk result (λ place. Comes out.old out.new
        (after_entry true (viewer address watcher.old lines) at) (viewer address watcher.new lines) place) }
{
    match vote(watcher, at) {
        Ok(()) => {}
        Err(_) => return Err(WantOfMemory),
    }
    give_vote(watcher, out, at)
}

/// A frame was taken by a view that hears its link for an entry. Directly after the entry it votes on it.
fn seen_on(
    watcher: &mut Watcher,
    out: &mut LiveOutcome,
    at: u32,
) -> Result<Option<Place>, WantOfMemory>
    requires heard { HasHeard watcher.old }
    requires room { watcher.old.published < most_publishes }
    ensures ready { OnOk result (IsReady watcher.new) }
    ensures knows { KnowsItself watcher.new }
    ensures count { IfOk result (λ place. watcher.new.published + votes_at place ≤ watcher.old.published + 1) }
    ensures told { (address : List ℕ) (lines : List PlainLine) → IfOk result (λ place. Comes out.old out.new
        (after_entry (nat_le at watcher.old.replica.plain.seen) (viewer address watcher.old lines) at)
        (viewer address watcher.new lines) place) }
{
    let seen = seen_of(&watcher.replica);
    if at <= seen {
        return put_vote(watcher, out, at);
    }
    hear_on(watcher, out, Goal::See(at))
}

/// A frame was taken.
fn behind(
    watcher: &mut Watcher,
    out: &mut LiveOutcome,
    goal: Goal,
    frame: &ServerFrame,
) -> Result<Option<Place>, WantOfMemory>
    requires heard { HasHeard watcher.old }
    requires room { watcher.old.published + votes_for goal ≤ most_publishes }
    ensures ready { OnOk result (IsReady watcher.new) }
    ensures knows { KnowsItself watcher.new }
    ensures count { IfOk result (λ place. watcher.new.published + votes_at place
        ≤ watcher.old.published + votes_for goal) }
    ensures told { (address : List ℕ) (lines : List PlainLine) → IfOk result (λ place. Comes out.old out.new
        (after_frame (viewer address watcher.old lines) (aim_of goal) frame.now)
        (viewer address watcher.new lines) place) }
{
    match goal {
        Goal::Join(how) => match frame {
            ServerFrame::Sync { joined, from, .. } => synced(watcher, out, how, *joined, *from),
            ServerFrame::Recv(_) => hear_on(watcher, out, goal),
            ServerFrame::Tick(_) => hear_on(watcher, out, goal),
            ServerFrame::Done { .. } => hear_on(watcher, out, goal),
            ServerFrame::Snapped { .. } => hear_on(watcher, out, goal),
            ServerFrame::Refused { .. } => hear_on(watcher, out, goal),
            ServerFrame::Alive => hear_on(watcher, out, goal),
        },
        Goal::Snap => match frame {
            ServerFrame::Sync { .. } => hear_on(watcher, out, goal),
            ServerFrame::Recv(_) => hear_on(watcher, out, goal),
            ServerFrame::Tick(_) => hear_on(watcher, out, goal),
            ServerFrame::Done { .. } => hear_on(watcher, out, goal),
            ServerFrame::Snapped { time } => snapped(watcher, out, *time),
            ServerFrame::Refused { code, kept, .. } => refused(watcher, out, *code, *kept),
            ServerFrame::Alive => hear_on(watcher, out, goal),
        },
        Goal::Reach(_) => hear_on(watcher, out, goal),
        Goal::Settle => hear_on(watcher, out, goal),
        Goal::CatchUp => hear_on(watcher, out, goal),
        Goal::See(at) => seen_on(watcher, out, at),
    }
}

/// Where a view stands that ends so. Want of memory is no end.
fn ended(end: ViewEnd) -> Result<Option<Place>, WantOfMemory>
    ensures at { IfOk result (λ place. place ≡ Some (Place.Gone end)) }
    ensures waits { IfOk result (λ place. votes_at place ≡ 0) }
    ensures not { IfOk result (λ _. end ≡ ViewEnd.WantOfMemory → ⊥) }
{
    match end {
        ViewEnd::WantOfMemory => Err(WantOfMemory),
        ViewEnd::Done => Ok(Some(Place::Gone(end))),
        ViewEnd::Refused { .. } => Ok(Some(Place::Gone(end))),
        ViewEnd::NetFault => Ok(Some(Place::Gone(end))),
        ViewEnd::Ended => Ok(Some(Place::Gone(end))),
        ViewEnd::Peer => Ok(Some(Place::Gone(end))),
        ViewEnd::WriteFault => Ok(Some(Place::Gone(end))),
    }
}

/// Where a view stands behind a base that is none.
fn without_base(goal: Goal) -> Place
    ensures at { (v : Viewer) (out : LiveOutcome) → Comes out out (bad_base v (aim_of goal)) v (Some result) }
    ensures waits { votes_at (Some result) ≡ 0 }
    ensures gone { (w : Watcher) → KnowsItself w → IsReadyAt (Some result) w }
{
    match goal {
        Goal::Join(How::Fresh) => Place::Unlinked(How::Whole),
        Goal::Join(How::Whole) => Place::Gone(ViewEnd::Peer),
        Goal::Join(How::Resume) => Place::Gone(ViewEnd::Peer),
        Goal::Reach(_) => Place::Gone(ViewEnd::Peer),
        Goal::Settle => Place::Gone(ViewEnd::Peer),
        Goal::Snap => Place::Gone(ViewEnd::Peer),
        Goal::CatchUp => Place::Gone(ViewEnd::Peer),
        Goal::See(_) => Place::Gone(ViewEnd::Peer),
    }
}

/// The link brought a frame.
pub fn hear_frame(
    watcher: &mut Watcher,
    out: &mut LiveOutcome,
    goal: Goal,
    bytes: &Blob,
) -> Result<Option<Place>, WantOfMemory>
    requires ready { IsReady watcher.old }
    requires room { watcher.old.published + votes_for goal ≤ most_publishes }
    ensures ready { IfOk result (λ place. IsReadyAt place watcher.new) }
    ensures knows { KnowsItself watcher.new }
    ensures count { IfOk result (λ place. watcher.new.published + votes_at place
        ≤ watcher.old.published + votes_for goal) }
    ensures told { (address : List ℕ) (lines : List PlainLine) → IfOk result (λ place. Comes out.old out.new
        (reads (heard_frame (viewer address watcher.old lines)) (aim_of goal) (whole server_at bytes.now))
        (viewer address watcher.new lines) place) }
{
    watcher.receives += 1;
    watcher.quiets = 0;
    match take(watcher, bytes) {
        Ok(frame) => behind(watcher, out, goal, &frame),
        Err(Stop::End(end)) => ended(end),
        Err(Stop::BadBase) => Ok(Some(without_base(goal))),
    }
}

/// The link was quiet.
pub fn hear_quiet(
    watcher: &mut Watcher,
    out: &mut LiveOutcome,
    goal: Goal,
) -> Result<Option<Place>, WantOfMemory>
    requires ready { IsReady watcher.old }
    ensures ready { IfOk result (λ place. IsReadyAt place watcher.new) }
    ensures knows { KnowsItself watcher.new }
    ensures count { IfOk result (λ place. watcher.new.published + votes_at place
        ≤ watcher.old.published + votes_for goal) }
    ensures told { (address : List ℕ) (lines : List PlainLine) → IfOk result (λ place. Comes out.old out.new
        (quiet (heard_quiet (viewer address watcher.old lines)) (aim_of goal))
        (viewer address watcher.new lines) place) }
{
    watcher.receives += 1;
    watcher.quiets += 1;
    if watcher.quiets == MOST_QUIETS {
        return Ok(Some(Place::Gone(ViewEnd::Ended)));
    }
    hear_on(watcher, out, goal)
}
