//! What a step sends and prints.
ghost use Rattle.std.specs.Prelude.{◌≡◌, ◌<◌, ◌≤◌, ℕ, List, [], Some, None, IfOk, OnOk};
ghost use Rattle.std.specs.List.{AllByRecursion};
ghost use Rattle.wire_frames.specs.Frames.{FitsClient};
ghost use Rattle.wire_frames.specs.declared.frame.ClientFrame.{ClientFrame as Frame};
ghost use Rattle.replica_plain.specs.Calls.{gives, takes_out, unsent};
ghost use Rattle.replica.specs.View.{with_plain};
ghost use Rattle.view_script.specs.PlainLine.{PlainLine};
ghost use Rattle.view_shell.specs.Phases.{Sending, Task, ToCatchUp, ToReach, ToSettle, Viewer, after_giving, finish, go_on, leave_session, receive, send_all};
ghost use Rattle.view_shell.specs.Viewers.{HasHeard, IsReady, KnowsItself, viewer};
ghost use Rattle.live_view.specs.Live.{Told, drive};
ghost use Rattle.live_view.specs.Doing.{Comes, Leads, after, aim_of, votes_at, votes_for};

use crate::facts::{is_settled, time_of};
use crate::input::{Goal, Place};
use crate::outcome::LiveOutcome;
use crate::texts::{settled_text, time_text};
use tea_base::WantOfMemory;
use view_shell::{MOST_RECEIVES, ViewEnd, Watcher, has_caught_up, last_line, rest, shown_text};
use wire_frames::{ClientFrame, typed_client, write_client};

/// Sends a frame that fits its fields.
pub fn send(
    watcher: &mut Watcher,
    out: &mut LiveOutcome,
    frame: &ClientFrame,
) -> Result<(), WantOfMemory>
    requires { FitsClient frame.now }
    ensures kept { watcher.new ≡ record watcher.old { receives = watcher.new.receives } }
    ensures sent { OnOk result (watcher.new.receives ≡ 0) }
    ensures knows { KnowsItself watcher.old → KnowsItself watcher.new }
    ensures talk { (v : Viewer) (frames : List Frame) (task : Task)
        → OnOk result (Leads out.old out.new (Sending v frame.now frames task)
        (send_all (record v { receives = 0 }) frames task)) }
{
    typed_client(frame); // for the prover
    let bytes = write_client(watcher.alloc, frame)?;
    out.frames.push(bytes)?;
    watcher.receives = 0;
    Ok(())
}

/// Sends frames in order.
fn send_frames(
    watcher: &mut Watcher,
    out: &mut LiveOutcome,
    frames: &[ClientFrame],
) -> Result<(), WantOfMemory>
    requires { AllByRecursion FitsClient frames.now }
    ensures kept { watcher.new ≡ record watcher.old { receives = watcher.new.receives } }
    ensures ready { IsReady watcher.old → OnOk result (IsReady watcher.new) }
    ensures knows { KnowsItself watcher.old → KnowsItself watcher.new }
    ensures talk { (v : Viewer) (task : Task) → v.receives ≡ watcher.old.receives
        → OnOk result (Leads out.old out.new (send_all v frames.now task)
        (send_all (record v { receives = watcher.new.receives }) [] task)) }
{
    for frame in frames {
        send(watcher, out, frame)?;
    }
    Ok(())
}

/// Sends the events that were not given yet.
pub fn send_unsent(watcher: &mut Watcher, out: &mut LiveOutcome) -> Result<(), WantOfMemory>
    ensures kept { watcher.new ≡ record watcher.old { receives = watcher.new.receives; replica = watcher.new.replica } }
    ensures replica { OnOk result (watcher.new.replica
        ≡ with_plain watcher.old.replica (gives watcher.old.replica.plain)) }
    ensures ready { IsReady watcher.old → OnOk result (IsReady watcher.new) }
    ensures knows { KnowsItself watcher.old → KnowsItself watcher.new }
    ensures talk { (address : List ℕ) (lines : List PlainLine) (task : Task) → OnOk result (Leads out.old out.new
        (send_all (after_giving (viewer address watcher.old lines)) (unsent watcher.old.replica.plain) task)
        (send_all (viewer address watcher.new lines) [] task)) }
{
    let frames = watcher.replica.unsent()?;
    send_frames(watcher, out, frames.as_slice())
}

/// A view that heard its link often enough and sent nothing says that it is alive.
pub fn stay_alive(watcher: &mut Watcher, out: &mut LiveOutcome) -> Result<(), WantOfMemory>
    requires heard { HasHeard watcher.old }
    ensures kept { watcher.new ≡ record watcher.old { receives = watcher.new.receives } }
    ensures ready { OnOk result (IsReady watcher.new) }
    ensures knows { KnowsItself watcher.new }
    ensures talk { (v : Viewer) (frames : List Frame) (task : Task) → v.receives ≡ watcher.old.receives
        → OnOk result (Leads out.old out.new
        (go_on v frames task) (send_all (record v { receives = watcher.new.receives }) frames task)) }
{
    if watcher.receives != MOST_RECEIVES {
        return Ok(());
    }
    send(watcher, out, &ClientFrame::Alive)
}

/// The events that models published are told as they are handled, and then a text.
pub fn tell(watcher: &mut Watcher, out: &mut LiveOutcome, text: &str) -> Result<(), WantOfMemory>
    ensures kept { watcher.new ≡ record watcher.old {
      replica = with_plain watcher.old.replica
          (takes_out watcher.old.replica.plain);
    } }
    ensures ready { IsReady watcher.old → IsReady watcher.new }
    ensures knows { KnowsItself watcher.old → KnowsItself watcher.new }
    ensures told { (address : List ℕ) (lines : List PlainLine)
        → OnOk result (Comes out.old out.new (finish (viewer address watcher.old lines) text.now)
        (viewer address watcher.new lines) None) }
{
    let shown = shown_text(watcher, text)?;
    out.text.push_str(shown.as_str())?;
    Ok(())
}

/// The link is to be heard until a time, unless it is that late already.
fn reach(
    watcher: &mut Watcher,
    out: &mut LiveOutcome,
    time: u64,
) -> Result<Option<Place>, WantOfMemory>
    requires ready { IsReady watcher.old }
    ensures kept { watcher.new ≡ record watcher.old { replica = watcher.new.replica } }
    ensures ready { OnOk result (IsReady watcher.new) }
    ensures knows { KnowsItself watcher.new }
    ensures waits { IfOk result (λ place. votes_at place ≡ 0) }
    ensures told { (address : List ℕ) (lines : List PlainLine)
        → IfOk result (λ place. Comes out.old out.new (receive (viewer address watcher.old lines) (ToReach time))
        (viewer address watcher.new lines) place) }
{
    let now = time_of(&watcher.replica);
    if time > now {
        return Ok(Some(Place::Hears(Goal::Reach(time))));
    }
    let text = time_text(watcher.alloc, now)?;
    tell(watcher, out, text.as_str())?;
    Ok(None)
}

/// The link is to be heard until each event is acknowledged, unless each is.
fn await_settled(
    watcher: &mut Watcher,
    out: &mut LiveOutcome,
) -> Result<Option<Place>, WantOfMemory>
    requires ready { IsReady watcher.old }
    ensures kept { watcher.new ≡ record watcher.old { replica = watcher.new.replica } }
    ensures ready { OnOk result (IsReady watcher.new) }
    ensures knows { KnowsItself watcher.new }
    ensures waits { IfOk result (λ place. votes_at place ≡ 0) }
    ensures told { (address : List ℕ) (lines : List PlainLine)
        → IfOk result (λ place. Comes out.old out.new (receive (viewer address watcher.old lines) ToSettle)
        (viewer address watcher.new lines) place) }
{
    if !is_settled(&watcher.replica) {
        return Ok(Some(Place::Hears(Goal::Settle)));
    }
    let text = settled_text(watcher.alloc, watcher.published)?;
    tell(watcher, out, text.as_str())?;
    Ok(None)
}

/// The link is to be heard until few enough events are not acknowledged, unless so few are.
fn catch_up(watcher: &mut Watcher, out: &mut LiveOutcome) -> Result<Option<Place>, WantOfMemory>
    requires ready { IsReady watcher.old }
    ensures kept { watcher.new ≡ record watcher.old { replica = watcher.new.replica } }
    ensures ready { OnOk result (IsReady watcher.new) }
    ensures knows { KnowsItself watcher.new }
    ensures waits { IfOk result (λ place. votes_at place ≡ 0) }
    ensures told { (address : List ℕ) (lines : List PlainLine)
        → IfOk result (λ place. Comes out.old out.new (receive (viewer address watcher.old lines) ToCatchUp)
        (viewer address watcher.new lines) place) }
{
    if !has_caught_up(&watcher.replica) {
        return Ok(Some(Place::Hears(Goal::CatchUp)));
    }
    tell(watcher, out, "")?;
    Ok(None)
}

/// The link is to be heard, unless what it is heard for is so already.
pub fn await_goal(
    watcher: &mut Watcher,
    out: &mut LiveOutcome,
    goal: Goal,
) -> Result<Option<Place>, WantOfMemory>
    requires ready { IsReady watcher.old }
    ensures kept { watcher.new ≡ record watcher.old { replica = watcher.new.replica } }
    ensures ready { OnOk result (IsReady watcher.new) }
    ensures knows { KnowsItself watcher.new }
    ensures waits { IfOk result (λ place. votes_at place ≤ votes_for goal) }
    ensures told { (address : List ℕ) (lines : List PlainLine)
        → IfOk result (λ place. Comes out.old out.new (receive (viewer address watcher.old lines) (aim_of goal))
        (viewer address watcher.new lines) place) }
{
    match goal {
        Goal::Join(_) => Ok(Some(Place::Hears(goal))),
        Goal::Reach(time) => reach(watcher, out, time),
        Goal::Settle => await_settled(watcher, out),
        Goal::CatchUp => catch_up(watcher, out),
        Goal::Snap => Ok(Some(Place::Hears(goal))),
        Goal::See(_) => Ok(Some(Place::Hears(goal))),
    }
}

/// Rests and tells what came of it, leaves the session, and tells the last line.
pub fn leave(watcher: &mut Watcher, out: &mut LiveOutcome) -> Result<(), WantOfMemory>
    requires ready { IsReady watcher.old }
    ensures ready { OnOk result (IsReady watcher.new) }
    ensures knows { KnowsItself watcher.new }
    ensures count { OnOk result (watcher.new.published ≡ watcher.old.published) }
    ensures told { (address : List ℕ) (lines : List PlainLine)
        → OnOk result (Comes out.old out.new (leave_session (viewer address watcher.old lines))
        (viewer address watcher.new lines) (Some (Place.Gone ViewEnd.Done))) }
{
    match rest(watcher) {
        Ok(()) => {}
        Err(_) => return Err(WantOfMemory),
    }
    tell(watcher, out, "")?;
    send(watcher, out, &ClientFrame::Leave)?;
    let line = last_line(watcher)?;
    out.text.push_str(line.as_str())?;
    Ok(())
}
