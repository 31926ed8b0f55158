//! What a view does at a line.
ghost use Rattle.std.specs.Prelude.{◌≡◌, ◌≤◌, ◌<◌, ◌+◌, ℕ, List, [], ◌∷◌, None, Some, IfOk, OnOk};
ghost use Rattle.model_value.specs.Payload.{payload_spelling};
ghost use Rattle.model_value.specs.Plain.{InBounds};
ghost use Rattle.model_value.specs.View.{plain};
ghost use Rattle.tea_base.specs.Limits.{most_payload};
ghost use Rattle.replica_plain.specs.Calls.{snap_frame, unsent};
ghost use Rattle.replica.specs.View.{worlds_of};
ghost use Rattle.view_bridge.specs.Topics.{subscribes};
ghost use Rattle.view_script.specs.PlainLine.{LineFits, PlainLine, Mark, Publish, Settle, Show, WaitFor, Watch, payload_length, plain_line, line_publishes, most_publishes};
ghost use Rattle.view_shell.specs.Phases.{Receives, Sending, ToSnap, finish, run, vote_on};
ghost use Rattle.view_shell.specs.ViewText.{vote_missed_line};
ghost use Rattle.view_shell.specs.Viewers.{IsReady, KnowsItself, viewer};
ghost use Rattle.live_view.specs.Doing.{Comes, votes_at};

use crate::doing::{await_goal, leave, send, send_unsent, tell};
use crate::facts::seen_of;
use crate::input::{Goal, Place};
use crate::outcome::LiveOutcome;
use crate::texts::vote_missed_text;
use model_value::Value;
use replica_plain::How;
use tea_base::{Text, WantOfMemory};
use view_bridge::Handling;
use view_script::ViewLine;
use view_shell::{
    ViewEnd, Watcher, mark_line, publish as put_event, rest, snap_frame, time_after, world_text,
};

/// Publishes an event, and hears the link where too many are not acknowledged.
fn publish(
    watcher: &mut Watcher,
    out: &mut LiveOutcome,
    scope: &Text,
    event: &Text,
    value: &Value,
) -> Result<Option<Place>, WantOfMemory>
    requires ready { IsReady watcher.old }
    requires bounds { InBounds (plain value.now) }
    requires short { payload_length scope.now event.now (plain value.now) ≤ most_payload }
    requires room { watcher.old.published < most_publishes }
    ensures ready { OnOk result (IsReady watcher.new) }
    ensures knows { KnowsItself watcher.new }
    ensures count { OnOk result (watcher.new.published ≡ watcher.old.published + 1) }
    ensures waits { IfOk result (λ place. votes_at place ≡ 0) }
    ensures told { (address : List ℕ) (lines : List PlainLine) → IfOk result (λ place. Comes out.old out.new
        (run (viewer address watcher.old (Publish scope.now event.now (plain value.now) ∷ lines))
        (Publish scope.now event.now (plain value.now) ∷ lines)) (viewer address watcher.new lines) place) }
{
    match put_event(watcher, scope, event, value) {
        Ok(()) => {}
        Err(_) => return Err(WantOfMemory),
    }
    send_unsent(watcher, out)?;
    await_goal(watcher, out, Goal::CatchUp)
}

/// Watches a topic.
fn watch(
    watcher: &mut Watcher,
    out: &mut LiveOutcome,
    scope: &Text,
    event: &Text,
    handling: Handling,
) -> Result<(), WantOfMemory>
    requires ready { IsReady watcher.old }
    ensures ready { OnOk result (IsReady watcher.new) }
    ensures knows { KnowsItself watcher.new }
    ensures count { OnOk result (watcher.new.published ≡ watcher.old.published) }
    ensures told { (address : List ℕ) (lines : List PlainLine) → OnOk result (Comes out.old out.new
        (run (viewer address watcher.old (Watch scope.now event.now handling ∷ lines))
        (Watch scope.now event.now handling ∷ lines)) (viewer address watcher.new lines) None) }
{
    let scope = scope.try_clone()?;
    let event = event.try_clone()?;
    watcher.topics.subscribe(scope, event, handling)?;
    tell(watcher, out, "")
}

/// Offers a snapshot.
fn offer(watcher: &mut Watcher, out: &mut LiveOutcome) -> Result<Option<Place>, WantOfMemory>
    requires ready { IsReady watcher.old }
    ensures ready { OnOk result (IsReady watcher.new) }
    ensures knows { KnowsItself watcher.new }
    ensures count { OnOk result (watcher.new.published ≡ watcher.old.published) }
    ensures waits { IfOk result (λ place. votes_at place ≡ 0) }
    ensures told { (address : List ℕ) (lines : List PlainLine) → IfOk result (λ place. Comes out.old out.new
        (Sending (viewer address watcher.old lines)
        (snap_frame (worlds_of watcher.old.replica) watcher.old.replica.plain) [] (Receives ToSnap))
        (viewer address watcher.new lines) place) }
{
    let frame = match snap_frame(watcher) {
        Ok(frame) => frame,
        Err(_) => return Err(WantOfMemory),
    };
    send(watcher, out, &frame)?;
    Ok(Some(Place::Hears(Goal::Snap)))
}

/// Waits until each event is acknowledged.
fn settle(watcher: &mut Watcher, out: &mut LiveOutcome) -> Result<Option<Place>, WantOfMemory>
    requires ready { IsReady watcher.old }
    ensures ready { OnOk result (IsReady watcher.new) }
    ensures knows { KnowsItself watcher.new }
    ensures count { OnOk result (watcher.new.published ≡ watcher.old.published) }
    ensures waits { IfOk result (λ place. votes_at place ≡ 0) }
    ensures told { (address : List ℕ) (lines : List PlainLine) → IfOk result (λ place. Comes out.old out.new
        (run (viewer address watcher.old (Settle ∷ lines)) (Settle ∷ lines)) (viewer address watcher.new lines) place) }
{
    send_unsent(watcher, out)?;
    await_goal(watcher, out, Goal::Settle)
}

/// Waits for so long.
fn wait_for(
    watcher: &mut Watcher,
    out: &mut LiveOutcome,
    span: u64,
) -> Result<Option<Place>, WantOfMemory>
    requires ready { IsReady watcher.old }
    ensures ready { OnOk result (IsReady watcher.new) }
    ensures knows { KnowsItself watcher.new }
    ensures count { OnOk result (watcher.new.published ≡ watcher.old.published) }
    ensures waits { IfOk result (λ place. votes_at place ≡ 0) }
    ensures told { (address : List ℕ) (lines : List PlainLine) → IfOk result (λ place. Comes out.old out.new
        (run (viewer address watcher.old (WaitFor span ∷ lines)) (WaitFor span ∷ lines))
        (viewer address watcher.new lines) place) }
{
    let time = time_after(&watcher.replica, span);
    await_goal(watcher, out, Goal::Reach(time))
}

/// Prints a word.
fn mark(watcher: &mut Watcher, out: &mut LiveOutcome, word: &Text) -> Result<(), WantOfMemory>
    requires ready { IsReady watcher.old }
    ensures ready { OnOk result (IsReady watcher.new) }
    ensures knows { KnowsItself watcher.new }
    ensures count { OnOk result (watcher.new.published ≡ watcher.old.published) }
    ensures told { (address : List ℕ) (lines : List PlainLine) → OnOk result (Comes out.old out.new
        (run (viewer address watcher.old (Mark word.now ∷ lines)) (Mark word.now ∷ lines))
        (viewer address watcher.new lines) None) }
{
    let text = mark_line(watcher.alloc, word)?;
    tell(watcher, out, text.as_str())
}

/// Rests and tells what came of it, and then the world of the view.
fn show(watcher: &mut Watcher, out: &mut LiveOutcome) -> Result<(), WantOfMemory>
    requires ready { IsReady watcher.old }
    ensures ready { OnOk result (IsReady watcher.new) }
    ensures knows { KnowsItself watcher.new }
    ensures count { OnOk result (watcher.new.published ≡ watcher.old.published) }
    ensures told { (address : List ℕ) (lines : List PlainLine) → OnOk result (Comes out.old out.new
        (run (viewer address watcher.old (Show ∷ lines)) (Show ∷ lines)) (viewer address watcher.new lines) None) }
{
    match rest(watcher) {
        Ok(()) => {}
        Err(_) => return Err(WantOfMemory),
    }
    let text = world_text(watcher)?;
    tell(watcher, out, text.as_str())
}

/// Tells that a vote came too late.
fn miss_vote(watcher: &mut Watcher, out: &mut LiveOutcome, seen: u32) -> Result<(), WantOfMemory>
    requires ready { IsReady watcher.old }
    ensures ready { OnOk result (IsReady watcher.new) }
    ensures knows { KnowsItself watcher.new }
    ensures count { OnOk result (watcher.new.published ≡ watcher.old.published) }
    ensures told { (address : List ℕ) (lines : List PlainLine) → OnOk result (Comes out.old out.new
        (finish (viewer address watcher.old lines) (vote_missed_line seen)) (viewer address watcher.new lines) None) }
{
    let text = vote_missed_text(watcher.alloc, seen)?;
    tell(watcher, out, text.as_str())
}

/// Votes on an entry, unless the view has it already.
fn vote_on(
    watcher: &mut Watcher,
    out: &mut LiveOutcome,
    at: u32,
) -> Result<Option<Place>, WantOfMemory>
    requires ready { IsReady watcher.old }
    ensures ready { OnOk result (IsReady watcher.new) }
    ensures knows { KnowsItself watcher.new }
    ensures count { IfOk result (λ place. watcher.new.published + votes_at place ≤ watcher.old.published + 1) }
    ensures told { (address : List ℕ) (lines : List PlainLine) → IfOk result (λ place. Comes out.old out.new
        (vote_on (viewer address watcher.old lines) at) (viewer address watcher.new lines) place) }
{
    let seen = seen_of(&watcher.replica);
    if at <= seen {
        miss_vote(watcher, out, seen)?;
        return Ok(None);
    }
    Ok(Some(Place::Hears(Goal::See(at))))
}

/// Does a line: it is done, or the view waits.
pub fn run_line(
    watcher: &mut Watcher,
    out: &mut LiveOutcome,
    line: &ViewLine,
) -> Result<Option<Place>, WantOfMemory>
    requires ready { IsReady watcher.old }
    requires fits { LineFits (plain_line line.now) }
    requires room { watcher.old.published + line_publishes (plain_line line.now) ≤ most_publishes }
    ensures ready { OnOk result (IsReady watcher.new) }
    ensures knows { KnowsItself watcher.new }
    ensures count { IfOk result (λ place. watcher.new.published + votes_at place
        ≤ watcher.old.published + line_publishes (plain_line line.now)) }
    ensures told { (address : List ℕ) (lines : List PlainLine) → IfOk result (λ place. Comes out.old out.new
        (run (viewer address watcher.old (plain_line line.now ∷ lines)) (plain_line line.now ∷ lines))
        (viewer address watcher.new lines) place) }
{
    match line {
        ViewLine::Publish {
            scope,
            event,
            value,
        } => publish(watcher, out, scope, event, value),
        ViewLine::Watch {
            scope,
            event,
            handling,
        } => {
            watch(watcher, out, scope, event, *handling)?;
            Ok(None)
        }
        ViewLine::Wait { time } => await_goal(watcher, out, Goal::Reach(*time)),
        ViewLine::WaitFor { span } => wait_for(watcher, out, *span),
        ViewLine::Settle => settle(watcher, out),
        ViewLine::Snap => offer(watcher, out),
        ViewLine::Cut => Ok(Some(Place::Unlinked(How::Resume))),
        ViewLine::Quit => {
            leave(watcher, out)?;
            Ok(Some(Place::Gone(ViewEnd::Done)))
        }
        ViewLine::Mark { word } => {
            mark(watcher, out, word)?;
            Ok(None)
        }
        ViewLine::Vote { at } => vote_on(watcher, out, *at),
        ViewLine::Show => {
            show(watcher, out)?;
            Ok(None)
        }
    }
}
