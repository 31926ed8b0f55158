//! The lines of a script, done one after the other on one link.
ghost use Rattle.std.specs.Prelude.{◌≡◌, ◌≤◌, ◌<◌, ◌+◌, ℕ, List, [], ◌∷◌, IfOk, IfErr, OnErr, OnOk, string_bytes};
ghost use Rattle.run_steps.specs.Outside.{Acts, PrintsText, Well, links_tell, output_tells, link_side, link_side_tells};
ghost use Rattle.wire_frames.specs.Frames.{FitsClient};
ghost use Rattle.replica_plain.specs.Calls.{snap_frame, takes_out, unsent};
ghost use Rattle.replica.specs.View.{with_plain, worlds_of};
ghost use Rattle.view_bridge.specs.Topics.{subscribes};
ghost use Rattle.view_script.specs.PlainLine.{LineFits, PlainLine, most_publishes, plain_line, plain_lines, line_publishes};
ghost use Rattle.std.specs.List.{AllByRecursion};
ghost use Rattle.view_shell.specs.Phases.{IsReadAsWorld, Over, Viewer, Receives, Receiving, Sending, TellsText, ToReach, ToSettle, ToCatchUp, ToSnap, ToSee, finish, after_giving, after_rest, leave_session, receive, rested, run, send_all, shown_text, time_after, vote_on, world_text};
ghost use Rattle.view_shell.specs.ViewText.{digested_view_line, mark_line as line_of_mark, numbers_line, view_line, vote_missed_line};
ghost use Rattle.view_shell.specs.Viewers.{HasRoomBehind, HasRoomFor, IsReady, KnowsItself, RestMayWant, viewer};
ghost use Rattle.view_shell.specs.Flows.{departure_phase, flow_of, flow_phase};
ghost use Rattle.view_shell.specs.ViewRun.{GoesOrStops, LinkActs, StopsPrinting};
ghost use Rattle.view_shell.specs.Hearing.{answer_line, rejoined_text, vote_told};

use crate::ending::ViewEnd;
use crate::hearing::{SnapAnswer, Synced, await_answer, await_entry, catch_up, reach, settle};
use crate::publishing::publish;
use crate::sending::{send, send_unsent};
use crate::showing::world_text;
use crate::text::{events_text, mark_line, numbers_line};
use crate::watcher::Watcher;
use replica::Replica;
use replica_plain::{How, ReplicaFault};
use run_steps::{CallFault, print_text};
use snapshot_codec::digest;
use std::sync::Wait;
use tea_base::{TIME_LIMIT, Text, WantOfMemory};
use tea_io::{Link, Sink};
use text_lines::spell_numbers;
use view_bridge::Handling;
use view_script::ViewLine;
use wire_frames::{ClientFrame, ServerFrame};

/// What comes of a line.
#[derive(Clone, Copy, Debug, PartialEq, Eq)]
pub enum LineOutcome {
    /// The script goes on.
    GoesOn,
    /// The link is cut.
    Cuts,
    /// The view has left.
    Leaves,
}

/// What comes of a link.
#[derive(Clone, Copy, Debug, PartialEq, Eq)]
pub enum Departure {
    /// Another one is made, on which the view joins so, and the script goes on behind so many lines.
    Again { how: How, count: usize },
    /// The view has left.
    Done,
}

// ---- printing

/// Prints a text. Of an empty one the output is not asked.
fn print<W: Sink>(out: &mut W, text: &[u8]) -> Result<(), ViewEnd>
    ensures ok { OnOk result (PrintsText (output_tells W.Sink) Well text.now out.old out.new) }
    ensures err { IfErr result (λ end. StopsPrinting (output_tells W.Sink) end text.now out.old out.new) }
{
    if text.is_empty() {
        return Ok(());
    }
    match print_text(out, text) {
        Ok(()) => Ok(()),
        Err(CallFault::Failed) => Err(ViewEnd::WriteFault),
        Err(CallFault::WantOfMemory) => Err(ViewEnd::WantOfMemory),
    }
}

/// The lines of the events that models published, as they are handled, and then a text.
pub fn shown_text(watcher: &mut Watcher, text: &str) -> Result<String, WantOfMemory>
    ensures kept { watcher.new ≡ record watcher.old {
      replica = with_plain watcher.old.replica
          (takes_out watcher.old.replica.plain);
    } }
    ensures shown { (address : List ℕ) (lines : List PlainLine)
        → IfOk result (λ shown. string_bytes shown ≡ shown_text (viewer address watcher.old lines) text.now) }
{
    let events = watcher.replica.take_out();
    let handled = watcher.topics.update(events)?;
    let mut shown = events_text(watcher.alloc, &handled)?;
    shown.push_str(text)?;
    Ok(shown)
}

/// A line of the script is done: the events are handled and told, and then the line's own text.
fn finish<W: Sink>(watcher: &mut Watcher, out: &mut W, text: &str) -> Result<(), ViewEnd>
    ensures kept { watcher.new ≡ record watcher.old {
      replica = with_plain watcher.old.replica
          (takes_out watcher.old.replica.plain);
    } }
    ensures ok { (address : List ℕ) (lines : List PlainLine)
        → OnOk result (PrintsText (output_tells W.Sink) Well
        (shown_text (viewer address watcher.old lines) text.now) out.old out.new) }
    ensures err { (address : List ℕ) (lines : List PlainLine)
        → IfErr result (λ end. StopsPrinting (output_tells W.Sink) end
        (shown_text (viewer address watcher.old lines) text.now) out.old out.new) }
{
    let shown = shown_text(watcher, text)?;
    print(out, shown.as_bytes())
}

/// A line of the script is done, with a text of a word and numbers.
fn finish_with<W: Sink>(
    watcher: &mut Watcher,
    out: &mut W,
    word: &str,
    numbers: &[u64],
) -> Result<(), ViewEnd>
    ensures kept { watcher.new ≡ record watcher.old { replica = watcher.new.replica } }
    ensures ok { OnOk result (watcher.new.replica
        ≡ with_plain watcher.old.replica (takes_out watcher.old.replica.plain)) }
    ensures printed { (address : List ℕ) (lines : List PlainLine)
        → OnOk result (PrintsText (output_tells W.Sink) Well
        (shown_text (viewer address watcher.old lines) (numbers_line word.now numbers.now)) out.old out.new) }
    ensures err { (address : List ℕ) (lines : List PlainLine)
        → IfErr result (λ end. StopsPrinting (output_tells W.Sink) end
        (shown_text (viewer address watcher.old lines) (numbers_line word.now numbers.now)) out.old out.new) }
{
    let text = numbers_line(watcher.alloc, word, numbers)?;
    finish(watcher, out, text.as_str())
}

/// Prints a word.
fn mark<W: Sink>(watcher: &mut Watcher, out: &mut W, word: &Text) -> Result<(), ViewEnd>
    requires ready { IsReady watcher.old }
    ensures kept { watcher.new ≡ record watcher.old { replica = watcher.new.replica } }
    ensures ready { OnOk result (IsReady watcher.new) }
    ensures ok { OnOk result (watcher.new.replica
        ≡ with_plain watcher.old.replica (takes_out watcher.old.replica.plain)) }
    ensures printed { (address : List ℕ) (lines : List PlainLine)
        → OnOk result (PrintsText (output_tells W.Sink) Well
        (shown_text (viewer address watcher.old lines) (line_of_mark word.now)) out.old out.new) }
    ensures err { (address : List ℕ) (lines : List PlainLine)
        → IfErr result (λ end. StopsPrinting (output_tells W.Sink) end
        (shown_text (viewer address watcher.old lines) (line_of_mark word.now)) out.old out.new) }
{
    let text = mark_line(watcher.alloc, word)?;
    finish(watcher, out, text.as_str())
}

// ---- lines

/// The time that comes so long after the replica's, or the last one that there is.
pub fn time_after(replica: &Replica, span: u64) -> u64
    ensures { result ≡ time_after replica.now.plain.world.time span }
{
    replica.time().saturating_add(span).min(TIME_LIMIT - 1)
}

/// Waits for a time.
fn wait<R: Wait, L: Link, W: Sink>(
    rt: &R,
    watcher: &mut Watcher,
    link: &mut L,
    out: &mut W,
    time: u64,
) -> Result<(), ViewEnd>
    requires ready { IsReady watcher.old }
    ensures kept { watcher.new ≡ record watcher.old {
      replica = watcher.new.replica;
      receives = watcher.new.receives;
      quiets = watcher.new.quiets;
    } }
    ensures ready { OnOk result (IsReady watcher.new) }
    ensures talk { (address : List ℕ) (lines : List PlainLine)
        → GoesOrStops (Acts (link_side_tells (output_tells W.Sink) (links_tell L.Link)))
        (receive (viewer address watcher.old lines) (ToReach time)) (λ _.
        run (viewer address watcher.new lines) lines) result (link_side out.old link.old) (link_side out.new link.new) }
{
    reach(rt, watcher, link, time)?;
    let time = watcher.replica.time();
    finish_with(watcher, out, "time", &[time])
}

/// Waits until each event is acknowledged.
fn await_settled<R: Wait, L: Link, W: Sink>(
    rt: &R,
    watcher: &mut Watcher,
    link: &mut L,
    out: &mut W,
) -> Result<(), ViewEnd>
    requires ready { IsReady watcher.old }
    ensures kept { watcher.new ≡ record watcher.old {
      replica = watcher.new.replica;
      receives = watcher.new.receives;
      quiets = watcher.new.quiets;
    } }
    ensures ready { OnOk result (IsReady watcher.new) }
    ensures talk { (address : List ℕ) (lines : List PlainLine)
        → GoesOrStops (Acts (link_side_tells (output_tells W.Sink) (links_tell L.Link)))
        (receive (viewer address watcher.old lines) ToSettle) (λ _. run (viewer address watcher.new lines) lines) result
        (link_side out.old link.old) (link_side out.new link.new) }
{
    settle(rt, watcher, link)?;
    let count = u64::from(watcher.published);
    finish_with(watcher, out, "settled", &[count])
}

/// The frame that offers the replica's snapshot. It fits its fields.
pub fn snap_frame(watcher: &Watcher) -> Result<ClientFrame, ViewEnd>
    ensures frame { IfOk result (λ frame. frame
        ≡ snap_frame (worlds_of watcher.now.replica) watcher.now.replica.plain) }
    ensures fits { IfOk result (λ frame. FitsClient frame) }
    ensures world { (address : List ℕ) (lines : List PlainLine)
        → IfOk result (λ frame. IsReadAsWorld (viewer address watcher.now lines) frame) }
    ensures want { IfErr result (λ end. end ≡ ViewEnd.WantOfMemory) }
{
    match watcher.replica.snap() {
        Ok(bytes) => Ok(ClientFrame::Snap {
            time: watcher.replica.time(),
            bytes,
        }),
        // A replica is broken for want of memory alone.
        Err(_) => Err(ViewEnd::WantOfMemory),
    }
}

/// Offers a snapshot, and waits for the answer.
fn offer<R: Wait, L: Link>(
    rt: &R,
    watcher: &mut Watcher,
    link: &mut L,
) -> Result<SnapAnswer, ViewEnd>
    requires ready { IsReady watcher.old }
    ensures kept { watcher.new ≡ record watcher.old {
      replica = watcher.new.replica;
      receives = watcher.new.receives;
      quiets = watcher.new.quiets;
    } }
    ensures ready { OnOk result (IsReady watcher.new) }
    ensures talk { (address : List ℕ) (lines : List PlainLine)
        → GoesOrStops (LinkActs (links_tell L.Link)) (Sending (viewer address watcher.old lines)
        (snap_frame (worlds_of watcher.old.replica) watcher.old.replica.plain) [] (Receives ToSnap)) (λ answer.
        finish (viewer address watcher.new lines) (answer_line answer)) result link.old link.new }
{
    let frame = snap_frame(watcher)?;
    send(watcher, link, &frame)?;
    await_answer(rt, watcher, link)
}

/// Tells the answer to a snapshot.
fn tell_answer<W: Sink>(
    watcher: &mut Watcher,
    out: &mut W,
    answer: SnapAnswer,
) -> Result<(), ViewEnd>
    ensures kept { watcher.new ≡ record watcher.old { replica = watcher.new.replica } }
    ensures ok { OnOk result (watcher.new.replica
        ≡ with_plain watcher.old.replica (takes_out watcher.old.replica.plain)) }
    ensures printed { (address : List ℕ) (lines : List PlainLine)
        → OnOk result (PrintsText (output_tells W.Sink) Well
        (shown_text (viewer address watcher.old lines) (answer_line answer)) out.old out.new) }
    ensures err { (address : List ℕ) (lines : List PlainLine)
        → IfErr result (λ end. StopsPrinting (output_tells W.Sink) end
        (shown_text (viewer address watcher.old lines) (answer_line answer)) out.old out.new) }
{
    match answer {
        SnapAnswer::Kept { time } => finish_with(watcher, out, "snapped", &[time]),
        SnapAnswer::Refused { code, kept } => {
            finish_with(watcher, out, "snap-refused", &[u64::from(code), kept])
        }
    }
}

/// Offers a snapshot, and tells the answer.
fn snap<R: Wait, L: Link, W: Sink>(
    rt: &R,
    watcher: &mut Watcher,
    link: &mut L,
    out: &mut W,
) -> Result<(), ViewEnd>
    requires ready { IsReady watcher.old }
    ensures kept { watcher.new ≡ record watcher.old {
      replica = watcher.new.replica;
      receives = watcher.new.receives;
      quiets = watcher.new.quiets;
    } }
    ensures ready { OnOk result (IsReady watcher.new) }
    ensures talk { (address : List ℕ) (lines : List PlainLine)
        → GoesOrStops (Acts (link_side_tells (output_tells W.Sink) (links_tell L.Link)))
        (Sending (viewer address watcher.old lines)
        (snap_frame (worlds_of watcher.old.replica) watcher.old.replica.plain) [] (Receives ToSnap)) (λ _.
        run (viewer address watcher.new lines) lines) result (link_side out.old link.old) (link_side out.new link.new) }
{
    let answer = offer(rt, watcher, link)?;
    tell_answer(watcher, out, answer)
}

/// Hears the link where too many events are not acknowledged, and goes on.
fn await_answers<R: Wait, L: Link, W: Sink>(
    rt: &R,
    watcher: &mut Watcher,
    link: &mut L,
    out: &mut W,
) -> Result<(), ViewEnd>
    requires ready { IsReady watcher.old }
    ensures kept { watcher.new ≡ record watcher.old {
      replica = watcher.new.replica;
      receives = watcher.new.receives;
      quiets = watcher.new.quiets;
    } }
    ensures ready { OnOk result (IsReady watcher.new) }
    ensures talk { (address : List ℕ) (lines : List PlainLine)
        → GoesOrStops (Acts (link_side_tells (output_tells W.Sink) (links_tell L.Link)))
        (receive (viewer address watcher.old lines) ToCatchUp) (λ _.
        run (viewer address watcher.new lines) lines) result (link_side out.old link.old) (link_side out.new link.new) }
{
    catch_up(rt, watcher, link)?;
    finish(watcher, out, "")
}

/// Sends the events that were not given yet, and hears the link where too many are not acknowledged.
fn send_and_hear<R: Wait, L: Link, W: Sink>(
    rt: &R,
    watcher: &mut Watcher,
    link: &mut L,
    out: &mut W,
) -> Result<(), ViewEnd>
    requires ready { IsReady watcher.old }
    ensures kept { watcher.new ≡ record watcher.old {
      replica = watcher.new.replica;
      receives = watcher.new.receives;
      quiets = watcher.new.quiets;
    } }
    ensures ready { OnOk result (IsReady watcher.new) }
    ensures talk { (address : List ℕ) (lines : List PlainLine)
        → GoesOrStops (Acts (link_side_tells (output_tells W.Sink) (links_tell L.Link)))
        (send_all (after_giving (viewer address watcher.old lines)) (unsent watcher.old.replica.plain)
        (Receives ToCatchUp)) (λ _. run (viewer address watcher.new lines) lines) result (link_side out.old link.old)
        (link_side out.new link.new) }
{
    send_unsent(watcher, link)?;
    await_answers(rt, watcher, link, out)
}

/// Tells that the view has joined again, or nothing of its own.
fn tell_synced<W: Sink>(
    watcher: &mut Watcher,
    out: &mut W,
    synced: Option<Synced>,
) -> Result<(), ViewEnd>
    ensures kept { watcher.new ≡ record watcher.old { replica = watcher.new.replica } }
    ensures ok { OnOk result (watcher.new.replica
        ≡ with_plain watcher.old.replica (takes_out watcher.old.replica.plain)) }
    ensures printed { (address : List ℕ) (lines : List PlainLine)
        → OnOk result (PrintsText (output_tells W.Sink) Well
        (shown_text (viewer address watcher.old lines) (rejoined_text synced)) out.old out.new) }
    ensures err { (address : List ℕ) (lines : List PlainLine)
        → IfErr result (λ end. StopsPrinting (output_tells W.Sink) end
        (shown_text (viewer address watcher.old lines) (rejoined_text synced)) out.old out.new) }
{
    match synced {
        None => finish(watcher, out, ""),
        Some(Synced { joined, from }) => {
            finish_with(
                watcher,
                out,
                "rejoined",
                &[u64::from(joined), u64::from(from)],
            )
        }
    }
}

/// Sends the events that were not given yet, and tells the line that the script is at.
pub fn send_and_tell<L: Link, W: Sink>(
    watcher: &mut Watcher,
    link: &mut L,
    out: &mut W,
    synced: Option<Synced>,
) -> Result<(), ViewEnd>
    requires ready { IsReady watcher.old }
    ensures kept { watcher.new ≡ record watcher.old {
      replica = watcher.new.replica;
      receives = watcher.new.receives;
      quiets = watcher.new.quiets;
    } }
    ensures ready { OnOk result (IsReady watcher.new) }
    ensures talk { (address : List ℕ) (lines : List PlainLine)
        → GoesOrStops (Acts (link_side_tells (output_tells W.Sink) (links_tell L.Link)))
        (send_all (after_giving (viewer address watcher.old lines)) (unsent watcher.old.replica.plain)
        (TellsText (rejoined_text synced))) (λ _. run (viewer address watcher.new lines) lines) result
        (link_side out.old link.old) (link_side out.new link.new) }
{
    send_unsent(watcher, link)?;
    tell_synced(watcher, out, synced)
}

/// Watches a topic.
fn watch<W: Sink>(
    watcher: &mut Watcher,
    out: &mut W,
    scope: &Text,
    event: &Text,
    handling: Handling,
) -> Result<(), ViewEnd>
    requires ready { IsReady watcher.old }
    ensures kept { watcher.new ≡ record watcher.old { replica = watcher.new.replica; topics = watcher.new.topics } }
    ensures ready { OnOk result (IsReady watcher.new) }
    ensures topics { OnOk result (watcher.new.topics ≡ subscribes watcher.old.topics scope.now event.now handling) }
    ensures ok { OnOk result (watcher.new.replica
        ≡ with_plain watcher.old.replica (takes_out watcher.old.replica.plain)) }
    ensures printed { (v : Viewer) → v.topics ≡ subscribes watcher.old.topics scope.now event.now handling
        → v.replica ≡ watcher.old.replica.plain
        → OnOk result (PrintsText (output_tells W.Sink) Well (shown_text v []) out.old out.new) }
    ensures err { (v : Viewer) → v.topics ≡ subscribes watcher.old.topics scope.now event.now handling
        → v.replica ≡ watcher.old.replica.plain
        → IfErr result (λ end. StopsPrinting (output_tells W.Sink) end (shown_text v []) out.old out.new) }
{
    let (scope, event) = match (scope.try_clone(), event.try_clone()) {
        (Ok(scope), Ok(event)) => (scope, event),
        _ => return Err(ViewEnd::WantOfMemory),
    };
    watcher.topics.subscribe(scope, event, handling)?;
    finish(watcher, out, "")
}

/// Tells that a vote came too late.
fn miss_vote<W: Sink>(watcher: &mut Watcher, out: &mut W) -> Result<(), ViewEnd>
    requires ready { IsReady watcher.old }
    ensures kept { watcher.new ≡ record watcher.old { replica = watcher.new.replica } }
    ensures ready { OnOk result (IsReady watcher.new) }
    ensures ok { OnOk result (watcher.new.replica
        ≡ with_plain watcher.old.replica (takes_out watcher.old.replica.plain)) }
    ensures printed { (address : List ℕ) (lines : List PlainLine)
        → OnOk result (PrintsText (output_tells W.Sink) Well
        (shown_text (viewer address watcher.old lines) (vote_missed_line watcher.old.replica.plain.seen)) out.old
        out.new) }
    ensures err { (address : List ℕ) (lines : List PlainLine)
        → IfErr result (λ end. StopsPrinting (output_tells W.Sink) end
        (shown_text (viewer address watcher.old lines) (vote_missed_line watcher.old.replica.plain.seen)) out.old
        out.new) }
{
    let seen = watcher.replica.seen();
    finish_with(watcher, out, "vote-missed", &[u64::from(seen)])
}

/// Sends a vote, and tells it.
fn tell_vote<L: Link, W: Sink>(
    watcher: &mut Watcher,
    link: &mut L,
    out: &mut W,
    at: u32,
) -> Result<(), ViewEnd>
    requires ready { IsReady watcher.old }
    ensures kept { watcher.new ≡ record watcher.old { replica = watcher.new.replica; receives = watcher.new.receives } }
    ensures ready { OnOk result (IsReady watcher.new) }
    ensures talk { (address : List ℕ) (lines : List PlainLine)
        → GoesOrStops (Acts (link_side_tells (output_tells W.Sink) (links_tell L.Link)))
        (vote_told (viewer address watcher.old lines) at) (λ _. run (viewer address watcher.new lines) lines) result
        (link_side out.old link.old) (link_side out.new link.new) }
{
    send_unsent(watcher, link)?;
    let number = u64::from(watcher.published);
    finish_with(watcher, out, "voted", &[u64::from(at), number])
}

/// Hears the link until the view has an entry, and votes on it directly after it.
fn await_vote<R: Wait, L: Link, W: Sink>(
    rt: &R,
    watcher: &mut Watcher,
    link: &mut L,
    out: &mut W,
    at: u32,
) -> Result<(), ViewEnd>
    requires ready { IsReady watcher.old }
    requires room { watcher.old.published < most_publishes }
    ensures ready { OnOk result (IsReady watcher.new) }
    ensures count { OnOk result (watcher.new.published ≡ watcher.old.published + 1) }
    ensures talk { (address : List ℕ) (lines : List PlainLine)
        → GoesOrStops (Acts (link_side_tells (output_tells W.Sink) (links_tell L.Link)))
        (Receiving (viewer address watcher.old lines) (ToSee at)) (λ _.
        run (viewer address watcher.new lines) lines) result (link_side out.old link.old) (link_side out.new link.new) }
{
    await_entry(rt, watcher, link, at)?;
    tell_vote(watcher, link, out, at)
}

/// Votes on an entry, unless the view has it already.
fn vote_on<R: Wait, L: Link, W: Sink>(
    rt: &R,
    watcher: &mut Watcher,
    link: &mut L,
    out: &mut W,
    at: u32,
) -> Result<(), ViewEnd>
    requires ready { IsReady watcher.old }
    requires room { watcher.old.published < most_publishes }
    ensures ready { OnOk result (IsReady watcher.new) }
    ensures count { OnOk result (watcher.new.published ≤ watcher.old.published + 1) }
    ensures talk { (address : List ℕ) (lines : List PlainLine)
        → GoesOrStops (Acts (link_side_tells (output_tells W.Sink) (links_tell L.Link)))
        (vote_on (viewer address watcher.old lines) at) (λ _. run (viewer address watcher.new lines) lines) result
        (link_side out.old link.old) (link_side out.new link.new) }
{
    if at <= watcher.replica.seen() {
        return miss_vote(watcher, out);
    }
    await_vote(rt, watcher, link, out, at)
}

// ---- leaving

/// The last line, with the digest of the replica's snapshot.
fn view_line(watcher: &Watcher, digest: &[u8; 32]) -> Result<String, WantOfMemory>
    requires knows { KnowsItself watcher.now }
    ensures { IfOk result (λ line. string_bytes line ≡ digested_view_line watcher.now.replica.plain digest.now) }
{
    let mut line = spell_numbers(watcher.alloc, "view", &[u64::from(watcher.view)])?;
    let time = spell_numbers(watcher.alloc, " time", &[watcher.replica.time()])?;
    let seen = spell_numbers(watcher.alloc, " seq", &[u64::from(watcher.replica.seen())])?;
    line.push_str(time.as_str())?;
    line.push_str(seen.as_str())?;
    line.push_str(" digest ")?;
    line.push_str(hex::encode(watcher.alloc, digest.as_slice())?.as_str())?;
    line.push_str("\n")?;
    Ok(line)
}

/// The last line.
pub fn last_line(watcher: &Watcher) -> Result<String, WantOfMemory>
    requires knows { KnowsItself watcher.now }
    ensures { IfOk result (λ line. string_bytes line ≡ view_line watcher.now.replica.plain) }
{
    match watcher.replica.snap() {
        Ok(snapshot) => view_line(watcher, &digest(snapshot.bytes())),
        // A replica is broken for want of memory alone.
        Err(_) => Err(WantOfMemory),
    }
}

/// Takes a tick of its own time, so that nothing is due at that time: the world is then the replay of the log to it. A view that has not
/// joined stays as it is. It fails only where memory broke the replica, or where the tick has no fault but may want memory.
pub fn rest(watcher: &mut Watcher) -> Result<(), ViewEnd>
    requires ready { IsReady watcher.old }
    ensures kept { watcher.new ≡ record watcher.old { replica = watcher.new.replica } }
    ensures rests { OnOk result (watcher.new.replica
        ≡ with_plain watcher.old.replica (rested (worlds_of watcher.old.replica) watcher.old.replica.plain)) }
    ensures ready { OnOk result (IsReady watcher.new) }
    ensures knows { KnowsItself watcher.new }
    ensures want { IfErr result (λ end. end ≡ ViewEnd.WantOfMemory) }
    ensures cause { OnErr result (RestMayWant watcher.old.replica) }
{
    if watcher.replica.broken() {
        return Err(ViewEnd::WantOfMemory);
    }
    let time = watcher.replica.time();
    match watcher.replica.take(&ServerFrame::Tick(time)) {
        Ok(()) => Ok(()),
        Err(ReplicaFault::Unasked) => Ok(()),
        Err(ReplicaFault::WantOfMemory) => Err(ViewEnd::WantOfMemory),
        Err(ReplicaFault::OutOfOrder { .. }) => unreachable!(),
        Err(ReplicaFault::Back { .. }) => unreachable!(),
        Err(ReplicaFault::BadBase) => unreachable!(),
        Err(ReplicaFault::Broken) => unreachable!(),
        Err(ReplicaFault::Refused { .. }) => unreachable!(),
    }
}

/// Rests, and tells the events that models published by that.
fn rest_and_tell<W: Sink>(watcher: &mut Watcher, out: &mut W) -> Result<(), ViewEnd>
    requires ready { IsReady watcher.old }
    ensures kept { watcher.new ≡ record watcher.old { replica = watcher.new.replica } }
    ensures ready { OnOk result (IsReady watcher.new) }
    ensures ok { OnOk result (watcher.new.replica
        ≡ with_plain watcher.old.replica
        (takes_out (rested (worlds_of watcher.old.replica) watcher.old.replica.plain))) }
    ensures printed { (address : List ℕ) (lines : List PlainLine)
        → OnOk result (PrintsText (output_tells W.Sink) Well
        (shown_text (after_rest (viewer address watcher.old lines)) []) out.old out.new) }
    ensures err { (address : List ℕ) (lines : List PlainLine)
        → IfErr result (λ end. StopsPrinting (output_tells W.Sink) end
        (shown_text (after_rest (viewer address watcher.old lines)) []) out.old out.new) }
{
    rest(watcher)?;
    finish(watcher, out, "")
}

/// Rests and tells what came of it, and then the world of the view.
fn show<W: Sink>(watcher: &mut Watcher, out: &mut W) -> Result<(), ViewEnd>
    requires ready { IsReady watcher.old }
    ensures kept { watcher.new ≡ record watcher.old { replica = watcher.new.replica } }
    ensures ready { OnOk result (IsReady watcher.new) }
    ensures ok { OnOk result (watcher.new.replica
        ≡ with_plain watcher.old.replica
        (takes_out (rested (worlds_of watcher.old.replica) watcher.old.replica.plain))) }
    ensures printed { (address : List ℕ) (lines : List PlainLine)
        → OnOk result (PrintsText (output_tells W.Sink) Well (shown_text (after_rest (viewer address watcher.old lines))
        (world_text (after_rest (viewer address watcher.old lines)))) out.old out.new) }
    ensures err { (address : List ℕ) (lines : List PlainLine)
        → IfErr result (λ end. StopsPrinting (output_tells W.Sink) end
        (shown_text (after_rest (viewer address watcher.old lines))
        (world_text (after_rest (viewer address watcher.old lines)))) out.old out.new) }
{
    rest(watcher)?;
    let text = world_text(watcher)?;
    finish(watcher, out, text.as_str())
}

/// Rests and tells what came of it, leaves the session, and tells the last line.
fn leave<L: Link, W: Sink>(watcher: &mut Watcher, link: &mut L, out: &mut W) -> Result<(), ViewEnd>
    requires ready { IsReady watcher.old }
    ensures kept { watcher.new ≡ record watcher.old { receives = watcher.new.receives; replica = watcher.new.replica } }
    ensures ready { OnOk result (IsReady watcher.new) }
    ensures talk { (address : List ℕ) (lines : List PlainLine)
        → GoesOrStops (Acts (link_side_tells (output_tells W.Sink) (links_tell L.Link)))
        (leave_session (viewer address watcher.old lines)) (λ _. Over ViewEnd.Done) result (link_side out.old link.old)
        (link_side out.new link.new) }
{
    rest_and_tell(watcher, out)?;
    send(watcher, link, &ClientFrame::Leave)?;
    let line = last_line(watcher)?;
    print(out, line.as_bytes())
}

// ---- a script

/// What comes of a line that was done so.
fn flow_of(done: Result<(), ViewEnd>) -> Result<LineOutcome, ViewEnd>
    ensures { result ≡ flow_of done }
{
    done?;
    Ok(LineOutcome::GoesOn)
}

/// Does a line.
fn run_line<R: Wait, L: Link, W: Sink>(
    rt: &R,
    watcher: &mut Watcher,
    line: &ViewLine,
    link: &mut L,
    out: &mut W,
) -> Result<LineOutcome, ViewEnd>
    requires ready { IsReady watcher.old }
    requires fits { LineFits (plain_line line.now) }
    requires room { watcher.old.published + line_publishes (plain_line line.now) ≤ most_publishes }
    ensures ready { OnOk result (IsReady watcher.new) }
    ensures count { OnOk result (watcher.new.published ≤ watcher.old.published + line_publishes (plain_line line.now)) }
    ensures talk { (address : List ℕ) (lines : List PlainLine)
        → GoesOrStops (Acts (link_side_tells (output_tells W.Sink) (links_tell L.Link)))
        (run (viewer address watcher.old (plain_line line.now ∷ lines)) (plain_line line.now ∷ lines)) (λ flow.
        flow_phase (viewer address watcher.new lines) lines flow) result (link_side out.old link.old)
        (link_side out.new link.new) }
{
    match line {
        ViewLine::Publish {
            scope,
            event,
            value,
        } => {
            publish(watcher, scope, event, value)?;
            flow_of(send_and_hear(rt, watcher, link, out))
        }
        ViewLine::Watch {
            scope,
            event,
            handling,
        } => flow_of(watch(watcher, out, scope, event, *handling)),
        ViewLine::Wait { time } => flow_of(wait(rt, watcher, link, out, *time)),
        ViewLine::WaitFor { span } => {
            let time = time_after(&watcher.replica, *span);
            flow_of(wait(rt, watcher, link, out, time))
        }
        ViewLine::Settle => {
            send_unsent(watcher, link)?;
            flow_of(await_settled(rt, watcher, link, out))
        }
        ViewLine::Snap => flow_of(snap(rt, watcher, link, out)),
        ViewLine::Cut => Ok(LineOutcome::Cuts),
        ViewLine::Quit => {
            leave(watcher, link, out)?;
            Ok(LineOutcome::Leaves)
        }
        ViewLine::Mark { word } => flow_of(mark(watcher, out, word)),
        ViewLine::Vote { at } => flow_of(vote_on(rt, watcher, link, out, *at)),
        ViewLine::Show => flow_of(show(watcher, out)),
    }
}

/// Does lines of a script, up to a cut.
pub fn run_lines<R: Wait, L: Link, W: Sink>(
    rt: &R,
    watcher: &mut Watcher,
    lines: &[ViewLine],
    link: &mut L,
    out: &mut W,
) -> Result<Departure, ViewEnd>
    requires ready { IsReady watcher.old }
    requires fit { AllByRecursion LineFits (plain_lines lines.now) }
    requires room { HasRoomFor watcher.old (plain_lines lines.now) }
    ensures knows { OnOk result (KnowsItself watcher.new) }
    ensures room { IfOk result (λ departure. HasRoomBehind departure watcher.new (plain_lines lines.now)) }
    ensures talk { (address : List ℕ)
        → GoesOrStops (Acts (link_side_tells (output_tells W.Sink) (links_tell L.Link)))
        (run (viewer address watcher.old (plain_lines lines.now)) (plain_lines lines.now)) (λ departure.
        departure_phase (viewer address watcher.new) (plain_lines lines.now) departure) result
        (link_side out.old link.old) (link_side out.new link.new) }
{
    for place in 0..lines.len() {
        match run_line(rt, watcher, &lines[place], link, out)? {
            LineOutcome::GoesOn => {}
            LineOutcome::Cuts => {
                return Ok(Departure::Again {
                    how: How::Resume,
                    count: place + 1,
                });
            }
            LineOutcome::Leaves => return Ok(Departure::Done),
        }
    }
    leave(watcher, link, out)?;
    Ok(Departure::Done)
}
