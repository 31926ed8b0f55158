//! What a view does at what its link says.
ghost use Rattle.std.specs.Prelude.{◌≡◌, ◌≤◌, ◌+◌, ℕ, List, Some, IfOk};
ghost use Rattle.byte_fields.specs.Fields.{whole};
ghost use Rattle.wire_frames.specs.Reading.{server_at};
ghost use Rattle.view_script.specs.PlainLine.{PlainLine, most_publishes};
ghost use Rattle.view_shell.specs.Viewers.{IsReady, KnowsItself, viewer};
ghost use Rattle.live_view.specs.Live.{hears, joined_as as entry_in, link_ends as ends_link, or_joined as entry_or, synced_by};
ghost use Rattle.live_view.specs.Doing.{Comes, IsReadyAt, aim_of, votes_at, votes_for};

use crate::hearing::{hear_frame, hear_quiet};
use crate::input::{Goal, Place};
use crate::outcome::LiveOutcome;
use std::alloc::Global;
use tea_base::{Blob, WantOfMemory};
use tea_io::{Heard, MOST_QUIETS};
use view_shell::{ViewEnd, Watcher};
use wire_frames::{FrameFault, ServerFrame, read_server};

/// Whether the link is gone: it said so, a call of it failed, or it was quiet too often in a row.
pub fn link_ends(watcher: &Watcher, heard: &Heard) -> bool
    requires ready { IsReady watcher.now }
    ensures { (address : List ℕ) (lines : List PlainLine)
        → result ≡ ends_link (viewer address watcher.now lines) heard.now }
{
    match heard {
        Heard::Frame(_) => false,
        Heard::Quiet => watcher.quiets + 1 == MOST_QUIETS,
        Heard::End => true,
        Heard::Failed => true,
        Heard::WantOfMemory => false,
    }
}

/// The link said this: a line is done, or the view waits.
pub fn hear(
    watcher: &mut Watcher,
    out: &mut LiveOutcome,
    goal: Goal,
    heard: &Heard,
) -> Result<Option<Place>, WantOfMemory>
    requires ready { IsReady watcher.old }
    requires room { watcher.old.published + votes_for goal ≤ most_publishes }
    ensures ready { IfOk result (λ place. IsReadyAt place watcher.new) }
    ensures knows { KnowsItself watcher.new }
    ensures count { IfOk result (λ place. watcher.new.published + votes_at place
        ≤ watcher.old.published + votes_for goal) }
    ensures told { (address : List ℕ) (lines : List PlainLine) → IfOk result (λ place. Comes out.old out.new
        (hears (viewer address watcher.old lines) (aim_of goal) heard.now) (viewer address watcher.new lines) place) }
{
    match heard {
        Heard::Frame(bytes) => hear_frame(watcher, out, goal, bytes),
        Heard::Quiet => hear_quiet(watcher, out, goal),
        Heard::End => Ok(Some(Place::Gone(ViewEnd::Ended))),
        Heard::Failed => Ok(Some(Place::Gone(ViewEnd::NetFault))),
        Heard::WantOfMemory => Err(WantOfMemory),
    }
}

/// The entry by which a view joined, where a frame says it.
fn synced_by(frame: &ServerFrame) -> Option<u32>
    ensures { result ≡ synced_by (Some frame.now) }
{
    match frame {
        ServerFrame::Sync { joined, .. } => Some(*joined),
        _ => None,
    }
}

/// The entry by which a view joined, where bytes say it.
fn synced_in(alloc: Global, bytes: &Blob) -> Result<Option<u32>, WantOfMemory>
    ensures { IfOk result (λ joined. joined ≡ synced_by (whole server_at bytes.now)) }
{
    match read_server(alloc, bytes.bytes()) {
        Ok(frame) => Ok(synced_by(&frame)),
        Err(FrameFault::BadFrame) => Ok(None),
        Err(FrameFault::WantOfMemory) => Err(WantOfMemory),
    }
}

/// The entry by which a view joined, where it was said now, or else before.
pub fn or_joined(joined: Option<u32>, old: Option<u32>) -> Option<u32>
    ensures { result ≡ entry_or joined old }
{
    match joined {
        Some(joined) => Some(joined),
        None => old,
    }
}

/// The entry by which a view joined, where its link says it.
pub fn joined_as(alloc: Global, goal: Goal, heard: &Heard) -> Result<Option<u32>, WantOfMemory>
    ensures { IfOk result (λ joined. joined ≡ entry_in (aim_of goal) heard.now) }
{
    match heard {
        Heard::Frame(bytes) => match goal {
            Goal::Join(_) => synced_in(alloc, bytes),
            Goal::Reach(_) => Ok(None),
            Goal::Settle => Ok(None),
            Goal::CatchUp => Ok(None),
            Goal::Snap => Ok(None),
            Goal::See(_) => Ok(None),
        },
        Heard::Quiet => Ok(None),
        Heard::End => Ok(None),
        Heard::Failed => Ok(None),
        Heard::WantOfMemory => Ok(None),
    }
}
