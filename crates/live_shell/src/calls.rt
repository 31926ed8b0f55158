//! The calls of a live run: the feed is asked, frames are sent, a text is printed.
ghost use Rattle.std.specs.Prelude.{◌≡◌, ◌<◌, Bool, true, IfOk, OnErr};
ghost use Rattle.run_steps.specs.Calls.{came_of};
ghost use Rattle.run_steps.specs.Outside.{WantedMemory, Well, links_tell, output_tells};
ghost use Rattle.live_view.specs.Live.{one_fewer};
ghost use Rattle.live_shell.specs.Calls.{IsFed, PrintsSome, SendsAll, fed_by};
ghost use Rattle.live_shell.specs.LiveRun.{PausesBy};
ghost use Rattle.live_shell.specs.LiveSteps.{AsksFeed, HearsAny, feed_tells};

use crate::feed::{Fed, Feed};
use live_view::LiveInput;
use run_steps::{CallFault, print_text, send_frame};
use tea_base::{Blob, WantOfMemory};
use tea_io::{Heard, Link, Sink};

/// Asks the feed: what the view is to be told, if anything came.
pub fn ask<K: Feed>(feed: &mut K) -> Result<Option<LiveInput>, CallFault>
    ensures asked { AsksFeed (feed_tells K.Feed) (came_of result) (fed_by result) feed.old feed.new }
    ensures told { IfOk result IsFed }
{
    match feed.next() {
        Fed::Line(bytes) => Ok(Some(LiveInput::Line(bytes))),
        Fed::Nothing => Ok(None),
        Fed::Closed => Ok(Some(LiveInput::Closed)),
        Fed::Failed => Err(CallFault::Failed),
        Fed::WantOfMemory => Err(CallFault::WantOfMemory),
    }
}

/// What the link says.
pub fn hear<L: Link>(link: &mut L) -> Result<Heard, WantOfMemory>
    ensures well { IfOk result (λ what. HearsAny (links_tell L.Link) Well what link.old link.new) }
    ensures wanted { OnErr result (HearsAny (links_tell L.Link) WantedMemory Heard.Quiet link.old link.new) }
{
    match link.recv() {
        Heard::Frame(bytes) => Ok(Heard::Frame(bytes)),
        Heard::Quiet => Ok(Heard::Quiet),
        Heard::End => Ok(Heard::End),
        Heard::Failed => Ok(Heard::Failed),
        Heard::WantOfMemory => Err(WantOfMemory),
    }
}

/// Some time goes by, where a link fewer is to be made again than before.
pub fn pause_if<K: Feed>(feed: &mut K, before: u64, left: u64)
    ensures { (held : Bool) → (held ≡ true → 0 < before) → left ≡ one_fewer held before
        → PausesBy (feed_tells K.Feed) held feed.old feed.new }
{
    if left >= before {
        return;
    }
    feed.pause();
}

/// Sends frames in order.
pub fn send_frames<L: Link>(link: &mut L, frames: &[Blob]) -> Result<(), CallFault>
    ensures { SendsAll (links_tell L.Link) frames.now (came_of result) link.old link.new }
{
    for frame in frames {
        send_frame(link, frame.bytes())?;
    }
    Ok(())
}

/// Prints a text. Of an empty one the output is not asked.
pub fn print_some<W: Sink>(out: &mut W, text: &[u8]) -> Result<(), CallFault>
    ensures { PrintsSome (output_tells W.Sink) text.now (came_of result) out.old out.new }
{
    if text.is_empty() {
        return Ok(());
    }
    print_text(out, text)
}
