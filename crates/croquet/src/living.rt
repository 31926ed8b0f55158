//! The run of a live view, as a command asks for it.
ghost use Rattle.run_steps.specs.Outside.{files_tell, links_tell, net_tells, output_tells};
ghost use Rattle.live_shell.specs.LiveSteps.{feed_tells, live_tells};
ghost use Rattle.commands.specs.Work.{plain_live};
ghost use Rattle.croquet.specs.Calls.{LiveViewRan, TellsLiveEnd};
ghost use Rattle.croquet.specs.LiveEnds.{LiveEndsAreCaused};

use crate::status::Status;
use crate::telling::{tell, tell_view_end, tell_want_of_memory};
use commands::LiveStart;
use live_shell::{Feed, LiveEnd, LiveVisit, run_live};
use std::alloc::Global;
use std::sync::{Arc, Wait};
use tea_io::{Files, Net, Sink};
use view_follows::live_ends_are_caused;

/// Tells how the run of a live view has ended.
fn tell_live_end<W: Sink>(alloc: Global, out: &mut W, end: LiveEnd) -> Status
    ensures { TellsLiveEnd (output_tells W.Sink) end out.old out.new result }
{
    match end {
        LiveEnd::View(end) => tell_view_end(alloc, out, end),
        LiveEnd::ReadFault => tell(out, "read-fault\n", Status::ReadFault),
    }
}

/// Runs the live view that a command asks for, over the feed of its lines, and tells how it ends.
pub fn run_live_view<R: Wait, N: Net, K: Feed, W: Sink>(
    rt: &R,
    alloc: Global,
    start: LiveStart,
    net: &mut N,
    feed: &mut K,
    out: &mut W,
) -> Status
    ensures { LiveViewRan
        (live_tells (feed_tells K.Feed) (output_tells W.Sink) (net_tells N.Net) (links_tell N.Conn.Link))
        (plain_live start) feed.old feed.new out.old out.new net.old net.new result }
{
    let LiveStart {
        program,
        id,
        view,
        address,
    } = start;
    let Ok(program) = Arc::new(alloc, program) else {
        return tell_want_of_memory(out);
    };
    let visit = LiveVisit {
        program,
        id,
        view,
        address,
    };
    let end = run_live(rt, alloc, &visit, net, feed, out);
    tell_live_end(alloc, out, end)
}

/// Which links keep a live view's run from an end that is not its lines'.
pub(crate) fn live_runs_are_caused<F: Files, N: Net, K: Feed, W: Sink>()
    ensures { LiveEndsAreCaused (files_tell F.Files) (feed_tells K.Feed)
        (output_tells W.Sink) (net_tells N.Net) (links_tell N.Conn.Link) }
{
    live_ends_are_caused();
}
