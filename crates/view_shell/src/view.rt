//! The run of a view.
ghost use Rattle.std.specs.Prelude.{◌≡◌, ◌<◌, ℕ, List, [], None, Some, IfOk, OnOk, MatchResult};
ghost use Rattle.std.specs.Arc.{arc_value};
ghost use Rattle.std.specs.List.{AllByRecursion};
ghost use Rattle.model_solved.specs.Founding.{founding_of};
ghost use Rattle.run_steps.specs.Outside.{Acts, net_side, net_side_tells, links_tell, net_tells, output_tells, link_side, link_side_tells};
ghost use Rattle.view_script.specs.PlainLine.{LineFits, PlainLine, plain_lines};
ghost use Rattle.view_shell.specs.Phases.{Connecting, ToJoin, enter_session, run};
ghost use Rattle.view_shell.specs.Viewers.{HasRoomBehind, HasRoomFor, IsReady, KnowsItself, first_phase, viewer};
ghost use Rattle.view_shell.specs.Flows.{bad_base_answer, departure_phase};
ghost use Rattle.view_shell.specs.ViewRun.{Goes, GoesOrStops, LinkActs, ViewRan};
ghost use Rattle.view_shell.specs.Hearing.{StopsHearing, synced_phase};

use crate::ending::ViewEnd;
use crate::hearing::{Stop, Synced, await_sync};
use crate::lines::{Departure, run_lines, send_and_tell};
use crate::sending::send;
use crate::watcher::Watcher;
use model_solved::Checked;
use replica::Replica;
use replica_plain::How;
use run_steps::{CallFault, connect};
use std::alloc::Global;
use std::sync::{Arc, Wait};
use tea_base::{SessionId, Text, WantOfMemory};
use tea_io::{Link, Net, Sink};
use view_bridge::ViewTopics;
use view_script::{ViewLine, ViewScript};

/// What a view is to do: which program it runs, in which session and as which view, where the session's reflector is, and its script.
#[derive(Drop)]
pub struct Visit {
    pub program: Arc<Checked, Global>,
    pub id: SessionId,
    /// Its number.
    pub view: u32,
    /// The address of the session's reflector.
    pub address: Text,
    pub script: ViewScript,
}

/// How a view joins on a link, and the lines that are left of its script.
#[derive(Clone, Copy)]
pub struct LinkPlan<'a> {
    pub how: How,
    pub lines: &'a [ViewLine],
}

/// Joins on a new link.
fn join<R: Wait, L: Link>(
    rt: &R,
    watcher: &mut Watcher,
    link: &mut L,
    how: How,
) -> Result<Synced, Stop>
    requires knows { KnowsItself watcher.old }
    ensures kept { watcher.new ≡ record watcher.old {
      replica = watcher.new.replica;
      receives = watcher.new.receives;
      quiets = watcher.new.quiets;
    } }
    ensures ready { OnOk result (IsReady watcher.new) }
    ensures knows { KnowsItself watcher.new }
    ensures talk { (address : List ℕ) (lines : List PlainLine) → MatchResult result
        (λ found. Goes (LinkActs (links_tell L.Link)) (enter_session (viewer address watcher.old lines) how)
        (synced_phase (viewer address watcher.new lines) how found) link.old link.new)
        (λ stop. StopsHearing (LinkActs (links_tell L.Link)) stop
        (enter_session (viewer address watcher.old lines) how) (viewer address watcher.new lines)
        (ToJoin how) link.old link.new) }
{
    // A replica is broken for want of memory alone.
    if watcher.replica.broken() {
        return Err(Stop::End(ViewEnd::WantOfMemory));
    }
    let frame = watcher.replica.join(how);
    watcher.quiets = 0;
    send(watcher, link, &frame)?;
    await_sync(rt, watcher, link)
}

/// The script of a view that joined begins; behind a cut what is not acknowledged is sent again, and told.
fn begin<L: Link, W: Sink>(
    watcher: &mut Watcher,
    link: &mut L,
    out: &mut W,
    how: How,
    found: Synced,
) -> Result<(), ViewEnd>
    requires ready { IsReady watcher.old }
    ensures ready { OnOk result (IsReady watcher.new) }
    ensures published { watcher.new.published ≡ watcher.old.published }
    ensures talk { (address : List ℕ) (lines : List PlainLine)
        → GoesOrStops (Acts (link_side_tells (output_tells W.Sink) (links_tell L.Link)))
        (synced_phase (viewer address watcher.old lines) how found) (λ _.
        run (viewer address watcher.new lines) lines) result (link_side out.old link.old) (link_side out.new link.new) }
{
    match how {
        How::Fresh | How::Whole => Ok(()),
        How::Resume => send_and_tell(watcher, link, out, Some(found)),
    }
}

/// What a view does on one link: it joins, and does its script up to a cut.
fn attend<R: Wait, L: Link, W: Sink>(
    rt: &R,
    watcher: &mut Watcher,
    entry: &LinkPlan<'_>,
    link: &mut L,
    out: &mut W,
) -> Result<Departure, ViewEnd>
    requires knows { KnowsItself watcher.old }
    requires fit { AllByRecursion LineFits (plain_lines entry.now.lines.now) }
    requires room { HasRoomFor watcher.old (plain_lines entry.now.lines.now) }
    ensures knows { OnOk result (KnowsItself watcher.new) }
    ensures room { IfOk result (λ departure. HasRoomBehind departure watcher.new (plain_lines entry.now.lines.now)) }
    ensures talk { (address : List ℕ)
        → GoesOrStops (Acts (link_side_tells (output_tells W.Sink) (links_tell L.Link)))
        (enter_session (viewer address watcher.old (plain_lines entry.now.lines.now)) entry.now.how) (λ departure.
        departure_phase (viewer address watcher.new) (plain_lines entry.now.lines.now) departure) result
        (link_side out.old link.old) (link_side out.new link.new) }
{
    let found = match join(rt, watcher, link, entry.how) {
        Ok(found) => found,
        Err(Stop::End(end)) => return Err(end),
        Err(Stop::BadBase) => return bad_base(entry.how),
    };
    begin(watcher, link, out, entry.how, found)?;
    run_lines(rt, watcher, entry.lines, link, out)
}

/// What comes of a base that is none: a view that joined for the first time asks for the whole log on another link.
fn bad_base(how: How) -> Result<Departure, ViewEnd>
    ensures { result ≡ bad_base_answer how }
{
    match how {
        How::Fresh => Ok(Departure::Again {
            how: How::Whole,
            count: 0,
        }),
        How::Whole | How::Resume => Err(ViewEnd::Peer),
    }
}

/// Goes from link to link until the run ends.
fn visit_links<R: Wait, N: Net, W: Sink>(
    rt: &R,
    watcher: &mut Watcher,
    visit: &Visit,
    net: &mut N,
    out: &mut W,
) -> ViewEnd
    requires knows { KnowsItself watcher.old }
    requires new { watcher.old.published ≡ 0 }
    ensures ran { ViewRan
        (net_side_tells (output_tells W.Sink) (net_tells N.Net) (links_tell N.Conn.Link))
        (Connecting (viewer visit.now.address watcher.old (plain_lines visit.now.script)) How.Fresh)
        result (net_side out.old net.old None) (net_side out.new net.new None) }
{
    let lines = visit.script.lines();
    let mut how = How::Fresh;
    let mut next = 0;
    for _ in rt.forever() {
        let mut link = match connect(net, &visit.address) {
            Ok(link) => link,
            Err(CallFault::Failed) => return ViewEnd::NetFault,
            Err(CallFault::WantOfMemory) => return ViewEnd::WantOfMemory,
        };
        let entry = LinkPlan {
            how,
            lines: &lines[next..],
        };
        let attended = attend(rt, watcher, &entry, &mut link, out);
        net.back(link);
        let departure = match attended {
            Ok(departure) => departure,
            Err(end) => return end,
        };
        match departure {
            Departure::Again { how: again, count } => {
                how = again;
                next += count;
            }
            Departure::Done => return ViewEnd::Done,
        }
    }
    unreachable!()
}

/// Runs a view over any net and output: it connects, joins, does its script line by line, prints what it shows, and leaves.
///
/// It joins for the first time by a snapshot, where one is kept. Where the base is none it connects again and asks for the whole log.
/// After each 1,000 times that it heard its link and sent nothing it says that it is alive. Each link goes back to the net.
///
/// The answer says how it ends; `NetFault` and `WriteFault` come only where the faults of the net, of a link or of the output rose.
pub fn run_view<R: Wait, N: Net, W: Sink>(
    rt: &R,
    alloc: Global,
    visit: &Visit,
    net: &mut N,
    out: &mut W,
) -> ViewEnd
    ensures ran { ViewRan
        (net_side_tells (output_tells W.Sink) (net_tells N.Net) (links_tell N.Conn.Link))
        (first_phase (founding_of (arc_value visit.now.program)) visit.now.id.0 visit.now.view visit.now.address
        (plain_lines visit.now.script))
        result (net_side out.old net.old None) (net_side out.new net.new None) }
{
    let Ok(program) = visit.program.clone() else {
        return ViewEnd::WantOfMemory;
    };
    let Ok(own) = visit.program.clone() else {
        return ViewEnd::WantOfMemory;
    };
    let replica = match Replica::found(alloc, own, visit.id, visit.view) {
        Ok(replica) => replica,
        Err(WantOfMemory) => return ViewEnd::WantOfMemory,
    };
    let mut watcher = Watcher {
        alloc,
        program,
        id: visit.id,
        view: visit.view,
        replica,
        published: 0,
        topics: ViewTopics::new(alloc),
        receives: 0,
        quiets: 0,
    };
    visit_links(rt, &mut watcher, visit, net, out)
}
