//! A live run.
ghost use Rattle.std.specs.Prelude.{◌≡◌, ◌≤◌, ◌<◌, ℕ, List, None, Some, IfErr, MatchBool, OnErr, OnOk};
ghost use Rattle.std.specs.Arc.{arc_value};
ghost use Rattle.model_solved.specs.Founding.{founding_of};
ghost use Rattle.run_steps.specs.Outside.{links_tell, net_tells, output_tells};
ghost use Rattle.live_view.specs.declared.outcome.LiveWant.TheVariants as want;
ghost use Rattle.live_view.specs.Live.{is_held, wanted};
ghost use Rattle.live_view.specs.Script.{first_state};
ghost use Rattle.live_view.specs.View.{IsLive, live_state};
ghost use Rattle.live_view.specs.declared.input.LiveInput.TheVariants as tells;
ghost use Rattle.live_shell.specs.LiveSteps.{feed_tells, live_outside, live_tells};
ghost use Rattle.live_shell.specs.LiveRun.{AreAny, AreCounted, Attends, Enters, LiveRan, PausesBy, StepsTo, Visits, WantsInput, WantsLink, lines_behind};

use crate::calls::{ask, hear, pause_if};
use crate::ending::LiveEnd;
use crate::feed::Feed;
use crate::telling::tell;
use live_view::{LiveInput, LiveView, LiveWant};
use model_solved::Checked;
use run_steps::{CallFault, connect};
use std::alloc::Global;
use std::sync::{Arc, Wait};
use tea_base::{SessionId, Text, WantOfMemory};
use tea_io::{Net, Sink};
use view_shell::ViewEnd;

/// So many lines are taken in a row before the link is heard.
const MOST_LINES: u32 = 64;

/// What a live view is to take part in: which program it runs, in which session and as which view, and where the session's reflector is.
#[derive(Drop)]
pub struct LiveVisit {
    pub program: Arc<Checked, Global>,
    pub id: SessionId,
    /// Its number.
    pub view: u32,
    /// The address of the session's reflector.
    pub address: Text,
}

/// How a run ends where the feed told nothing.
fn read_end(fault: CallFault) -> LiveEnd
    ensures failed { fault ≡ CallFault.Failed → result ≡ LiveEnd.ReadFault }
    ensures wanted { fault ≡ CallFault.WantOfMemory → result ≡ LiveEnd.View ViewEnd.WantOfMemory }
{
    match fault {
        CallFault::Failed => LiveEnd::ReadFault,
        CallFault::WantOfMemory => LiveEnd::View(ViewEnd::WantOfMemory),
    }
}

/// Whether a view wants to be told something.
fn wants_input(view: &LiveView) -> bool
    ensures { (address : List ℕ)
        → MatchBool result (wanted (live_state address view.now).phase ≡ want.Input)
        (wanted (live_state address view.now).phase ≡ want.Input → ⊥) }
{
    match view.wanted() {
        LiveWant::Input => true,
        LiveWant::Link => false,
        LiveWant::Over(_) => false,
    }
}

/// How many lines came in a row after something that a view is told. Once it is told that no line will come, it is the link's turn.
fn lines_behind(told: &LiveInput, lines: u32) -> u32
    requires { lines < 64 }
    ensures { result ≡ lines_behind lines (Some told.now) }
{
    match told {
        LiveInput::Line(_) => lines + 1,
        LiveInput::Closed => MOST_LINES,
        LiveInput::Linked => 0,
        LiveInput::LinkFailed => 0,
        LiveInput::Says(_) => 0,
    }
}

/// A turn of the feed, after so many lines in a row: how many there are then.
fn turn_feed<N: Net, K: Feed, W: Sink>(
    view: &mut LiveView,
    link: &mut N::Conn,
    feed: &mut K,
    out: &mut W,
    lines: u32,
) -> Result<u32, LiveEnd>
    requires live { IsLive view.old }
    requires wants { (address : List ℕ) → WantsInput (live_state address view.old) }
    requires few { lines < 64 }
    ensures live { IsLive view.new }
    ensures turned { Attends
        (live_tells (feed_tells K.Feed) (output_tells W.Sink) (net_tells N.Net) (links_tell N.Conn.Link))
        lines AreCounted (λ address. live_state address view.old) (λ address.
        live_state address view.new) result feed.old feed.new out.old out.new link.old link.new }
{
    let told = match ask(feed) {
        Ok(told) => told,
        Err(fault) => return Err(read_end(fault)),
    };
    let Some(input) = told else {
        return Ok(MOST_LINES);
    };
    let behind = lines_behind(&input, lines);
    let answered = tell(view, &input, link, out);
    drop(input); // for the prover
    answered?;
    Ok(behind)
}

/// A turn of the link. A link that is gone, and in whose place another one is wanted, is followed by some time.
fn turn_link<N: Net, K: Feed, W: Sink>(
    view: &mut LiveView,
    link: &mut N::Conn,
    feed: &mut K,
    out: &mut W,
) -> Result<u32, LiveEnd>
    requires live { IsLive view.old }
    requires wants { (address : List ℕ) → WantsInput (live_state address view.old) }
    ensures live { IsLive view.new }
    ensures turned { (lines : ℕ) → 64 ≤ lines → Attends
        (live_tells (feed_tells K.Feed) (output_tells W.Sink) (net_tells N.Net) (links_tell N.Conn.Link))
        lines AreCounted (λ address. live_state address view.old) (λ address.
        live_state address view.new) result feed.old feed.new out.old out.new link.old link.new }
{
    let heard = hear(link)?;
    let before = view.holds();
    let input = LiveInput::Says(heard);
    let answered = tell(view, &input, link, out);
    drop(input); // for the prover
    answered?;
    pause_if(feed, before, view.holds());
    Ok(0)
}

/// A turn of the feed, or after so many lines in a row of the link.
fn turn<N: Net, K: Feed, W: Sink>(
    view: &mut LiveView,
    link: &mut N::Conn,
    feed: &mut K,
    out: &mut W,
    lines: u32,
) -> Result<u32, LiveEnd>
    requires live { IsLive view.old }
    requires wants { (address : List ℕ) → WantsInput (live_state address view.old) }
    ensures live { IsLive view.new }
    ensures turned { Attends
        (live_tells (feed_tells K.Feed) (output_tells W.Sink) (net_tells N.Net) (links_tell N.Conn.Link))
        lines AreCounted (λ address. live_state address view.old) (λ address.
        live_state address view.new) result feed.old feed.new out.old out.new link.old link.new }
{
    if lines < MOST_LINES {
        return turn_feed::<N, K, W>(view, link, feed, out, lines);
    }
    turn_link::<N, K, W>(view, link, feed, out)
}

/// Feed and link are asked in turn, until the view wants another link or has ended.
fn attend<R: Wait, N: Net, K: Feed, W: Sink>(
    rt: &R,
    view: &mut LiveView,
    link: &mut N::Conn,
    feed: &mut K,
    out: &mut W,
) -> Result<(), LiveEnd>
    requires live { IsLive view.old }
    ensures live { IsLive view.new }
    ensures wants { (address : List ℕ) → OnOk result (wanted (live_state address view.new).phase ≡ want.Input → ⊥) }
    ensures turned { Attends
        (live_tells (feed_tells K.Feed) (output_tells W.Sink) (net_tells N.Net) (links_tell N.Conn.Link))
        0 AreAny (λ address. live_state address view.old) (λ address.
        live_state address view.new) result feed.old feed.new out.old out.new link.old link.new }
{
    let mut lines = 0;
    for _ in rt.forever() {
        if !wants_input(view) {
            return Ok(());
        }
        lines = turn::<N, K, W>(view, link, feed, out, lines)?;
    }
    unreachable!()
}

/// A view is told that a link is there, and takes part on it.
fn enter<R: Wait, N: Net, K: Feed, W: Sink>(
    rt: &R,
    view: &mut LiveView,
    link: &mut N::Conn,
    feed: &mut K,
    out: &mut W,
) -> Result<(), LiveEnd>
    requires live { IsLive view.old }
    requires wants { (address : List ℕ) → WantsLink (live_state address view.old) }
    ensures live { IsLive view.new }
    ensures wants { (address : List ℕ) → OnOk result (wanted (live_state address view.new).phase ≡ want.Input → ⊥) }
    ensures turned { Enters
        (live_tells (feed_tells K.Feed) (output_tells W.Sink) (net_tells N.Net) (links_tell N.Conn.Link))
        (λ address. live_state address view.old) (λ address.
        live_state address view.new) result feed.old feed.new out.old out.new link.old link.new }
{
    tell(view, &LiveInput::Linked, link, out)?;
    attend::<R, N, K, W>(rt, view, link, feed, out)
}

/// No link was made: the view is told so. Where it wants another one still, some time goes by.
fn go_without<K: Feed>(view: &mut LiveView, feed: &mut K) -> Result<(), LiveEnd>
    requires live { IsLive view.old }
    requires wants { (address : List ℕ) → WantsLink (live_state address view.old) }
    ensures live { IsLive view.new }
    ensures wants { (address : List ℕ) → OnOk result (wanted (live_state address view.new).phase ≡ want.Input → ⊥) }
    ensures told { (address : List ℕ)
        → OnOk result (StepsTo (live_state address view.old) tells.LinkFailed (live_state address view.new)) }
    ensures paused { (address : List ℕ)
        → OnOk result (PausesBy (feed_tells K.Feed)
        (is_held (live_state address view.old).holds (live_state address view.old).phase tells.LinkFailed) feed.old
        feed.new) }
    ensures kept { OnErr result (feed.new ≡ feed.old) }
    ensures err { IfErr result (λ end. end ≡ LiveEnd.View ViewEnd.WantOfMemory) }
{
    let before = view.holds();
    view.step(&LiveInput::LinkFailed)?;
    pause_if(feed, before, view.holds());
    Ok(())
}

/// A view takes part on one link: the link is made, and goes back in the end.
fn visit<R: Wait, N: Net, K: Feed, W: Sink>(
    rt: &R,
    view: &mut LiveView,
    address: &Text,
    net: &mut N,
    feed: &mut K,
    out: &mut W,
) -> Result<(), LiveEnd>
    requires live { IsLive view.old }
    requires wants { (address : List ℕ) → WantsLink (live_state address view.old) }
    ensures live { IsLive view.new }
    ensures wants { (address : List ℕ) → OnOk result (wanted (live_state address view.new).phase ≡ want.Input → ⊥) }
    ensures visited { Visits
        (live_tells (feed_tells K.Feed) (output_tells W.Sink) (net_tells N.Net) (links_tell N.Conn.Link))
        address.now (live_state address.now view.old) (live_state address.now view.new) result
        (live_outside feed.old out.old net.old None) (live_outside feed.new out.new net.new None) }
{
    let mut link = match connect(net, address) {
        Ok(link) => link,
        Err(CallFault::Failed) => return go_without(view, feed),
        Err(CallFault::WantOfMemory) => return Err(LiveEnd::View(ViewEnd::WantOfMemory)),
    };
    let attended = enter::<R, N, K, W>(rt, view, &mut link, feed, out);
    net.back(link);
    attended
}

/// Goes from link to link until the view has ended.
fn visit_links<R: Wait, N: Net, K: Feed, W: Sink>(
    rt: &R,
    view: &mut LiveView,
    address: &Text,
    net: &mut N,
    feed: &mut K,
    out: &mut W,
) -> LiveEnd
    requires live { IsLive view.old }
    requires wants { (address : List ℕ) → wanted (live_state address view.old).phase ≡ want.Input → ⊥ }
    ensures ran { LiveRan
        (live_tells (feed_tells K.Feed) (output_tells W.Sink) (net_tells N.Net) (links_tell N.Conn.Link))
        address.now (live_state address.now view.old) result (live_outside feed.old out.old net.old None)
        (live_outside feed.new out.new net.new None) }
{
    for _ in rt.forever() {
        match view.wanted() {
            LiveWant::Input => unreachable!(),
            LiveWant::Link => {}
            LiveWant::Over(end) => return LiveEnd::View(end),
        }
        match visit(rt, view, address, net, feed, out) {
            Ok(()) => {}
            Err(end) => return end,
        }
    }
    unreachable!()
}

/// Runs a live view over any net, feed and output: it connects and joins, does the lines of the feed as they come, prints what it shows,
/// and leaves once no line will come.
///
/// Feed and link are asked in turn. Each link goes back to the net. Where a line `hold N` came, another link is made in place of one that
/// is gone, some time later.
///
/// The answer says how it ends; `ReadFault`, `NetFault` and `WriteFault` come only where the faults of the feed, of the net or a link, or
/// of the output rose.
pub fn run_live<R: Wait, N: Net, K: Feed, W: Sink>(
    rt: &R,
    alloc: Global,
    visit: &LiveVisit,
    net: &mut N,
    feed: &mut K,
    out: &mut W,
) -> LiveEnd
    ensures ran { LiveRan
        (live_tells (feed_tells K.Feed) (output_tells W.Sink) (net_tells N.Net) (links_tell N.Conn.Link))
        visit.now.address (first_state
        (founding_of (arc_value visit.now.program)) visit.now.id.0 visit.now.view visit.now.address)
        result (live_outside feed.old out.old net.old None) (live_outside feed.new out.new net.new None) }
{
    let Ok(program) = visit.program.clone() else {
        return LiveEnd::View(ViewEnd::WantOfMemory);
    };
    let mut view = match LiveView::found(alloc, program, visit.id, visit.view) {
        Ok(view) => view,
        Err(WantOfMemory) => return LiveEnd::View(ViewEnd::WantOfMemory),
    };
    let end = visit_links(rt, &mut view, &visit.address, net, feed, out);
    drop(view); // for the prover
    end
}
