//! The top call: all that the program does.
ghost use Rattle.std.specs.Prelude.{◌≡◌, None, List};
ghost use Rattle.run_steps.specs.Calls.{came_of, given_of};
ghost use Rattle.run_steps.specs.Outside.{ReadsFile, files_side, files_side_tells, files_tell, links_tell, net_tells, output_tells, outside, outside_tells};
ghost use Rattle.command_words.specs.CommandWords.{command_of};
ghost use Rattle.command_words.specs.Bounds.{IsBoundedSpan, UsesNet};
ghost use Rattle.command_hub.specs.HubRun.{IsOfCalls};
ghost use Rattle.command_hub.specs.declared.script.HubLine.{HubLine};
ghost use Rattle.commands.specs.Laws.{IsFunction, LogsTellTheirEvents, SnapshotsAgree, SomeVerdictComes};
ghost use Rattle.commands.specs.Verdict.{Comes, OfHostReady, OfReady};
ghost use Rattle.commands.specs.Work.{ComesNext, IsBoundedHosting, IsBoundedNext, ask_of, RunsOn, plain_hosting, plain_reflection};
ghost use Rattle.view_follows.specs.AnyEnds.{OfRunsOfViews, RunsLiveOn};
ghost use Rattle.view_follows.specs.Journals.{JournalsLeave};
ghost use Rattle.view_follows.specs.SessionsReplay.{EndsViews, OfViewRuns};
ghost use Rattle.view_follows.specs.ViewsReplay.{VisitsEndInReplay};
ghost use Rattle.view_shell.specs.Agreeing.{HasWorldOfLog, HaveOneDigest, VotesWithWorldOfLog};
ghost use Rattle.view_shell.specs.OneRun.{IsOneRun};
ghost use Rattle.votes_differ.specs.Runners.{DivergedShows, SplitsShow};
ghost use Rattle.croquet.specs.Calls.{IsBoundedTurn, IsOver, Turns};
ghost use Rattle.croquet.specs.Complete.{IsComplete};
ghost use Rattle.croquet.specs.LiveEnds.{LiveEndsAreCaused};
ghost use Rattle.croquet.specs.Run.{Ran, StoresKeepPlays};
ghost use Rattle.journal_store.specs.Stores.{stores_tell};
ghost use Rattle.net_shares.specs.Stops.{MayBeAny};
ghost use Rattle.host_posts.specs.Shares.{shares_tell};
ghost use Rattle.live_shell.specs.LiveSteps.{feed_tells};
ghost use Rattle.live_view.specs.Script.{LiveIsScript};

use crate::drilling::tell_drilled;
use crate::giving::finish;
use crate::hosting::{HostPlaces, look_for_logs, tell_hosted, tell_posts};
use crate::keeping::prepare;
use crate::kept::{serve_kept, stores_keep_plays};
use crate::living::{live_runs_are_caused, run_live_view};
use crate::reflecting::look_for_log;
use crate::serving::serve_unkept;
use crate::status::Status;
use crate::telling::{tell, tell_refusal, tell_want_of_memory};
use crate::visiting::run_visit;
use command_host::Hosting;
use command_hub::names_are_apart;
use command_reflect::{Keeping, Reflection};
use command_words::{DrillRequest, ServingSpan, read_command};
use commands::{
    LiveStart, Next, VisitRequest, Waiting, logs_tell_their_events, one_verdict, snapshots_agree,
    some_verdict,
};
use drill::{Size, drill};
use host_posts::{Posts, host_on};
use host_server::{Host, host};
use live_shell::Feed;
use live_view::live_is_script;
use net_shares::{FileStop, SharedNet, Signs};
use run_steps::{CallFault, read_file};
use std::alloc::Global;
use std::sync::Wait;
use std::thread::Threads;
use store_io::{Store, Stores};
use tea_base::{Blob, WantOfMemory, Words};
use tea_io::{Clock, Files, Gate, Sink};
use view_follows::{
    ends_are_caused, journals_leave, runs_live_on, views_of_any_runs, views_of_many_runs,
    views_replay,
};
use view_shell::{one_run, votes_agree};
use votes_differ::one_did_not_run;

/// A command is over, or the run goes on as a view's, a live view's, a reflector's, a host's, or a drill.
#[derive(Drop)]
pub enum Turn {
    /// The command is over, with this status.
    Over(Status),
    /// The run goes on as a view's.
    Visits(VisitRequest),
    /// The run goes on as a live view's.
    Lives(LiveStart),
    /// The run goes on as a reflector's.
    Reflects(Reflection),
    /// The run goes on as that of a reflector whose journal is to be opened.
    Keeps(Keeping),
    /// The run goes on as a host's.
    Hosts(Hosting),
    /// The run goes on as a drill.
    Drills(DrillRequest),
}

/// Reads the file that a command waits for.
fn read_asked<F: Files>(files: &mut F, waiting: &Waiting) -> Result<Option<Blob>, CallFault>
    ensures { ReadsFile (files_tell F.Files) (came_of result) (ask_of waiting.now)
        (given_of result) files.old files.new }
{
    read_file(files, waiting.name(), waiting.limit())
}

/// A session is ready to be reflected, once the run has looked whether its log can be put in the end.
fn ready<F: Files, W: Sink>(reflection: Reflection, files: &mut F, out: &mut W) -> Turn
    requires { IsBoundedSpan reflection.span }
    ensures turns { Turns (files_side_tells (files_tell F.Files) (output_tells W.Sink))
        result (OfReady (plain_reflection reflection)) (files_side files.old out.old) (files_side files.new out.new) }
    ensures bounded { IsBoundedTurn result }
{
    match look_for_log(&reflection.log, files, out) {
        Ok(()) => Turn::Reflects(reflection),
        Err(status) => {
            drop(reflection); // for the prover
            Turn::Over(status)
        }
    }
}

/// Sessions are ready to be hosted, once the run has looked whether each listed one can be put in the end.
fn ready_to_host<F: Files, W: Sink>(hosting: Hosting, files: &mut F, out: &mut W) -> Turn
    requires { IsBoundedHosting hosting }
    ensures turns { Turns (files_side_tells (files_tell F.Files) (output_tells W.Sink))
        result (OfHostReady (plain_hosting hosting)) (files_side files.old out.old) (files_side files.new out.new) }
    ensures bounded { IsBoundedTurn result }
{
    match look_for_logs(hosting.logs.as_slice(), files, out) {
        Ok(()) => Turn::Hosts(hosting),
        Err(status) => {
            drop(hosting); // for the prover
            Turn::Over(status)
        }
    }
}

/// Runs a command from here on.
pub(crate) fn go_on<F: Files, W: Sink>(
    alloc: Global,
    next: Next,
    files: &mut F,
    out: &mut W,
) -> Turn
    requires { IsBoundedNext next }
    ensures turns { Turns (files_side_tells (files_tell F.Files) (output_tells W.Sink))
        result (ComesNext next) (files_side files.old out.old) (files_side files.new out.new) }
    ensures bounded { IsBoundedTurn result }
{
    match next {
        Next::Reads(waiting) => match read_asked(files, &waiting) {
            Ok(given) => go_on(alloc, waiting.hand(alloc, given), files, out),
            Err(CallFault::Failed) => {
                drop(waiting); // for the prover
                Turn::Over(tell(out, "read-fault\n", Status::ReadFault))
            }
            Err(CallFault::WantOfMemory) => {
                drop(waiting); // for the prover
                Turn::Over(tell_want_of_memory(out))
            }
        },
        Next::Refuses(refusal) => Turn::Over(tell_refusal(out, &refusal)),
        Next::Gives(outcome) => Turn::Over(finish(&outcome, files, out)),
        Next::Visits(request) => Turn::Visits(request),
        Next::Lives(start) => Turn::Lives(start),
        Next::Reflects(reflection) => ready(reflection, files, out),
        Next::Keeps(keeping) => Turn::Keeps(keeping),
        Next::Hosts(hosting) => ready_to_host(hosting, files, out),
        Next::Drills(request) => Turn::Drills(request),
        Next::WantOfMemory => Turn::Over(tell_want_of_memory(out)),
    }
}

/// Runs what the words ask for up to its end, or up to a view's run, a live view's, a reflector's, a host's, or a drill. [`croquet`] begins so. It waits for nobody, so it
/// returns: `stamp`, `check`, `replay`, `inspect`, `trace`, `votes` and `hub` are over then, and so are words that are refused.
pub fn begin<F: Files, W: Sink>(alloc: Global, words: &Words, files: &mut F, out: &mut W) -> Turn
    ensures turns { Turns (files_side_tells (files_tell F.Files) (output_tells W.Sink))
        result (Comes (command_of words.now)) (files_side files.old out.old) (files_side files.new out.new) }
    ensures bounded { IsBoundedTurn result }
    ensures over { ¬ RunsOn (command_of words.now) → IsOver result }
{
    match read_command(alloc, words) {
        Ok(command) => go_on(alloc, Next::of_command(command), files, out),
        Err(WantOfMemory) => Turn::Over(tell_want_of_memory(out)),
    }
}

/// Runs what the words ask for over these files, these stores and this net, and writes its text, or the line of its one fault, to `out`. It gives
/// the net back. A live view does the lines of `feed`, which no other command asks. This is all that the program does once it has its words.
///
/// All commands but `join`, `reflect`, `host` and `drill` wait for nobody, so they return. The run of `join` ends when its script or its feed does, or its
/// net; that of `reflect` or `host` when it has accepted all its links, and all of them have ended; that of `drill` when its views have ended. A `reflect`
/// or a `host` whose links are not counted ends when each of its posts has: a post stops only where the file that the words name may be there, and ends else where its
/// share of the net fails or finds no memory, or once it has served all the links that it may. The file is looked for among `signs`.
pub fn croquet<
    R: Threads + Wait + Sync,
    F: Files,
    C: Clock + Sync,
    N: SharedNet + Send + Drop,
    W: Sink,
    G: Gate + Sync,
    E: Signs + Sync,
    S: Stores<Store = J>,
    J: Store + Send + Drop,
    K: Feed,
>(
    rt: &R,
    alloc: Global,
    words: &Words,
    files: &mut F,
    stores: &mut S,
    feed: &mut K,
    clock: &C,
    mut net: N,
    gate: &G,
    signs: &E,
    out: &mut W,
) -> (N, Status)
    // There are steps and an end that come of the words, and what was read, put, printed, heard and sent is what they give, up to
    // the place where the run was cut, and then the last line. Behind the steps of `reflect` its reflector serves the net, and more
    // steps and an end come of what it answers. One that keeps a journal opens its store before that, and founds it where it is not there; what
    // the store safely holds covers the session that was served, whatever call of it has failed. Of `drill` the session is put, and of each view the snapshot of the log's replay.
    // A live view asks its feed and its links in some order; what it sends and prints is `live_step` over what they told, up to a cut, and then
    // the line of the fault, and each of its links goes back. No other command asks the feed. Of `host` each session, listed or made on demand, is the
    // play of one history of the links whose first frame goes to it, as if it were alone, and is put in a file of its own.
    ensures ran { Ran (C.gives clock.now) (MayBeAny (E.may_be signs.now))
        (outside_tells (files_tell F.Files) (output_tells W.Sink) (net_tells N.Net) (links_tell N.Conn.Link))
        (shares_tell N.shared N.Part.Share) (stores_tell S.Stores J.Store) (feed_tells K.Feed)
        (Comes (command_of words.now)) (outside files.old out.old net None)
        (outside files.new out.new result.0 None) stores.old stores.new feed.old feed.new result.1 }
    // Where the files tell what they hold, the inputs of a command are right and no call has failed, it is done, unless memory runs out. Of
    // `join` its links have a say too: none, where they went on, refused nothing but a snapshot, and were answered by one legal log, with honest
    // bases and with counts of this view's events alone.
    ensures complete { IsComplete (files_tell F.Files) (output_tells W.Sink)
        (net_tells N.Net) (links_tell N.Conn.Link)
        (command_of words.now) (outside files.old out.old net None) (outside files.new out.new result.0 None) result.1 }
    // Whatever call of a store has failed: where a store that was served tells its bytes, the safe ones are read as a session with the log that the
    // reflector came to, and at least its horizon.
    ensures kept { StoresKeepPlays (stores_tell S.Stores J.Store) }
    // One verdict comes of a command and of the bytes that it reads, but for want of memory and for the place of a syntax fault.
    ensures function { IsFunction }
    // A live view ends with its links, refused, by its peer, or by a fault of the net only where its links caused it. Its last line is the replay where one
    // log answered them.
    ensures caused { LiveEndsAreCaused (files_tell F.Files)
        (feed_tells K.Feed) (output_tells W.Sink) (net_tells N.Net) (links_tell N.Conn.Link) }
    // A view prints one text and sends the same frames, for what its links tell.
    ensures view { IsOneRun }
    // Where all lines of a live view, and their end, come before the first frame, it prints and sends what the script of these lines does.
    ensures script { LiveIsScript }
    // A view's run that is done printed last the line of the replay of the log, where one legal log served its links, with honest bases.
    ensures replays { VisitsEndInReplay }
    // However often a reflector whose only clients are views was started again on the file that it wrote, each view that is done printed last
    // the line of the replay of the last log.
    ensures views { OfViewRuns C.gives (links_tell N.Conn.Link) EndsViews }
    // So it is too where runs ended in any way, also by a kill, and each began with what the one before it may have left.
    ensures lives { OfRunsOfViews C.gives (links_tell N.Conn.Link) EndsViews }
    // Whoever its clients are, the log of the last of such runs is legal, goes on from that of each run, and serves each connection of each run.
    ensures serves { RunsLiveOn C.gives (links_tell N.Conn.Link) }
    // Any bytes that begin with the safe ones of a run's journal are read as what the run may have left, where each record behind the safe ones is
    // one that the run was writing and that nobody was told.
    ensures left { JournalsLeave C N.Conn J.bytes J.safe }
    // Some verdict comes that is not want of memory, whatever the files give.
    ensures some { SomeVerdictComes }
    // The log that a script leaves has the events of the log that it began with, and then each event that was answered Stamped, once and in
    // order.
    ensures events { LogsTellTheirEvents }
    // A replica that follows a legal log, and takes its next entry without want of memory, has the world to which the entries up to that one
    // lead from the first world. So two such replicas have one digest there. A view that listens for the entry votes directly after it, with
    // that digest.
    ensures world { HasWorldOfLog }
    ensures votes { HaveOneDigest }
    ensures vote { VotesWithWorldOfLog }
    // A vote of a log that is answered `Diverged` shows that one of two views did not run the program on the log: that one, or the one of the first
    // vote on the entry. So do the two votes that `votes` prints as diverged.
    ensures diverged { DivergedShows }
    ensures splits { SplitsShow }
    // What a hub's script leaves and prints is what calls leave and reply, one for each line, and each session of it is as if it were alone.
    ensures apart { (lines : List HubLine) → IsOfCalls lines }
    // No command but `join`, `reflect` and `host` has a net.
    ensures net { ¬ UsesNet (command_of words.now) → result.0 ≡ net }
    // Where the snapshot of a replay is of a world that follows the log, the same comes of it as without it.
    ensures agree { SnapshotsAgree }
{
    stores_keep_plays::<S, J>(); // for the prover
    one_verdict(); // for the prover
    one_run(); // for the prover
    votes_agree(); // for the prover
    one_did_not_run(); // for the prover
    names_are_apart(); // for the prover
    ends_are_caused(); // for the prover
    live_runs_are_caused::<F, N, K, W>(); // for the prover
    live_is_script(); // for the prover
    views_replay(); // for the prover
    views_of_many_runs::<C, N::Conn>(); // for the prover
    views_of_any_runs::<C, N::Conn>(); // for the prover
    runs_live_on::<C, N::Conn>(); // for the prover
    journals_leave::<C, N::Conn, J>(); // for the prover
    some_verdict(); // for the prover
    logs_tell_their_events(); // for the prover
    snapshots_agree(); // for the prover
    match begin(alloc, words, files, out) {
        Turn::Over(status) => (net, status),
        Turn::Visits(request) => {
            let status = run_visit(rt, alloc, request, &mut net, out);
            (net, status)
        }
        Turn::Lives(start) => {
            let status = run_live_view(rt, alloc, start, &mut net, feed, out);
            (net, status)
        }
        Turn::Reflects(reflection) => {
            serve_unkept(rt, alloc, reflection, files, clock, net, gate, signs, out)
        }
        Turn::Keeps(keeping) => match prepare(alloc, keeping, files, out, stores) {
            Ok((keeping, opening)) => {
                serve_kept(
                    rt, alloc, keeping, opening, files, stores, clock, net, gate, signs, out,
                )
            }
            Err(status) => (net, status),
        },
        Turn::Hosts(hosting) => {
            let Hosting {
                ids,
                on_demand,
                address,
                span,
                logs,
                prefix,
                rooms,
            } = hosting;
            let places = HostPlaces {
                logs,
                prefix,
                rooms,
            };
            match span {
                ServingSpan::Connections(connections) => {
                    let wanted = Host {
                        ids: ids.as_slice(),
                        on_demand,
                        address: &address,
                        connections,
                        clock,
                        gate,
                    };
                    let (net, answer) = host(rt, alloc, &wanted, net);
                    let status = tell_hosted(alloc, places, answer, files, out);
                    (net, status)
                }
                ServingSpan::Posts { links, until } => {
                    let stop = FileStop::new(signs, clock, until);
                    let wanted = Posts {
                        ids: ids.as_slice(),
                        on_demand,
                        address: &address,
                        posts: links,
                        clock,
                        gate,
                        stop: &stop,
                    };
                    let (net, answer) = host_on(rt, alloc, &wanted, net);
                    let status = tell_posts(alloc, places, answer, files, out);
                    (net, status)
                }
            }
        }
        Turn::Drills(request) => {
            let size = Size {
                seed: request.seed,
                views: request.views,
                events: request.events,
            };
            let answer = drill(rt, alloc, size, clock, gate);
            let status = tell_drilled(alloc, request, answer, files, out);
            (net, status)
        }
    }
}
