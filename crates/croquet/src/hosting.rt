//! What a host's run looks at before its host, and what it puts and tells after it.
ghost use Rattle.std.specs.Prelude.{◌≡◌, ◌≤◌, ◌+◌, IfOk, drop, length};
ghost use Rattle.run_steps.specs.Outside.{files_side, files_side_tells, files_tell, output_tells};
ghost use Rattle.command_host.specs.Hosting.{log_names, session_puts};
ghost use Rattle.commands.specs.Verdict.{Free, OfHostEnds, OfPostEnds, Only, hosted_verdict, look_steps, made_puts, posts_verdict, put_steps};
ghost use Rattle.croquet.specs.Calls.{Completes, CompletesFreely, CompletesPuts};
ghost use Rattle.croquet.specs.Run.{OfHosted, OfHostedOn, RanBySteps};

use crate::giving::{give, look_or_tell, put_or_tell};
use crate::reflecting::{tell_end, tell_fault};
use crate::status::Status;
use crate::telling::tell_want_of_memory;
use command_host::{LogPlaces, Rooms, hosted_outcome, on_demand_places, posts_outcome};
use command_posts::posts_fault;
use command_reflect::{LogPlace, reflected_put};
use host_posts::HostedOn;
use host_server::Hosted;
use reflect_server::ServeFault;
use reflector_core::Session;
use std::alloc::Global;
use std::collections::VecDeque;
use tea_base::{SessionId, Text};
use tea_io::{Files, Sink};

/// Where the sessions of a host are put.
#[derive(Drop)]
pub(crate) struct HostPlaces {
    /// The place of each listed session.
    pub(crate) logs: LogPlaces,
    /// With what the names of the files of the others begin.
    pub(crate) prefix: Text,
    /// Memory for each session that may be made on demand.
    pub(crate) rooms: Rooms,
}

/// Where the sessions are put that were made on demand.
#[derive(Drop)]
struct MadePlaces {
    /// How many listed sessions stand before them.
    listed: usize,
    /// With what the names of their files begin.
    prefix: Text,
    /// Memory for each of them.
    rooms: Rooms,
}

/// Looks whether each listed session can be put. This is done before anything listens. The ids of those that are made on demand, and so the names of their files, are not known then.
pub(crate) fn look_for_logs<F: Files, W: Sink>(
    logs: &[LogPlace],
    files: &mut F,
    out: &mut W,
) -> Result<(), Status>
    ensures { Completes (files_side_tells (files_tell F.Files) (output_tells W.Sink))
        (look_steps (log_names logs.now)) result (files_side files.old out.old) (files_side files.new out.new) }
{
    for place in logs {
        look_or_tell(&place.name, files, out)?;
    }
    Ok(())
}

/// Puts each session that was hosted, in the memory that was taken for it.
fn put_sessions<F: Files, W: Sink>(
    mut logs: VecDeque<LogPlace>,
    sessions: &[Session],
    files: &mut F,
    out: &mut W,
) -> Result<(), Status>
    ensures { Completes (files_side_tells (files_tell F.Files) (output_tells W.Sink))
        (put_steps (session_puts (log_names logs.items) sessions.now)) result (files_side files.old out.old)
        (files_side files.new out.new) }
{
    for session in sessions {
        let Some(place) = logs.pop_front() else {
            return Ok(());
        };
        let put = reflected_put(place, session);
        put_or_tell(&put, files, out)?;
    }
    Ok(())
}

/// Those that stand behind so many first ones.
fn behind<T>(all: &[T], first: usize) -> &[T]
    ensures { result.now ≡ drop first all.now }
{
    &all[first.min(all.len())..]
}

/// Puts the sessions that were made on demand, in the memory that was taken for them. Memory may be wanted for the names of their files.
fn put_made<F: Files, W: Sink>(
    alloc: Global,
    places: MadePlaces,
    ids: &[SessionId],
    sessions: &[Session],
    files: &mut F,
    out: &mut W,
) -> Result<(), Status>
    requires { length ids.now ≤ places.listed + length places.rooms }
    ensures { CompletesFreely (files_side_tells (files_tell F.Files) (output_tells W.Sink))
        (put_steps (made_puts places.listed places.prefix ids.now sessions.now)) result (files_side files.old out.old)
        (files_side files.new out.new) }
{
    let MadePlaces {
        listed,
        prefix,
        rooms,
    } = places;
    let made = behind(ids, listed);
    let Ok(logs) = on_demand_places(alloc, &prefix, made, rooms) else {
        return Err(tell_want_of_memory(out));
    };
    let logs = VecDeque::from(logs.into_vec());
    put_sessions(logs, behind(sessions, listed), files, out)
}

/// Puts the sessions that were hosted, the listed ones first.
fn put_hosted<F: Files, W: Sink>(
    alloc: Global,
    places: HostPlaces,
    ids: &[SessionId],
    sessions: &[Session],
    files: &mut F,
    out: &mut W,
) -> Result<(), Status>
    requires { length ids.now ≤ length places.logs + length places.rooms }
    ensures { CompletesPuts (files_side_tells (files_tell F.Files) (output_tells W.Sink)) (log_names places.logs)
        places.prefix ids.now sessions.now result (files_side files.old out.old) (files_side files.new out.new) }
{
    let HostPlaces {
        logs,
        prefix,
        rooms,
    } = places;
    let made = MadePlaces {
        listed: logs.len(),
        prefix,
        rooms,
    };
    let logs = VecDeque::from(logs.into_vec());
    put_sessions(logs, sessions, files, out)?;
    put_made(alloc, made, ids, sessions, files, out)
}

/// Prints how the connections ended and what each session has come to, and tells how the run ends.
fn give_text<F: Files, W: Sink>(
    alloc: Global,
    listed: usize,
    hosted: &Hosted,
    files: &mut F,
    out: &mut W,
) -> Status
    ensures { RanBySteps (files_side_tells (files_tell F.Files) (output_tells W.Sink))
        (Free (Only (hosted_verdict listed hosted.now.ids hosted.now.ends hosted.now.sessions hosted.now.stopped)))
        (files_side files.old out.old) (files_side files.new out.new) result }
{
    let ids = hosted.ids.as_slice();
    let ends = hosted.ends.as_slice();
    let Ok(outcome) = hosted_outcome(alloc, listed, ids, ends, hosted.sessions.as_slice()) else {
        return tell_want_of_memory(out);
    };
    match give(&outcome, files, out) {
        Ok(()) => tell_end(out, false, hosted.stopped),
        Err(status) => status,
    }
}

/// Puts the sessions that were hosted, and then prints their text.
fn give_hosted<F: Files, W: Sink>(
    alloc: Global,
    places: HostPlaces,
    hosted: &Hosted,
    files: &mut F,
    out: &mut W,
) -> Status
    requires { length hosted.now.ids ≤ length places.logs + length places.rooms }
    ensures { RanBySteps (files_side_tells (files_tell F.Files) (output_tells W.Sink))
        (OfHostEnds (log_names places.logs) places.prefix hosted.now.ids hosted.now.ends hosted.now.sessions
        hosted.now.stopped) (files_side files.old out.old) (files_side files.new out.new) result }
{
    let listed = places.logs.len();
    let ids = hosted.ids.as_slice();
    let sessions = hosted.sessions.as_slice();
    match put_hosted(alloc, places, ids, sessions, files, out) {
        Ok(()) => give_text(alloc, listed, hosted, files, out),
        Err(status) => status,
    }
}

/// Tells what has come of a host: its sessions, or its fault.
pub(crate) fn tell_hosted<F: Files, W: Sink>(
    alloc: Global,
    places: HostPlaces,
    answer: Result<Hosted, ServeFault>,
    files: &mut F,
    out: &mut W,
) -> Status
    requires { IfOk answer (λ hosted. length hosted.ids ≤ length places.logs + length places.rooms) }
    ensures { RanBySteps (files_side_tells (files_tell F.Files) (output_tells W.Sink))
        (OfHosted (log_names places.logs) places.prefix answer) (files_side files.old out.old)
        (files_side files.new out.new) result }
{
    match answer {
        Ok(hosted) => give_hosted(alloc, places, &hosted, files, out),
        Err(fault) => {
            drop(places); // for the prover
            tell_fault(fault, out)
        }
    }
}

/// Prints how often links have ended in each way and what each session has come to, and tells how the run ends.
fn give_posts_text<F: Files, W: Sink>(
    alloc: Global,
    listed: usize,
    hosted: &HostedOn,
    files: &mut F,
    out: &mut W,
) -> Status
    ensures { RanBySteps (files_side_tells (files_tell F.Files) (output_tells W.Sink))
        (Free (Only (posts_verdict listed hosted.now.ids hosted.now.posts hosted.now.sessions)))
        (files_side files.old out.old) (files_side files.new out.new) result }
{
    let Ok(outcome) = posts_outcome(alloc, listed, hosted) else {
        return tell_want_of_memory(out);
    };
    match give(&outcome, files, out) {
        Ok(()) => tell_end(out, false, posts_fault(hosted.posts.as_slice())),
        Err(status) => status,
    }
}

/// Puts the sessions that posts have hosted, and then prints their text.
fn give_posts<F: Files, W: Sink>(
    alloc: Global,
    places: HostPlaces,
    hosted: &HostedOn,
    files: &mut F,
    out: &mut W,
) -> Status
    requires { length hosted.now.ids ≤ length places.logs + length places.rooms }
    ensures { RanBySteps (files_side_tells (files_tell F.Files) (output_tells W.Sink))
        (OfPostEnds (log_names places.logs) places.prefix hosted.now.ids hosted.now.posts hosted.now.sessions)
        (files_side files.old out.old) (files_side files.new out.new) result }
{
    let listed = places.logs.len();
    let ids = hosted.ids.as_slice();
    let sessions = hosted.sessions.as_slice();
    match put_hosted(alloc, places, ids, sessions, files, out) {
        Ok(()) => give_posts_text(alloc, listed, hosted, files, out),
        Err(status) => status,
    }
}

/// Tells what has come of posts: their sessions, or their fault.
pub(crate) fn tell_posts<F: Files, W: Sink>(
    alloc: Global,
    places: HostPlaces,
    answer: Result<HostedOn, ServeFault>,
    files: &mut F,
    out: &mut W,
) -> Status
    requires { IfOk answer (λ hosted. length hosted.ids ≤ length places.logs + length places.rooms) }
    ensures { RanBySteps (files_side_tells (files_tell F.Files) (output_tells W.Sink))
        (OfHostedOn (log_names places.logs) places.prefix answer) (files_side files.old out.old)
        (files_side files.new out.new) result }
{
    match answer {
        Ok(hosted) => give_posts(alloc, places, &hosted, files, out),
        Err(fault) => {
            drop(places); // for the prover
            tell_fault(fault, out)
        }
    }
}
