//! What a reflector's run puts and tells after its posts.
ghost use Rattle.run_steps.specs.Outside.{files_side, files_side_tells, files_tell, output_tells};
ghost use Rattle.run_steps.specs.Steps.{Puts};
ghost use Rattle.command_reflect.specs.ReflectedSteps.{log_name, reflected_bytes};
ghost use Rattle.commands.specs.Verdict.{Free, OfEndsOn, Only, Then, reflected_on_verdict};
ghost use Rattle.croquet.specs.Run.{OfKeptOn, OfReflectedOn, RanBySteps};

use crate::giving::{give, put_or_tell};
use crate::reflecting::{tell_end, tell_fault, tell_kept_fault};
use crate::status::Status;
use crate::telling::tell_want_of_memory;
use command_posts::posts_fault;
use command_reflect::{LogPlace, reflected_on_outcome, reflected_put};
use reflect_posts::ReflectedOn;
use reflect_server::{KeptFault, ServeFault};
use std::alloc::Global;
use tea_io::{Files, Sink};

/// Prints in which ways links and posts have ended, and tells how the run ends.
fn give_posts_ends<F: Files, W: Sink>(
    alloc: Global,
    unkept: bool,
    reflected: &ReflectedOn,
    files: &mut F,
    out: &mut W,
) -> Status
    ensures { RanBySteps (files_side_tells (files_tell F.Files) (output_tells W.Sink))
        (Free (Only (reflected_on_verdict reflected.now.posts reflected.now.session.plain unkept)))
        (files_side files.old out.old) (files_side files.new out.new) result }
{
    let posts = reflected.posts.as_slice();
    let Ok(outcome) = reflected_on_outcome(alloc, posts, &reflected.session) else {
        return tell_want_of_memory(out);
    };
    match give(&outcome, files, out) {
        Ok(()) => tell_end(out, unkept, posts_fault(posts)),
        Err(status) => status,
    }
}

/// Puts a session that posts have reflected, in the memory that was taken before they began. Only then its text is made.
fn put_session<F: Files, W: Sink>(
    alloc: Global,
    place: LogPlace,
    unkept: bool,
    reflected: &ReflectedOn,
    files: &mut F,
    out: &mut W,
) -> Status
    ensures { RanBySteps (files_side_tells (files_tell F.Files) (output_tells W.Sink))
        (Then (Puts place.name (reflected_bytes reflected.now.session.plain))
        (Free (Only (reflected_on_verdict reflected.now.posts reflected.now.session.plain unkept))))
        (files_side files.old out.old) (files_side files.new out.new) result }
{
    let put = reflected_put(place, &reflected.session);
    match put_or_tell(&put, files, out) {
        Ok(()) => give_posts_ends(alloc, unkept, reflected, files, out),
        Err(status) => status,
    }
}

/// Puts a session that posts have reflected, if there is a name for it, and then prints in which ways links and posts have ended.
fn give_session<F: Files, W: Sink>(
    alloc: Global,
    log: Option<LogPlace>,
    unkept: bool,
    reflected: &ReflectedOn,
    files: &mut F,
    out: &mut W,
) -> Status
    ensures { RanBySteps (files_side_tells (files_tell F.Files) (output_tells W.Sink))
        (OfEndsOn (log_name log) reflected.now.posts reflected.now.session.plain unkept)
        (files_side files.old out.old) (files_side files.new out.new) result }
{
    match log {
        None => give_posts_ends(alloc, unkept, reflected, files, out),
        Some(place) => put_session(alloc, place, unkept, reflected, files, out),
    }
}

/// Tells what has come of posts that reflect a session: the session, or their fault.
pub(crate) fn tell_reflected_on<F: Files, W: Sink>(
    alloc: Global,
    log: Option<LogPlace>,
    answer: Result<ReflectedOn, ServeFault>,
    files: &mut F,
    out: &mut W,
) -> Status
    ensures { RanBySteps (files_side_tells (files_tell F.Files) (output_tells W.Sink))
        (OfReflectedOn (log_name log) answer) (files_side files.old out.old) (files_side files.new out.new) result }
{
    match answer {
        Ok(reflected) => give_session(alloc, log, false, &reflected, files, out),
        Err(fault) => tell_fault(fault, out),
    }
}

/// The same where the session has a keeper. `unkept` says that a call was not kept.
pub(crate) fn tell_kept_on<F: Files, W: Sink>(
    alloc: Global,
    log: Option<LogPlace>,
    unkept: bool,
    answer: Result<ReflectedOn, KeptFault>,
    files: &mut F,
    out: &mut W,
) -> Status
    ensures { RanBySteps (files_side_tells (files_tell F.Files) (output_tells W.Sink))
        (OfKeptOn (log_name log) unkept answer) (files_side files.old out.old) (files_side files.new out.new) result }
{
    match answer {
        Ok(reflected) => give_session(alloc, log, unkept, &reflected, files, out),
        Err(fault) => tell_kept_fault(fault, out),
    }
}
