//! What a reflector's run puts and tells after its reflector.
ghost use Rattle.run_steps.specs.Outside.{files_side, files_side_tells, files_tell, output_tells};
ghost use Rattle.run_steps.specs.Steps.{Puts};
ghost use Rattle.command_reflect.specs.ReflectedSteps.{log_name, reflected_bytes};
ghost use Rattle.commands.specs.Verdict.{Free, OfEnds, Only, Then, reflected_verdict};
ghost use Rattle.croquet.specs.Calls.{LooksOrEnds, fault_ending, kept_fault_ending, reflected_ending, stop_ending};
ghost use Rattle.croquet.specs.Run.{OfKept, OfReflected, RanBySteps, TellsEnding};

use crate::giving::{give, look_or_tell, put_or_tell};
use crate::status::Status;
use crate::telling::{tell, tell_want_of_memory};
use command_reflect::{LogPlace, reflected_outcome, reflected_put};
use reflect_server::{KeptFault, Reflected, ServeFault};
use std::alloc::Global;
use tea_io::{Files, NetFault, Sink};

/// Looks whether the session that is to be reflected can be put, if there is a name for it. This is done before anything listens.
pub(crate) fn look_for_log<F: Files, W: Sink>(
    log: &Option<LogPlace>,
    files: &mut F,
    out: &mut W,
) -> Result<(), Status>
    ensures { LooksOrEnds (files_tell F.Files) (output_tells W.Sink)
        (log_name log.now) result files.old out.old files.new out.new }
{
    match log {
        None => Ok(()),
        Some(place) => look_or_tell(&place.name, files, out),
    }
}

/// Tells why the net gave no further link.
fn tell_stop<W: Sink>(out: &mut W, fault: NetFault) -> Status
    ensures { TellsEnding (output_tells W.Sink) (stop_ending fault) out.old out.new result }
{
    match fault {
        NetFault::Failed => tell(out, "net-fault\n", Status::NetFault),
        NetFault::WantOfMemory => tell_want_of_memory(out),
    }
}

/// Tells whether a call was not kept, and else why the net gave no further link, after all that was done.
pub(crate) fn tell_end<W: Sink>(out: &mut W, unkept: bool, stopped: Option<NetFault>) -> Status
    ensures { TellsEnding (output_tells W.Sink) (reflected_ending unkept stopped) out.old out.new result }
{
    if unkept {
        return tell(out, "write-fault\n", Status::WriteFault);
    }
    match stopped {
        None => Status::Ok,
        Some(fault) => tell_stop(out, fault),
    }
}

/// Prints how the connections of a session ended that was reflected, and tells how the run ends.
fn give_ends<F: Files, W: Sink>(
    alloc: Global,
    unkept: bool,
    reflected: &Reflected,
    files: &mut F,
    out: &mut W,
) -> Status
    ensures { RanBySteps (files_side_tells (files_tell F.Files) (output_tells W.Sink))
        (Free (Only (reflected_verdict reflected.now.ends reflected.now.session.plain unkept reflected.now.stopped)))
        (files_side files.old out.old) (files_side files.new out.new) result }
{
    let Ok(outcome) = reflected_outcome(alloc, reflected.ends.as_slice(), &reflected.session) else {
        return tell_want_of_memory(out);
    };
    match give(&outcome, files, out) {
        Ok(()) => tell_end(out, unkept, reflected.stopped),
        Err(status) => status,
    }
}

/// Puts a session that was reflected, in the memory that was taken before it began. Only then its text is made.
fn put_reflected<F: Files, W: Sink>(
    alloc: Global,
    place: LogPlace,
    unkept: bool,
    reflected: &Reflected,
    files: &mut F,
    out: &mut W,
) -> Status
    ensures { RanBySteps (files_side_tells (files_tell F.Files) (output_tells W.Sink))
        (Then (Puts place.name (reflected_bytes reflected.now.session.plain))
        (Free (Only (reflected_verdict reflected.now.ends reflected.now.session.plain unkept reflected.now.stopped))))
        (files_side files.old out.old) (files_side files.new out.new) result }
{
    let put = reflected_put(place, &reflected.session);
    match put_or_tell(&put, files, out) {
        Ok(()) => give_ends(alloc, unkept, reflected, files, out),
        Err(status) => status,
    }
}

/// Puts a session that was reflected, if there is a name for it, and then prints how its connections ended.
fn give_reflected<F: Files, W: Sink>(
    alloc: Global,
    log: Option<LogPlace>,
    unkept: bool,
    reflected: &Reflected,
    files: &mut F,
    out: &mut W,
) -> Status
    ensures { RanBySteps (files_side_tells (files_tell F.Files) (output_tells W.Sink))
        (OfEnds (log_name log) reflected.now.ends reflected.now.session.plain unkept reflected.now.stopped)
        (files_side files.old out.old) (files_side files.new out.new) result }
{
    match log {
        None => give_ends(alloc, unkept, reflected, files, out),
        Some(place) => put_reflected(alloc, place, unkept, reflected, files, out),
    }
}

/// Tells why a reflector or a host has no session to tell of.
pub(crate) fn tell_fault<W: Sink>(fault: ServeFault, out: &mut W) -> Status
    ensures { TellsEnding (output_tells W.Sink) (fault_ending fault) out.old out.new result }
{
    match fault {
        ServeFault::ListenFault => tell(out, "net-fault\n", Status::NetFault),
        ServeFault::WantOfMemory => tell_want_of_memory(out),
    }
}

/// Tells what has come of a reflector: its session, or its fault.
pub(crate) fn tell_reflected<F: Files, W: Sink>(
    alloc: Global,
    log: Option<LogPlace>,
    answer: Result<Reflected, ServeFault>,
    files: &mut F,
    out: &mut W,
) -> Status
    ensures { RanBySteps (files_side_tells (files_tell F.Files) (output_tells W.Sink))
        (OfReflected (log_name log) answer) (files_side files.old out.old) (files_side files.new out.new) result }
{
    match answer {
        Ok(reflected) => give_reflected(alloc, log, false, &reflected, files, out),
        Err(fault) => tell_fault(fault, out),
    }
}

/// Tells why a reflector whose session has a keeper has no session to tell of.
pub(crate) fn tell_kept_fault<W: Sink>(fault: KeptFault, out: &mut W) -> Status
    ensures { TellsEnding (output_tells W.Sink) (kept_fault_ending fault) out.old out.new result }
{
    match fault {
        KeptFault::ListenFault => tell(out, "net-fault\n", Status::NetFault),
        KeptFault::WantOfMemory => tell_want_of_memory(out),
        KeptFault::Unkept => tell(out, "write-fault\n", Status::WriteFault),
    }
}

/// Tells what has come of a reflector whose session has a keeper: its session, or its fault. `unkept` says that a call was not kept.
pub(crate) fn tell_kept<F: Files, W: Sink>(
    alloc: Global,
    log: Option<LogPlace>,
    unkept: bool,
    answer: Result<Reflected, KeptFault>,
    files: &mut F,
    out: &mut W,
) -> Status
    ensures { RanBySteps (files_side_tells (files_tell F.Files) (output_tells W.Sink))
        (OfKept (log_name log) unkept answer) (files_side files.old out.old) (files_side files.new out.new) result }
{
    match answer {
        Ok(reflected) => give_reflected(alloc, log, unkept, &reflected, files, out),
        Err(fault) => tell_kept_fault(fault, out),
    }
}
