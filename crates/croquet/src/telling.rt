//! The last line of a run.
ghost use Rattle.std.specs.Prelude.{◌≡◌, ◌++◌, IfOk, string_bytes, codes};
ghost use Rattle.run_steps.specs.Outside.{output_tells};
ghost use Rattle.view_shell.specs.declared.ending.ViewEnd.TheVariants as view_end;
ghost use Rattle.croquet.specs.Calls.{TellsViewEnd};
ghost use Rattle.croquet.specs.Run.{refusal_ending, Tells, TellsEnding, TellsMemory, name_of, refused_line};

use crate::status::Status;
use command_outcome::{CommandRefusal, Input};
use run_steps::{CallFault, print_text};
use std::alloc::Global;
use tea_base::WantOfMemory;
use tea_io::Sink;
use text_lines::spell_numbers;
use view_shell::ViewEnd;

/// The end of a run for which memory was wanting.
pub fn tell_want_of_memory<W: Sink>(out: &mut W) -> Status
    ensures { TellsMemory (output_tells W.Sink) out.old out.new result }
{
    match print_text(out, b"memory\n") {
        Ok(()) => Status::WantOfMemory,
        Err(CallFault::Failed) => Status::WriteFault,
        Err(CallFault::WantOfMemory) => Status::WantOfMemory,
    }
}

/// Writes a last line, and gives this status. An output that fails at it decides the status.
pub(crate) fn tell_line<W: Sink>(out: &mut W, line: &[u8], status: Status) -> Status
    ensures { Tells (output_tells W.Sink) line.now status out.old out.new result }
{
    match print_text(out, line) {
        Ok(()) => status,
        Err(CallFault::Failed) => Status::WriteFault,
        Err(CallFault::WantOfMemory) => tell_want_of_memory(out),
    }
}

/// The same of a line of text.
pub(crate) fn tell<W: Sink>(out: &mut W, line: &str, status: Status) -> Status
    ensures { Tells (output_tells W.Sink) line.now status out.old out.new result }
{
    tell_line(out, line.as_bytes(), status)
}

/// The line of an input at fault.
fn input_line(input: Input) -> &'static str
    ensures { result.now ≡ codes "input " ++ name_of input ++ codes "\n" }
{
    match input {
        Input::Script => "input script\n",
        Input::Program => "input program\n",
        Input::Log => "input log\n",
        Input::Journal => "input journal\n",
        Input::Snapshot => "input snapshot\n",
        Input::Persisted => "input persisted\n",
        Input::Time => "input time\n",
        Input::Address => "input address\n",
        Input::Every => "input every\n",
        Input::Queries => "input queries\n",
        Input::Config => "input config\n",
    }
}

/// Tells a refusal.
pub(crate) fn tell_refusal<W: Sink>(out: &mut W, refusal: &CommandRefusal) -> Status
    ensures { TellsEnding (output_tells W.Sink) (refusal_ending refusal.now) out.old out.new result }
{
    match refusal {
        CommandRefusal::Usage => tell(out, "usage\n", Status::Usage),
        CommandRefusal::Program { line } => tell_line(out, line.bytes(), Status::Program),
        CommandRefusal::Input(input) => tell(out, input_line(*input), Status::Input),
    }
}

/// The line of a frame that the reflector refused.
fn refused_line(alloc: Global, code: u8, kept: u64) -> Result<String, WantOfMemory>
    ensures { IfOk result (λ line. string_bytes line ≡ refused_line code kept) }
{
    let mut line = spell_numbers(alloc, "refused", &[u64::from(code), kept])?;
    line.push_str("\n")?;
    Ok(line)
}

/// Tells that the reflector refused a frame.
fn tell_refused_frame<W: Sink>(alloc: Global, out: &mut W, code: u8, kept: u64) -> Status
    ensures { TellsViewEnd (output_tells W.Sink) (view_end.Refused code kept) out.old out.new result }
{
    match refused_line(alloc, code, kept) {
        Ok(line) => tell(out, line.as_str(), Status::Refused),
        Err(WantOfMemory) => tell_want_of_memory(out),
    }
}

/// Tells how the run of a view has ended.
pub(crate) fn tell_view_end<W: Sink>(alloc: Global, out: &mut W, end: ViewEnd) -> Status
    ensures { TellsViewEnd (output_tells W.Sink) end out.old out.new result }
{
    match end {
        ViewEnd::Done => Status::Ok,
        ViewEnd::Refused { code, kept } => tell_refused_frame(alloc, out, code, kept),
        ViewEnd::NetFault => tell(out, "net-fault\n", Status::NetFault),
        ViewEnd::Ended => tell(out, "ended\n", Status::Ended),
        ViewEnd::Peer => tell(out, "peer\n", Status::Peer),
        ViewEnd::WriteFault => Status::WriteFault,
        ViewEnd::WantOfMemory => tell_want_of_memory(out),
    }
}
