//! A view is told something, and what it answers is done.
ghost use Rattle.std.specs.Prelude.{◌≡◌, ℕ, List, OnOk, string_bytes};
ghost use Rattle.run_steps.specs.Outside.{links_tell, output_tells};
ghost use Rattle.live_view.specs.Live.{LiveTold, live_step};
ghost use Rattle.live_view.specs.View.{IsLive, live_state};
ghost use Rattle.live_shell.specs.Calls.{Answers, AnswersOrNot, Prints};
ghost use Rattle.live_shell.specs.LiveRun.{StepsTo, here_text};

use crate::calls::{print_some, send_frames};
use live_view::{LiveInput, LiveOutcome, LiveView};
use run_steps::CallFault;
use tea_base::WantOfMemory;
use tea_io::{Link, Sink};
use view_shell::ViewEnd;

/// How a run ends at a write that came to nothing.
fn write_end(fault: CallFault) -> ViewEnd
    ensures failed { fault ≡ CallFault.Failed → result ≡ ViewEnd.WriteFault }
    ensures wanted { fault ≡ CallFault.WantOfMemory → result ≡ ViewEnd.WantOfMemory }
{
    match fault {
        CallFault::Failed => ViewEnd::WriteFault,
        CallFault::WantOfMemory => ViewEnd::WantOfMemory,
    }
}

/// How a run ends at a frame that was not sent.
fn send_end(fault: CallFault) -> ViewEnd
    ensures failed { fault ≡ CallFault.Failed → result ≡ ViewEnd.NetFault }
    ensures wanted { fault ≡ CallFault.WantOfMemory → result ≡ ViewEnd.WantOfMemory }
{
    match fault {
        CallFault::Failed => ViewEnd::NetFault,
        CallFault::WantOfMemory => ViewEnd::WantOfMemory,
    }
}

/// The text that says that the view has come to the entry by which it joined.
fn here_line(here: bool) -> &'static str
    ensures { result.now ≡ here_text here }
{
    if here { "here\n" } else { "" }
}

/// Prints a text, and then whether the view has come to the entry by which it joined.
fn print_both<W: Sink>(out: &mut W, text: &str, here: bool) -> Result<(), ViewEnd>
    ensures { Prints (output_tells W.Sink) text.now (here_text here) result out.old out.new }
{
    match print_some(out, text.as_bytes()) {
        Ok(()) => {}
        Err(fault) => return Err(write_end(fault)),
    }
    match print_some(out, here_line(here).as_bytes()) {
        Ok(()) => Ok(()),
        Err(fault) => Err(write_end(fault)),
    }
}

/// Does what a view answers.
fn answer<L: Link, W: Sink>(outcome: &LiveOutcome, link: &mut L, out: &mut W) -> Result<(), ViewEnd>
    ensures { (t : LiveTold) → outcome.now.frames ≡ t.frames → string_bytes outcome.now.text ≡ t.text
        → outcome.now.here ≡ t.here
        → Answers (output_tells W.Sink) (links_tell L.Link) t result out.old out.new link.old link.new }
{
    match send_frames(link, outcome.frames.as_slice()) {
        Ok(()) => {}
        Err(fault) => return Err(send_end(fault)),
    }
    print_both(out, outcome.text.as_str(), outcome.here)
}

/// Tells a view something, and does what it answers.
pub fn tell<L: Link, W: Sink>(
    view: &mut LiveView,
    input: &LiveInput,
    link: &mut L,
    out: &mut W,
) -> Result<(), ViewEnd>
    requires live { IsLive view.old }
    ensures live { IsLive view.new }
    ensures state { (address : List ℕ)
        → OnOk result (StepsTo (live_state address view.old) input.now (live_state address view.new)) }
    ensures told { (address : List ℕ)
        → AnswersOrNot (output_tells W.Sink) (links_tell L.Link)
        (live_step (live_state address view.old) input.now) result out.old out.new link.old link.new }
{
    let outcome = view.step(input)?;
    let answered = answer(&outcome, link, out);
    drop(outcome); // for the prover
    answered
}
