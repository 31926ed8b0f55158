//! What a command gives: its files are put, and then its text is printed.
ghost use Rattle.std.specs.Prelude.{◌≡◌, IfErr, OnOk};
ghost use Rattle.run_steps.specs.Outside.{LooksAt, PutsFile, Well, files_side, files_side_tells, files_tell, output_tells};
ghost use Rattle.command_outcome.specs.Outcome.{steps_of};
ghost use Rattle.croquet.specs.Calls.{Completes, TellsNoPlace, TellsUnput, all_well};
ghost use Rattle.croquet.specs.Run.{Does};

use crate::status::Status;
use crate::telling::{tell, tell_want_of_memory};
use command_outcome::{Outcome, Put};
use run_steps::{CallFault, look_at, print_text, put_file};
use tea_base::Text;
use tea_io::{Files, Sink};

/// Puts a file, or tells why it was not put.
pub(crate) fn put_or_tell<F: Files, W: Sink>(
    put: &Put,
    files: &mut F,
    out: &mut W,
) -> Result<(), Status>
    ensures put { OnOk result (PutsFile (files_tell F.Files) Well put.now.name put.now.bytes files.old files.new) }
    ensures quiet { OnOk result (out.new ≡ out.old) }
    ensures told { IfErr result (TellsUnput (files_tell F.Files) (output_tells W.Sink)
        put.now files.old out.old files.new out.new) }
{
    match put_file(files, &put.name, put.bytes.bytes()) {
        Ok(()) => Ok(()),
        Err(CallFault::Failed) => Err(tell(out, "write-fault\n", Status::WriteFault)),
        Err(CallFault::WantOfMemory) => Err(tell_want_of_memory(out)),
    }
}

/// Looks whether a file can be put under a name, or tells why not.
pub(crate) fn look_or_tell<F: Files, W: Sink>(
    name: &Text,
    files: &mut F,
    out: &mut W,
) -> Result<(), Status>
    ensures looked { OnOk result (LooksAt (files_tell F.Files) Well name.now files.old files.new) }
    ensures quiet { OnOk result (out.new ≡ out.old) }
    ensures told { IfErr result (TellsNoPlace (files_tell F.Files) (output_tells W.Sink)
        name.now files.old out.old files.new out.new) }
{
    match look_at(files, name) {
        Ok(()) => Ok(()),
        Err(CallFault::Failed) => Err(tell(out, "write-fault\n", Status::WriteFault)),
        Err(CallFault::WantOfMemory) => Err(tell_want_of_memory(out)),
    }
}

/// Puts the files of a command and prints its text, or tells why this was not done.
pub(crate) fn give<F: Files, W: Sink>(
    outcome: &Outcome,
    files: &mut F,
    out: &mut W,
) -> Result<(), Status>
    ensures { Completes (files_side_tells (files_tell F.Files) (output_tells W.Sink))
        (steps_of outcome.now.files outcome.now.text) result (files_side files.old out.old)
        (files_side files.new out.new) }
{
    for put in outcome.files.as_slice() {
        put_or_tell(put, files, out)?;
    }
    match print_text(out, outcome.text.bytes()) {
        Ok(()) => Ok(()),
        Err(CallFault::Failed) => Err(Status::WriteFault),
        Err(CallFault::WantOfMemory) => Err(tell_want_of_memory(out)),
    }
}

/// Puts the files of a command and prints its text, which is all that it does.
pub(crate) fn finish<F: Files, W: Sink>(outcome: &Outcome, files: &mut F, out: &mut W) -> Status
    ensures { Does (files_side_tells (files_tell F.Files) (output_tells W.Sink))
        (steps_of outcome.now.files outcome.now.text) all_well (files_side files.old out.old)
        (files_side files.new out.new) result }
{
    match give(outcome, files, out) {
        Ok(()) => Status::Ok,
        Err(status) => status,
    }
}
