//! What a drill tells.
ghost use Rattle.std.specs.Prelude.{◌≡◌, All, IfOk, map};
ghost use Rattle.drill.specs.Reports.{IsWhole};
ghost use Rattle.run_steps.specs.Outside.{files_side, files_side_tells, files_tell, output_tells};
ghost use Rattle.command_outcome.specs.Outcome.{steps_of};
ghost use Rattle.command_drill.specs.DrilledSteps.{drilled_steps};
ghost use Rattle.croquet.specs.Calls.{OfReport, snapshot_of};
ghost use Rattle.croquet.specs.Run.{RanBySteps};

use crate::giving::finish;
use crate::status::Status;
use crate::telling::tell_want_of_memory;
use command_drill::{Drilled, drilled_outcome};
use command_outcome::Outcome;
use command_words::DrillRequest;
use drill::{DrillReport, Replicas};
use std::alloc::Global;
use tea_base::{Blob, List, WantOfMemory};
use tea_io::{Files, Sink};
use world::WorldFault;

/// The snapshots of whole replicas, in order.
fn snapshots(alloc: Global, replicas: &Replicas) -> Result<List<Blob>, WantOfMemory>
    requires { All IsWhole replicas.now }
    ensures { IfOk result (λ snapshots. snapshots ≡ map snapshot_of replicas.now) }
{
    let mut snapshots = List::new(alloc);
    for replica in replicas.as_slice() {
        match replica.snap() {
            Ok(snapshot) => snapshots.push(snapshot)?,
            Err(WorldFault::WantOfMemory) => return Err(WantOfMemory),
            Err(WorldFault::Broken) => unreachable!(),
            Err(WorldFault::Back { .. }) => unreachable!(),
        }
    }
    Ok(snapshots)
}

/// What is put and printed of a drill.
fn outcome_of(
    alloc: Global,
    request: DrillRequest,
    report: DrillReport,
) -> Result<Outcome, WantOfMemory>
    requires { All IsWhole report.replicas }
    ensures { IfOk result (λ outcome. steps_of outcome.files outcome.text
        ≡ drilled_steps request report.session.plain (map snapshot_of report.replicas) report.total report.agree) }
{
    let DrillReport {
        session,
        replicas,
        total,
        agree,
    } = report;
    let drilled = Drilled {
        session,
        snapshots: snapshots(alloc, &replicas)?,
        total,
        agree,
    };
    drilled_outcome(alloc, request, drilled)
}

/// Tells what has come of a drill, whose replicas are whole.
pub(crate) fn tell_drilled<F: Files, W: Sink>(
    alloc: Global,
    request: DrillRequest,
    answer: Result<DrillReport, WantOfMemory>,
    files: &mut F,
    out: &mut W,
) -> Status
    requires { IfOk answer (λ report. All IsWhole report.replicas) }
    ensures { RanBySteps (files_side_tells (files_tell F.Files) (output_tells W.Sink))
        (OfReport request answer) (files_side files.old out.old) (files_side files.new out.new) result }
{
    let Ok(report) = answer else {
        return tell_want_of_memory(out);
    };
    match outcome_of(alloc, request, report) {
        Ok(outcome) => finish(&outcome, files, out),
        Err(WantOfMemory) => tell_want_of_memory(out),
    }
}
