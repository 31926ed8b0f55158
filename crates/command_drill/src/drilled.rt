//! What is put and printed of a drill: the command `drill`.
ghost use Rattle.std.specs.Prelude.{◌≡◌, ◌++◌, IfOk, OnOk, string_bytes, length};
ghost use Rattle.command_drill.specs.DrilledSteps.{drilled_line, total_part, drilled_steps};
ghost use Rattle.command_outcome.specs.Outcome.{numbered_puts, steps_of};

use command_outcome::{Outcome, Puts, optional_put, put_numbered};
use command_words::DrillRequest;
use reflector_core::Session;
use std::alloc::Global;
use std::fmt::Write;
use tea_base::{Blob, List, Text, WantOfMemory};
use text_lines::spell_numbers;

/// What a drill has left.
#[derive(Drop)]
pub struct Drilled {
    /// The session, as it was closed.
    pub session: Session,
    /// The snapshot of each view's replica, from view 1 on.
    pub snapshots: List<Blob>,
    /// The field `total` of Root in the world of view 1.
    pub total: i64,
    /// How many views have the snapshot of view 1.
    pub agree: u32,
}

/// What the total of its views adds to the line of a drill.
fn total_part(alloc: Global, total: i64) -> Result<String, WantOfMemory>
    ensures { IfOk result (λ text. string_bytes text ≡ total_part total) }
{
    let mut text = String::from_str(alloc, " total ")?;
    write!(text, "{total}")?;
    Ok(text)
}

/// The line of a drill: its size, how many entries its log has, and to what its views have come.
fn drilled_line(
    alloc: Global,
    request: &DrillRequest,
    drilled: &Drilled,
) -> Result<String, WantOfMemory>
    ensures { IfOk result (λ line. string_bytes line
        ≡ drilled_line request.now (length drilled.now.session.plain.log) drilled.now.total drilled.now.agree) }
{
    let events = u64::from(request.views) * u64::from(request.events);
    let entries = u64::from(drilled.session.log().len());
    let mut line = spell_numbers(alloc, "views", &[u64::from(request.views)])?;
    line.push_str(spell_numbers(alloc, " events", &[events])?.as_str())?;
    line.push_str(spell_numbers(alloc, " entries", &[entries])?.as_str())?;
    line.push_str(total_part(alloc, drilled.total)?.as_str())?;
    line.push_str(spell_numbers(alloc, " agree", &[u64::from(drilled.agree)])?.as_str())?;
    line.push_str("\n")?;
    Ok(line)
}

/// Puts the snapshots behind the log, which is the first file: so a view's number is the place of its file.
fn put_snapshots(
    alloc: Global,
    files: &mut Puts,
    prefix: &Text,
    snapshots: List<Blob>,
) -> Result<(), WantOfMemory>
    ensures { OnOk result (files.new ≡ files.old ++ numbered_puts prefix.now (length files.old) snapshots) }
{
    for bytes in snapshots.into_vec() {
        put_numbered(alloc, files, prefix, files.len() as u64, bytes)?;
    }
    Ok(())
}

/// What is put and printed of a drill: its session, the snapshot of each view, and its line.
pub fn drilled_outcome(
    alloc: Global,
    request: DrillRequest,
    drilled: Drilled,
) -> Result<Outcome, WantOfMemory>
    ensures { IfOk result (λ outcome. steps_of outcome.files outcome.text
        ≡ drilled_steps request drilled.session.plain drilled.snapshots drilled.total drilled.agree) }
{
    let line = drilled_line(alloc, &request, &drilled)?;
    let DrillRequest { log, snapshots, .. } = request;
    let mut files = optional_put(alloc, Some(log), drilled.session.store()?)?;
    put_snapshots(alloc, &mut files, &snapshots, drilled.snapshots)?;
    Ok(Outcome {
        files,
        text: Blob::from_vec(line.into_bytes()),
    })
}
