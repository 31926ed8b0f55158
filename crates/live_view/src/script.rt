//! The lines that are left.
ghost use Rattle.std.specs.Prelude.{◌≡◌, ◌≤◌, ◌+◌, ℕ, List, drop, length, Some, IfOk, OnOk};
ghost use Rattle.std.specs.List.{AllByRecursion};
ghost use Rattle.view_script.specs.PlainLine.{LineFits, plain_lines, publish_count};
ghost use Rattle.view_shell.specs.Phases.{Phase};
ghost use Rattle.view_shell.specs.Viewers.{HasRoomFor, IsReady, KnowsItself, viewer};
ghost use Rattle.live_view.specs.Live.{bad_line, lines_from, waits};
ghost use Rattle.live_view.specs.Doing.{Tells, after, phase_at, votes_at};

use crate::doing::leave;
use crate::input::{Goal, Place};
use crate::lines::run_line;
use crate::outcome::LiveOutcome;
use crate::texts::bad_line_text;
use std::alloc::Global;
use tea_base::WantOfMemory;
use view_script::ViewLine;
use view_shell::{ViewEnd, Watcher};

/// Where a view waits, and how many lines were begun.
#[derive(Clone, Copy, Debug, PartialEq, Eq)]
pub struct Stopped {
    pub place: Place,
    pub count: usize,
}

/// Tells that the line of this number is none.
pub fn tell_bad_line(alloc: Global, out: &mut LiveOutcome, number: u64) -> Result<(), WantOfMemory>
    ensures { (phase : Phase) → OnOk result (Tells out.old out.new (bad_line number phase) phase) }
{
    let text = bad_line_text(alloc, number)?;
    out.text.push_str(text.as_str())?;
    Ok(())
}

/// Does lines, up to where one waits.
pub fn do_lines(
    watcher: &mut Watcher,
    out: &mut LiveOutcome,
    lines: &[ViewLine],
    closed: bool,
) -> Result<Stopped, WantOfMemory>
    requires ready { IsReady watcher.old }
    requires fit { AllByRecursion LineFits (plain_lines lines.now) }
    requires room { HasRoomFor watcher.old (plain_lines lines.now) }
    ensures ready { OnOk result (IsReady watcher.new) }
    ensures knows { KnowsItself watcher.new }
    ensures count { IfOk result (λ stopped. watcher.new.published + votes_at (Some stopped.place)
        + publish_count (plain_lines (drop stopped.count lines.now))
        ≤ watcher.old.published + publish_count (plain_lines lines.now)) }
    ensures few { IfOk result (λ stopped. stopped.count ≤ length lines.now) }
    ensures told { (address : List ℕ)
        → IfOk result (λ stopped. after out.old
        (lines_from closed (plain_lines lines.now) (viewer address watcher.old (plain_lines lines.now)))
        ≡ after out.new (waits (phase_at stopped.place
        (viewer address watcher.new (plain_lines (drop stopped.count lines.now)))))) }
{
    for index in 0..lines.len() {
        match run_line(watcher, out, &lines[index])? {
            None => {}
            Some(place) => {
                return Ok(Stopped {
                    place,
                    count: index + 1,
                });
            }
        }
    }
    let count = lines.len();
    if closed {
        leave(watcher, out)?;
        return Ok(Stopped {
            place: Place::Gone(ViewEnd::Done),
            count,
        });
    }
    Ok(Stopped {
        place: Place::Hears(Goal::CatchUp),
        count,
    })
}
