//! From a recorded session to the lines of what ran.
ghost use Rattle.std.specs.Prelude.{◌≡◌, ◌<◌, ◌≤◌, ◌++◌, ℕ, List, false, None, is_some, IfOk, OnOk, string_bytes};
ghost use Rattle.std.specs.Arc.{arc_value};
ghost use Rattle.tea_base.specs.Limits.{time_limit};
ghost use Rattle.model_tree.specs.TreeView.{program_tree};
ghost use Rattle.model_solved.specs.Founding.{checked_tree, founding_of};
ghost use Rattle.world.specs.Worlds.{advance as advanced, external as entered_by, first_scene};
ghost use Rattle.world.specs.Turns.{after_turn, next_ran};
ghost use Rattle.world.specs.View.{IsSoundWorld};
ghost use Rattle.command_trace.specs.Steps.{turn_steps, turns_until, entry_steps, first_steps, steps_on};
ghost use Rattle.command_trace.specs.TraceText.{steps_text, trace_text};

use crate::lines::{push_entry, push_message, push_raised};
use crate::running::{enter, entry_of, turn};
use crate::stretch::Stretch;
use model_solved::Checked;
use model_tree::Class;
use session_log::Log;
use std::alloc::Global;
use std::sync::Arc;
use tea_base::{Entry, SessionId, WantOfMemory};
use world::World;

/// Runs the message that is due first up to a time, and appends its lines if it is not before `from`. Tells whether one was due.
fn tell_turn(
    world: &mut World,
    classes: &[Class],
    from: u64,
    until: u64,
    text: &mut String,
) -> Result<bool, WantOfMemory>
    requires { world.old.broken ≡ false }
    ensures sound { IsSoundWorld world.old }
    ensures turned { OnOk result (world.new ≡ record (world.old) {
      scene = after_turn (checked_tree world.old.program) until world.old.scene;
    }) }
    ensures ran { IfOk result (λ ran. ran ≡ is_some (next_ran until world.old.scene.world)) }
    ensures told { OnOk result (string_bytes text.new
        ≡ string_bytes text.old ++ steps_text (program_tree classes.now) from
        (turn_steps (checked_tree world.old.program) until (next_ran until world.old.scene.world) world.old.scene)) }
{
    let before = world.faults();
    let Some(ran) = turn(world, until)? else {
        return Ok(false);
    };
    if from <= ran.time {
        push_message(text, classes, &ran)?;
        push_raised(text, &before, &world.faults())?;
    }
    Ok(true)
}

/// Runs the messages that are due up to a time, and appends the lines of those that are not before `from`.
fn tell_turns(
    world: &mut World,
    classes: &[Class],
    from: u64,
    until: u64,
    text: &mut String,
) -> Result<(), WantOfMemory>
    requires { world.old.broken ≡ false }
    ensures told { OnOk result (string_bytes text.new
        ≡ string_bytes text.old ++ steps_text (program_tree classes.now) from
        (turns_until (checked_tree world.old.program) until world.old.scene)) }
    ensures rests { OnOk result (next_ran until world.new.scene.world ≡ None) }
    ensures goes_on { OnOk result (advanced (checked_tree world.old.program) until world.new.scene
        ≡ advanced (checked_tree world.old.program) until world.old.scene) }
    ensures early { OnOk result (world.old.scene.world.time ≤ until → world.new.scene.world.time ≤ until) }
    ensures kept { OnOk result ((world.new.program ≡ world.old.program) × (world.new.broken ≡ false)) }
{
    'turns: while tell_turn(world, classes, from, until, text)? {}
    Ok(())
}

/// Runs the messages that are due up to an entry's time and then the entry, and appends the lines of what is not before `from`.
fn tell_entry(
    world: &mut World,
    classes: &[Class],
    entry: &Entry,
    from: u64,
    text: &mut String,
) -> Result<(), WantOfMemory>
    requires whole { world.old.broken ≡ false }
    requires early { world.old.scene.world.time ≤ entry.now.time }
    requires bound { entry.now.time < time_limit }
    ensures entered { OnOk result (world.new ≡ record (world.old) {
      scene = entered_by (checked_tree world.old.program) entry.now world.old.scene;
    }) }
    ensures arrives { OnOk result (world.new.scene.world.time ≡ entry.now.time) }
    ensures told { OnOk result (string_bytes text.new
        ≡ string_bytes text.old ++ steps_text (program_tree classes.now) from
        (entry_steps (checked_tree world.old.program) entry.now world.old.scene)) }
{
    tell_turns(world, classes, from, entry.time, text)?;
    let before = world.faults();
    let heard = enter(world, entry)?;
    if from <= entry.time {
        push_entry(text, entry, &heard)?;
        push_raised(text, &before, &world.faults())?;
    }
    Ok(())
}

/// Runs the entries of a log up to the end of a stretch, with the messages that are due, and appends the lines of what is in it.
fn tell_log(
    world: &mut World,
    classes: &[Class],
    log: &Log,
    stretch: Stretch,
    text: &mut String,
) -> Result<(), WantOfMemory>
    requires whole { world.old.broken ≡ false }
    requires begins { world.old.scene.world.time ≡ 0 }
    requires bound { stretch.to < time_limit }
    ensures { OnOk result (string_bytes text.new
        ≡ string_bytes text.old ++ steps_text (program_tree classes.now) stretch.from
        (steps_on (checked_tree world.old.program) stretch.to log.now.entries world.old.scene)) }
{
    for place in 0..log.len() {
        let entry = entry_of(log, place + 1)?;
        if entry.time <= stretch.to {
            tell_entry(world, classes, &entry, stretch.from, text)?;
        }
    }
    tell_turns(world, classes, stretch.from, stretch.to, text)
}

/// Appends the lines of the message with which a session began, if there was one and it is not before `from`.
fn tell_first(
    alloc: Global,
    program: &Checked,
    world: &World,
    from: u64,
    text: &mut String,
) -> Result<(), WantOfMemory>
    ensures { OnOk result ((id : List ℕ) → world.now.scene ≡ first_scene (founding_of program.now) id →
        string_bytes text.new ≡ string_bytes text.old
        ++ steps_text (checked_tree program.now) from (first_steps (founding_of program.now) id)) }
{
    let Some(ran) = World::first_message(alloc, program)? else {
        return Ok(());
    };
    if from <= ran.time {
        push_message(text, program.program().classes(), &ran)?;
        push_raised(text, &[0; 14], &world.faults())?;
    }
    Ok(())
}

/// What ran in a stretch of time of a recorded session, in order, a line for each message, for each entry of the log and for each fault. The
/// stretch ends before 2^53. It fails only where it runs out of memory. All text is in memory before any of it is printed.
pub fn trace(
    alloc: Global,
    program: Arc<Checked, Global>,
    id: SessionId,
    log: &Log,
    stretch: Stretch,
) -> Result<String, WantOfMemory>
    requires { stretch.to < time_limit }
    ensures { IfOk result (λ text. string_bytes text
        ≡ trace_text (founding_of (arc_value program)) id.0 log.now.entries stretch.from stretch.to) }
{
    let mut text = String::new(alloc);
    let mut world = World::first(alloc, program.clone()?, id)?;
    tell_first(alloc, &program, &world, stretch.from, &mut text)?;
    let classes = program.program().classes();
    tell_log(&mut world, classes, log, stretch, &mut text)?;
    Ok(text)
}
