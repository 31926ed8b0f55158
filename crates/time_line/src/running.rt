//! A world that goes on over the entries of a log, step by step.
ghost use Rattle.std.specs.Prelude.{◌≡◌, ◌<◌, ◌≤◌, ◌+◌, ◌-◌, length, drop, take, slice_get, false, [], Some, IfOk, OnOk};
ghost use Rattle.tea_base.specs.Legal.{IsLegal, TimesRiseAfter};
ghost use Rattle.tea_base.specs.Limits.{time_limit};
ghost use Rattle.model_solved.specs.Methods.{field_counts};
ghost use Rattle.model_solved.specs.Founding.{checked_tree};
ghost use Rattle.world_plain.specs.World.{world_record};
ghost use Rattle.world.specs.Worlds.{advance as advanced, external as entered_by, take_up};
ghost use Rattle.time_line.specs.Keyframes.{after_entries};

use message_queue::Steps;
use session_log::{GetRefusal, Log};
use std::sync::ledger::Ledger;
use tea_base::{Entry, WantOfMemory};
use world::{World, WorldFault};
use world_plain::PlainWorld;

/// The entry with a seq, in memory of its own.
fn entry_of(log: &Log, seq: u32) -> Result<Entry, WantOfMemory>
    requires named { 0 < seq }
    requires there { seq ≤ length log.now.entries }
    ensures { IfOk result (λ entry. slice_get log.now.entries (seq - 1) ≡ Some entry) }
{
    match log.get(seq) {
        Ok(entry) => Ok(entry),
        Err(GetRefusal::NoSuchSeq) => unreachable!(),
        Err(GetRefusal::WantOfMemory) => Err(WantOfMemory),
    }
}

/// Handles an entry that is later than the world, and counts it as one step. What models published is dropped. No other
/// function of this crate handles an entry.
fn enter<L: Ledger>(
    world: &mut World,
    entry: &Entry,
    steps: &mut Steps<L>,
) -> Result<(), WantOfMemory>
    requires whole { world.old.broken ≡ false }
    requires later { world.old.scene.world.time < entry.now.time }
    requires bound { entry.now.time < time_limit }
    ensures entered { OnOk result (world.new ≡ record (world.old) {
      scene = take_up (entered_by (checked_tree world.old.program) entry.now world.old.scene).world;
    }) }
    ensures arrives { OnOk result (world.new.scene.world.time ≡ entry.now.time) }
    ensures counts { steps.new ≡ steps.old + 1 }
{
    steps.tick(); // for the prover
    match world.external(entry) {
        Ok(()) => {
            let _published = world.take_out();
            Ok(())
        }
        Err(WorldFault::Broken) => unreachable!(),
        Err(WorldFault::Back { .. }) => unreachable!(),
        Err(WorldFault::WantOfMemory) => Err(WantOfMemory),
    }
}

/// Handles the entries of a log from one place up to another, counted from 0, each as one step. The first of them is later
/// than the world.
pub fn enter_all<L: Ledger>(
    world: &mut World,
    log: &Log,
    from: u32,
    to: u32,
    steps: &mut Steps<L>,
) -> Result<(), WantOfMemory>
    requires whole { world.old.broken ≡ false }
    requires quiet { world.old.scene.published ≡ [] }
    requires legal { IsLegal log.now.entries }
    requires rises { TimesRiseAfter world.old.scene.world.time (drop from log.now.entries) }
    requires order { from ≤ to }
    requires within { to ≤ length log.now.entries }
    ensures entered { OnOk result (world.new ≡ record (world.old) {
      scene = take_up (after_entries (checked_tree world.old.program) world.old.scene.world
          (take (to - from) (drop from log.now.entries)));
    }) }
    ensures rises { OnOk result (TimesRiseAfter world.new.scene.world.time (drop to log.now.entries)) }
    ensures counts { OnOk result (steps.new ≡ steps.old + (to - from)) }
    ensures few { (steps.old ≤ steps.new) × (steps.new ≤ steps.old + (to - from)) }
{
    for place in from..to {
        let entry = entry_of(log, place + 1)?;
        enter(world, &entry, steps)?;
    }
    Ok(())
}

/// Advances a world to a time that is not below its own. What models published is dropped.
pub fn arrive(world: &mut World, time: u64) -> Result<(), WantOfMemory>
    requires whole { world.old.broken ≡ false }
    requires early { world.old.scene.world.time ≤ time }
    requires bound { time < time_limit }
    ensures { OnOk result (world.new ≡ record (world.old) {
      scene = take_up (advanced (checked_tree world.old.program) time world.old.scene).world;
    }) }
{
    match world.advance(time) {
        Ok(()) => {
            let _published = world.take_out();
            Ok(())
        }
        Err(WorldFault::Broken) => unreachable!(),
        Err(WorldFault::Back { .. }) => unreachable!(),
        Err(WorldFault::WantOfMemory) => Err(WantOfMemory),
    }
}

/// A world that is not broken, as plain data.
pub fn plain_of(world: &World) -> Result<PlainWorld, WantOfMemory>
    requires { world.now.broken ≡ false }
    ensures { IfOk result (λ plain. world_record plain ≡ world.now.scene.world) }
{
    match world.to_plain() {
        Ok(plain) => Ok(plain),
        Err(WorldFault::Broken) => unreachable!(),
        Err(WorldFault::Back { .. }) => unreachable!(),
        Err(WorldFault::WantOfMemory) => Err(WantOfMemory),
    }
}
