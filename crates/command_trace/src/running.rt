//! A recorded session that runs step by step.
ghost use Rattle.std.specs.Prelude.{◌≡◌, ◌<◌, ◌≤◌, ◌-◌, length, slice_get, false, Some, IfOk, OnOk};
ghost use Rattle.std.specs.Option.{option_map};
ghost use Rattle.tea_base.specs.Limits.{time_limit};
ghost use Rattle.model_solved.specs.Founding.{checked_tree};
ghost use Rattle.world.specs.Worlds.{advance as advanced, external as entered_by};
ghost use Rattle.world.specs.Turns.{after_turn, heard_of, next_ran};
ghost use Rattle.world.specs.View.{plain_ran, IsSoundWorld};

use session_log::{GetRefusal, Log};
use tea_base::{Entry, WantOfMemory};
use world::{HeardEvent, RanMessage, World, WorldFault};

/// The entry with a seq, in memory of its own.
pub fn entry_of(log: &Log, seq: u32) -> Result<Entry, WantOfMemory>
    requires named { 0 < seq }
    requires there { seq ≤ length log.now.entries }
    ensures { IfOk result (λ entry. slice_get log.now.entries (seq - 1) ≡ Some entry) }
{
    match log.get(seq) {
        Ok(entry) => Ok(entry),
        Err(GetRefusal::NoSuchSeq) => unreachable!(),
        Err(GetRefusal::WantOfMemory) => Err(WantOfMemory),
    }
}

/// Runs the message that is due first, if one is due up to a time.
pub fn turn(world: &mut World, until: u64) -> Result<Option<RanMessage>, WantOfMemory>
    requires { world.old.broken ≡ false }
    ensures turned { OnOk result (world.new ≡ record (world.old) {
      scene = after_turn (checked_tree world.old.program) until world.old.scene;
    }) }
    ensures told { IfOk result (λ ran. option_map plain_ran ran ≡ next_ran until world.old.scene.world) }
    ensures sound { IsSoundWorld world.new }
{
    match world.turn(until) {
        Ok(ran) => Ok(ran),
        Err(WorldFault::Broken) => unreachable!(),
        Err(WorldFault::Back { .. }) => unreachable!(),
        Err(WorldFault::WantOfMemory) => Err(WantOfMemory),
    }
}

/// Handles an entry that is not earlier than the world.
pub fn enter(world: &mut World, entry: &Entry) -> Result<Option<HeardEvent>, WantOfMemory>
    requires whole { world.old.broken ≡ false }
    requires early { world.old.scene.world.time ≤ entry.now.time }
    requires bound { entry.now.time < time_limit }
    ensures entered { OnOk result (world.new ≡ record (world.old) {
      scene = entered_by (checked_tree world.old.program) entry.now world.old.scene;
    }) }
    ensures arrives { OnOk result (world.new.scene.world.time ≡ entry.now.time) }
    ensures told { IfOk result (λ heard. heard
        ≡ heard_of (advanced (checked_tree world.old.program) entry.now.time world.old.scene).world entry.now.view
        entry.now.what) }
{
    match world.enter(entry) {
        Ok(heard) => Ok(heard),
        Err(WorldFault::Broken) => unreachable!(),
        Err(WorldFault::Back { .. }) => unreachable!(),
        Err(WorldFault::WantOfMemory) => Err(WantOfMemory),
    }
}
