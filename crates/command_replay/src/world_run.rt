//! A world that goes on over the entries of a log.
ghost use Rattle.std.specs.Prelude.{◌≡◌, ◌<◌, ◌≤◌, ◌-◌, length, slice_get, false, Some, IfOk, OnOk};
ghost use Rattle.std.specs.Option.{IfSome, option_map};
ghost use Rattle.tea_base.specs.Legal.{IsLegal};
ghost use Rattle.model_solved.specs.Methods.{field_counts};
ghost use Rattle.world_plain.specs.Valid.{Valid};
ghost use Rattle.tea_base.specs.Limits.{time_limit};
ghost use Rattle.world_plain.specs.World.{world_record};
ghost use Rattle.model_solved.specs.Founding.{checked_tree};
ghost use Rattle.snapshot_codec.specs.Conditions.{IsValid};
ghost use Rattle.world.specs.Worlds.{advance as advanced, entries_behind, external as entered_by, replay_from};
ghost use Rattle.command_replay.specs.Replays.{Opens, TellsWorld, world_at};

use crate::recording::Recording;
use model_solved::Checked;
use persist_json::to_json;
use session_log::{GetRefusal, Log};
use snapshot_codec::{digest, snapshot};
use std::alloc::Global;
use std::sync::Arc;
use tea_base::{Blob, Entry, SessionId, WantOfMemory};
use world::{World, WorldFault};
use world_lines::world_line;
use world_plain::PlainWorld;

/// What is told of a world: its line, its snapshot, and the JSON of its saved value.
#[derive(Drop)]
pub struct Told {
    pub line: String,
    pub snapshot: Blob,
    pub saved: Blob,
}

/// The entry with a seq, in memory of its own.
fn entry_of(log: &Log, seq: u32) -> Result<Entry, WantOfMemory>
    requires named { 0 < seq }
    requires there { seq ≤ length log.now.entries }
    ensures { IfOk result (λ entry. slice_get log.now.entries (seq - 1) ≡ Some entry) }
{
    match log.get(seq) {
        Ok(entry) => Ok(entry),
        Err(GetRefusal::NoSuchSeq) => unreachable!(),
        Err(GetRefusal::WantOfMemory) => Err(WantOfMemory),
    }
}

/// Handles an entry that lies behind the world's time.
fn handle(world: &mut World, entry: &Entry) -> Result<(), WantOfMemory>
    requires whole { world.old.broken ≡ false }
    requires later { world.old.scene.world.time < entry.now.time }
    requires bound { entry.now.time < time_limit }
    ensures handled { OnOk result (world.new ≡ record (world.old) {
      scene = entered_by (checked_tree world.old.program) entry.now world.old.scene;
    }) }
    ensures arrives { OnOk result (world.new.scene.world.time ≡ entry.now.time) }
{
    match world.external(entry) {
        Ok(()) => Ok(()),
        Err(WorldFault::Broken) => unreachable!(),
        Err(WorldFault::Back { .. }) => unreachable!(),
        Err(WorldFault::WantOfMemory) => Err(WantOfMemory),
    }
}

/// Advances to a time that is not below the world's.
fn advance(world: &mut World, time: u64) -> Result<(), WantOfMemory>
    requires whole { world.old.broken ≡ false }
    requires early { world.old.scene.world.time ≤ time }
    requires bound { time < time_limit }
    ensures { OnOk result (world.new ≡ record (world.old) {
      scene = advanced (checked_tree world.old.program) time world.old.scene;
    }) }
{
    match world.advance(time) {
        Ok(()) => Ok(()),
        Err(WorldFault::Broken) => unreachable!(),
        Err(WorldFault::Back { .. }) => unreachable!(),
        Err(WorldFault::WantOfMemory) => Err(WantOfMemory),
    }
}

/// Handles the entries behind the world's time that are not above this one, and advances to it.
fn go_on(world: &mut World, log: &Log, time: u64) -> Result<(), WantOfMemory>
    requires whole { world.old.broken ≡ false }
    requires early { world.old.scene.world.time ≤ time }
    requires bound { time < time_limit }
    ensures goes { OnOk result (world.new ≡ record (world.old) {
      scene =
          replay_from (checked_tree world.old.program) time
          (entries_behind world.old.scene.world.time log.now.entries) world.old.scene;
    }) }
    ensures legal { OnOk result (IsLegal log.now.entries) }
{
    for place in log.count_until(world.time())..log.len() {
        let seq = place + 1;
        if log.time_of(seq) <= time {
            let entry = entry_of(log, seq)?;
            handle(world, &entry)?;
        }
    }
    advance(world, time)
}

/// The world from which a replay begins: the first one, or the one that is taken up.
fn open(
    alloc: Global,
    program: Checked,
    id: SessionId,
    start: &Option<PlainWorld>,
) -> Result<World, WantOfMemory>
    requires { IfSome start.now (λ world. Valid (field_counts (checked_tree program)) (world_record world)) }
    ensures { IfOk result (λ world. Opens world program id.0 (option_map world_record start.now)) }
{
    let program = Arc::new(alloc, program)?;
    match start {
        Some(plain) => World::from_plain(alloc, program, plain),
        None => World::first(alloc, program, id),
    }
}

/// A world that is not broken, as plain data.
pub fn plain_of(world: &World) -> Result<PlainWorld, WantOfMemory>
    requires { world.now.broken ≡ false }
    ensures copy { IfOk result (λ plain. world_record plain ≡ world.now.scene.world) }
    ensures valid { IfOk result (λ plain. Valid (field_counts (checked_tree world.now.program)) (world_record plain)) }
{
    match world.to_plain() {
        Ok(plain) => Ok(plain),
        Err(WorldFault::Broken) => unreachable!(),
        Err(WorldFault::Back { .. }) => unreachable!(),
        Err(WorldFault::WantOfMemory) => Err(WantOfMemory),
    }
}

/// The world of a session at a time, from its beginning or from a world that is taken up, as plain data.
fn arrive(
    alloc: Global,
    recording: Recording,
    start: Option<PlainWorld>,
    time: u64,
) -> Result<PlainWorld, WantOfMemory>
    requires time { time < time_limit }
    requires valid { IfSome start (λ world.
        Valid (field_counts (checked_tree recording.program)) (world_record world)) }
    requires early { IfSome start (λ world. world.time ≤ time) }
    ensures world { IfOk result (λ plain. world_record plain
        ≡ world_at recording time (option_map world_record start)) }
    ensures valid { IfOk result (λ plain. IsValid (world_record plain)) }
{
    let Recording { program, id, log } = recording;
    let mut world = open(alloc, program, id, &start)?;
    go_on(&mut world, &log, time)?;
    plain_of(&world)
}

/// What is told of a world.
fn tell_world(alloc: Global, world: &PlainWorld) -> Result<Told, WantOfMemory>
    requires { IsValid (world_record world.now) }
    ensures { IfOk result (λ told. TellsWorld told (world_record world.now)) }
{
    let snapshot = snapshot(alloc, world)?;
    let line = world_line(alloc, world, &digest(snapshot.bytes()))?;
    let saved = to_json(alloc, &world.saved)?;
    Ok(Told {
        line,
        snapshot,
        saved,
    })
}

/// What is told of the world of a session at a time, from its beginning or from a world that is taken up.
pub fn tell_replay(
    alloc: Global,
    recording: Recording,
    start: Option<PlainWorld>,
    time: u64,
) -> Result<Told, WantOfMemory>
    requires time { time < time_limit }
    requires valid { IfSome start (λ world.
        Valid (field_counts (checked_tree recording.program)) (world_record world)) }
    requires early { IfSome start (λ world. world.time ≤ time) }
    ensures { IfOk result (λ told. TellsWorld told (world_at recording time (option_map world_record start))) }
{
    let world = arrive(alloc, recording, start, time)?;
    tell_world(alloc, &world)
}
