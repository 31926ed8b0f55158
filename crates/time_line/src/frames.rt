//! The keyframes of a session.
ghost use Rattle.std.specs.Prelude.{◌≡◌, ◌≤◌, ◌<◌, ◌+◌, ◌*◌, ◌/◌, length, map, take, false, [], IfOk, OnOk};
ghost use Rattle.std.specs.Arc.{arc_value};
ghost use Rattle.tea_base.specs.Legal.{IsLegal, TimesRiseAfter};
ghost use Rattle.model_solved.specs.Founding.{checked_tree, founding_of, IsFounding};
ghost use Rattle.world_plain.specs.World.{world_record};
ghost use Rattle.world.specs.Worlds.{first_scene, take_up};
ghost use Rattle.time_line.specs.Keyframes.{AreFrom, after_entries};

use crate::running::{enter_all, plain_of};
use message_queue::Steps;
use model_solved::Checked;
use session_log::Log;
use std::alloc::Global;
use std::marker::Brand;
use std::sync::Arc;
use std::sync::ledger::{Blank, Ledger};
use tea_base::{SessionId, WantOfMemory, push};
use world::World;
use world_plain::PlainWorld;

/// The keyframes of a session, the first of them its first world.
pub fn keyframes(
    alloc: Global,
    program: &Arc<Checked, Global>,
    id: SessionId,
    log: &Log,
    every: u32,
) -> Result<Vec<PlainWorld>, WantOfMemory>
    requires positive { 1 ≤ every }
    requires legal { IsLegal log.now.entries }
    ensures founded { OnOk result (IsFounding (founding_of (arc_value program.now))) }
    ensures all { IfOk result (λ frames. length (map world_record frames.items) ≡ length log.now.entries / every + 1) }
    ensures each { let founding = founding_of (arc_value program.now) in
        IfOk result (λ frames. AreFrom (λ k.
        after_entries founding.tree (first_scene founding id.0).world (take (k * every) log.now.entries)) 0
        (map world_record frames.items)) }
{
    let world = first(alloc, program.clone()?, id)?;
    frames_from(alloc, world, log, every)
}

/// The first world of a session, of which what its models published is dropped.
fn first(alloc: Global, program: Arc<Checked, Global>, id: SessionId) -> Result<World, WantOfMemory>
    ensures first { IfOk result (λ w. w ≡ record {
      program = arc_value program;
      scene = take_up (first_scene (founding_of (arc_value program)) id.0).world;
      broken = false;
    }) }
    ensures begins { IfOk result (λ w. w.scene.world.time ≡ 0) }
    ensures founded { IfOk result (λ w. IsFounding (founding_of w.program)) }
{
    let mut world = World::first(alloc, program, id)?;
    let _published = world.take_out();
    Ok(world)
}

/// A world, and the worlds after each so many entries of a log that goes on from it.
fn frames_from(
    alloc: Global,
    world: World,
    log: &Log,
    every: u32,
) -> Result<Vec<PlainWorld>, WantOfMemory>
    requires whole { world.broken ≡ false }
    requires quiet { world.scene.published ≡ [] }
    requires legal { IsLegal log.now.entries }
    requires rises { TimesRiseAfter world.scene.world.time log.now.entries }
    requires positive { 1 ≤ every }
    ensures all { IfOk result (λ frames. length (map world_record frames.items) ≡ length log.now.entries / every + 1) }
    ensures each { IfOk result (λ frames.
        AreFrom (λ k. after_entries (checked_tree world.program) world.scene.world (take (k * every) log.now.entries)) 0
        (map world_record frames.items)) }
{
    frames_counted::<Brand>(alloc, world, log, every, Blank::new(1))
}

/// The same, with steps that nobody looks at.
fn frames_counted<L: Ledger>(
    alloc: Global,
    mut world: World,
    log: &Log,
    every: u32,
    blank: Blank,
) -> Result<Vec<PlainWorld>, WantOfMemory>
    requires name { blank.name ≡ L.name }
    requires parts { blank.parts ≡ L.parts }
    requires some { 0 < blank.parts }
    requires whole { world.broken ≡ false }
    requires quiet { world.scene.published ≡ [] }
    requires legal { IsLegal log.now.entries }
    requires rises { TimesRiseAfter world.scene.world.time log.now.entries }
    requires positive { 1 ≤ every }
    ensures all { IfOk result (λ frames. length (map world_record frames.items) ≡ length log.now.entries / every + 1) }
    ensures each { IfOk result (λ frames.
        AreFrom (λ k. after_entries (checked_tree world.program) world.scene.world (take (k * every) log.now.entries)) 0
        (map world_record frames.items)) }
{
    let mut steps = Steps::<L>::new(blank);
    let mut frames = Vec::new(alloc);
    push(&mut frames, plain_of(&world)?)?;
    for k in 0..log.len() / every {
        enter_all(&mut world, log, k * every, (k + 1) * every, &mut steps)?;
        push(&mut frames, plain_of(&world)?)?;
    }
    Ok(frames)
}
