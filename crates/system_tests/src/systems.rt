//! Systems, and what is told of them.
ghost use Rattle.std.specs.Prelude.{◌<◌};
ghost use Rattle.tea_base.specs.Limits.{time_limit};
ghost use Rattle.system_core.specs.Schedules.{AreInBounds};

use model_check::check;
use model_lang::parse;
use model_solved::Checked;
use replica::Replica;
use session_log::Log;
use snapshot_codec::snapshot;
use std::alloc::Global;
use std::sync::Arc;
use std::test::Fail;
use system_core::{Schedule, StepFault, System};
use tea_base::{Blob, Entry, SessionId, TIME_LIMIT, WantOfMemory, What};
use world::World;

/// The session of each of these systems.
pub(crate) const ID: SessionId = SessionId([7; 32]);

/// A program, and a system that runs it.
#[derive(Drop)]
pub(crate) struct Trial {
    pub(crate) program: Arc<Checked, Global>,
    pub(crate) system: System,
}

/// A program that was read and checked.
pub(crate) fn checked_program(alloc: Global, text: &str) -> Result<Arc<Checked, Global>, Fail> {
    let checked = check(alloc, parse(alloc, text.as_bytes())?)?;
    Ok(Arc::new(alloc, checked)?)
}

/// The first system of a program.
pub(crate) fn first_trial(alloc: Global, text: &str) -> Result<Trial, Fail> {
    let program = checked_program(alloc, text)?;
    let system = System::first(alloc, program.clone()?, ID)?;
    Ok(Trial { program, system })
}

/// Takes all steps.
pub(crate) fn take_all(system: &mut System, steps: &Schedule) -> Result<(), StepFault>
    requires { AreInBounds steps.now }
{
    let list = steps.as_slice();
    for step in list {
        system.step(step)?;
    }
    Ok(())
}

/// Puts a replica's time, how many entries it has seen, and whether it is settled.
fn put_replica(alloc: Global, told: &mut String, replica: &Replica) -> Result<(), WantOfMemory> {
    let (time, seen) = (replica.time(), replica.seen());
    let state = if replica.settled() {
        "settled"
    } else {
        "waits"
    };
    let text = format!(in alloc; "time {time} seen {seen} {state}")?;
    Ok(told.push_str(text.as_str())?)
}

/// Puts the kind of an entry, with its time.
fn put_entry(alloc: Global, told: &mut String, entry: &Entry) -> Result<(), WantOfMemory> {
    let what = match entry.what {
        What::Join => "Join",
        What::Exit => "Exit",
        What::Event { .. } => "Event",
    };
    let text = format!(in alloc; " {what} {}", entry.time)?;
    Ok(told.push_str(text.as_str())?)
}

/// Puts the entry with a seq, if there is one.
fn put_seq(alloc: Global, told: &mut String, log: &Log, seq: u32) -> Result<(), WantOfMemory> {
    match log.get(seq) {
        Ok(entry) => put_entry(alloc, told, &entry),
        Err(_) => Err(WantOfMemory),
    }
}

fn put_log(alloc: Global, told: &mut String, log: &Log) -> Result<(), WantOfMemory> {
    for seq in 1..=log.len() {
        put_seq(alloc, told, log, seq)?;
    }
    Ok(())
}

/// Puts the replica of a view, and the log.
fn put_view(
    alloc: Global,
    told: &mut String,
    system: &System,
    view: u32,
) -> Result<(), WantOfMemory> {
    if let Some(replica) = system.replica(view) {
        put_replica(alloc, told, replica)?;
    }
    told.push_str(" |")?;
    put_log(alloc, told, system.session().log())
}

/// The view and the log are told so.
pub(crate) fn is_told(alloc: Global, system: &System, view: u32, wanted: &str) -> bool {
    let mut told = String::new(alloc);
    put_view(alloc, &mut told, system, view).is_ok() && told.as_str() == wanted
}

/// The snapshot of a view's replica.
fn snapshot_of_view(system: &System, view: u32) -> Option<Blob> {
    system.replica(view)?.snap().ok()
}

/// The snapshot of a world.
fn snapshot_of(alloc: Global, world: &World) -> Option<Blob> {
    match world.to_plain() {
        Ok(plain) => snapshot(alloc, &plain).ok(),
        Err(_) => None,
    }
}

/// The world takes an entry, if it is not later than a time.
fn has_taken(world: &mut World, entry: &Entry, time: u64) -> bool
    requires { time < time_limit }
{
    time < entry.time || world.external(entry).is_ok()
}

/// The world takes all entries of a log that are not later than a time.
fn has_taken_all(world: &mut World, log: &Log, time: u64) -> bool
    requires { time < time_limit }
{
    for seq in 1..=log.len() {
        if !matches!(log.get(seq), Ok(entry) if has_taken(world, &entry, time)) {
            return false;
        }
    }
    true
}

/// The snapshot of the replay of a log to a time.
fn replay_snapshot(
    alloc: Global,
    program: Arc<Checked, Global>,
    log: &Log,
    time: u64,
) -> Option<Blob>
    requires { time < time_limit }
{
    let mut world = World::first(alloc, program, ID).ok()?;
    if has_taken_all(&mut world, log, time) && world.advance(time).is_ok() {
        snapshot_of(alloc, &world)
    } else {
        None
    }
}

/// The snapshot of the replay of the trial's log to the time of a view's replica.
fn replay_to_view(alloc: Global, trial: &Trial, view: u32) -> Option<Blob> {
    let time = trial.system.replica(view)?.time();
    if time >= TIME_LIMIT {
        return None;
    }
    let program = trial.program.clone().ok()?;
    replay_snapshot(alloc, program, trial.system.session().log(), time)
}

/// Both snapshots are there, and they are equal.
fn are_equal(one: &Option<Blob>, other: &Option<Blob>) -> bool {
    match (one, other) {
        (Some(one), Some(other)) => one == other,
        _ => false,
    }
}

/// The replicas of two views have the same snapshot.
pub(crate) fn are_same(system: &System, view: u32, other: u32) -> bool {
    let (one, other) = (
        snapshot_of_view(system, view),
        snapshot_of_view(system, other),
    );
    are_equal(&one, &other)
}

/// The view's replica has the snapshot of the replay of the log to its time.
pub(crate) fn is_replay(alloc: Global, trial: &Trial, view: u32) -> bool {
    let (one, other) = (
        snapshot_of_view(&trial.system, view),
        replay_to_view(alloc, trial, view),
    );
    are_equal(&one, &other)
}
