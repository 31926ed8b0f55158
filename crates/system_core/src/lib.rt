//! A session, its views and their connections as one system, whose steps are the calls of the real session, cursors and replicas.
//!
//! [`run`] takes the steps of a schedule, whatever they are: founders, publications, frames in flight, cuts at any place,
//! reconnections, restarts and snapshots, in any order. What it promises of the system after them is the headline of this crate.
#![tactic(auto)]

ghost use Rattle.std.specs.Prelude.{◌≡◌, false, IfOk, OnOk};
ghost use Rattle.std.specs.Arc.{arc_value};
ghost use Rattle.tea_base.specs.Legal.{IsLegal};
ghost use Rattle.replica_plain.specs.Following.{IsHonestBase};
ghost use Rattle.system_plain.specs.Schedule.{HasEventsOnce, published_in};
ghost use Rattle.system_core.specs.Promises.{AreAcknowledged, EqualSnapshots, HaveNoSurprise, ReplicasFollow};
ghost use Rattle.system_core.specs.Schedules.{AreInBounds, IsInBounds, plain_system_step, plain_steps};
ghost use Rattle.system_core.specs.Systems.{IsStep, after_steps, first_view, system_worlds};

mod connection;
mod member;
mod parts;
mod step;
mod system;

use model_solved::Checked;
use replica::{worlds_replay, worlds_stand};
use std::alloc::Global;
use std::sync::Arc;
pub use step::{Schedule, ScheduleStep, StepFault};
pub use system::System;
use system::tell_program;
use tea_base::{SessionId, WantOfMemory};

/// The first system of a program and a session after these steps, one after the other. The value of each Publish has to be in
/// bounds. The first want of memory ends it.
///
/// Whatever the steps are:
///
/// - The log is legal.
/// - Every replica follows the log and has seen the entries of its time, whether founded, joined from a kept snapshot,
///   restarted or reconnected. One that is at rest is the replay of the log to its time.
/// - Two replicas of one time that are at rest have equal snapshot bytes, and what is kept is an honest snapshot.
/// - Each view's events in the log are, by number and payload, the first of those that it published, each once.
/// - No replica counts an event as acknowledged that is not in the log.
/// - No replica met a frame that nobody asked for, that was out of order, that went back in time or that brought a bad base,
///   and no event was refused for an earlier one with its number and another payload.
pub fn run(
    alloc: Global,
    program: Arc<Checked, Global>,
    id: SessionId,
    steps: &Schedule,
) -> Result<System, WantOfMemory>
    requires { AreInBounds steps.now }
    ensures fold { IfOk result (λ s. s ≡ after_steps (first_view (arc_value program) id.0) (plain_steps steps.now)) }
    ensures schedule_legal_log { IfOk result (λ s. IsLegal s.plain.session.log) }
    ensures schedule_replicas_follow { IfOk result (λ s. ReplicasFollow s) }
    ensures schedule_equal_snapshots { IfOk result (λ s. EqualSnapshots s) }
    ensures schedule_kept_is_honest { IfOk result (λ s.
        IsHonestBase (system_worlds s) s.plain.session.log s.plain.session.kept) }
    ensures schedule_events_once { IfOk result (λ s.
        HasEventsOnce s.plain.session.log (published_in (system_worlds s) (plain_steps steps.now))) }
    ensures schedule_acknowledged { IfOk result (λ s. AreAcknowledged s) }
    ensures schedule_no_surprise { IfOk result (λ s. HaveNoSurprise (system_worlds s) (plain_steps steps.now)) }
{
    worlds_stand(); // for the prover
    worlds_replay(); // for the prover
    tell_program(&program); // for the prover
    let mut system = System::first(alloc, program, id)?;
    let list = steps.as_slice();
    for step in list {
        take_step(&mut system, step)?;
    }
    Ok(system)
}

/// Takes a step of a system that is not spoilt.
fn take_step(system: &mut System, step: &ScheduleStep) -> Result<(), WantOfMemory>
    requires bounds { IsInBounds step.now }
    requires whole { system.old.spoilt ≡ false }
    ensures { OnOk result (IsStep system.old system.new (plain_system_step step.now)) }
{
    match system.step(step) {
        Ok(()) => Ok(()),
        Err(StepFault::WantOfMemory) => Err(WantOfMemory),
        Err(StepFault::Spoilt) => unreachable!(),
    }
}
