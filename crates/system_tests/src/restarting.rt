//! A view that loses its world and begins with a kept snapshot, and another one that has all entries.
ghost use Rattle.std.specs.Prelude.{IfOk};
ghost use Rattle.system_core.specs.Schedules.{AreInBounds, IsInBounds};

use crate::systems::{Trial, are_same, first_trial, is_replay, is_told, take_all};
use model_value::Value;
use replica_plain::How;
use std::alloc::Global;
use std::test::Fail;
use system_core::{Schedule, ScheduleStep, System};
use tea_base::{Text, WantOfMemory};

/// A program that counts each second, and begins again at the event `reset`.
const COUNTER: &str =
    r#"class Root{field count;init(o){this.count=0;subscribe("counter","reset","reset");this.future(1000).tick();}tick(){this.count=this.count+1;this.future(1000).tick();}reset(v){this.count=v;}}"#;

/// What is told of view 7 when its snapshot was kept.
const KEPT: &str = "time 4000000 seen 3 settled | Join 1 Join 1000000 Event 2500000";

/// What is told of both views in the end.
const END: &str = "time 7000000 seen 4 settled | Join 1 Join 1000000 Event 2500000 Join 6000000";

/// View 7 sets the count.
fn reset(alloc: Global) -> Result<ScheduleStep, WantOfMemory>
    ensures { IfOk result (λ step. IsInBounds step) }
{
    let scope = Text::copy(alloc, "counter")?;
    let event = Text::copy(alloc, "reset")?;
    Ok(ScheduleStep::Publish {
        view: 7,
        scope,
        event,
        value: Value::Int(40),
    })
}

/// Views 7 and 8 join, at a second from each other, and take the Sync. View 7 sets the count, at two and a half seconds. At four
/// seconds its snapshot is kept.
fn steps_to_keep(alloc: Global) -> Result<Schedule, WantOfMemory>
    ensures { IfOk result (λ steps. AreInBounds steps) }
{
    let reset = reset(alloc)?;
    let now = 4_000_000;
    let steps = [
        ScheduleStep::Found { view: 7 },
        ScheduleStep::Take {
            connection: 0,
            now: 0,
        },
        ScheduleStep::Receive { view: 7 },
        ScheduleStep::Found { view: 8 },
        ScheduleStep::Take {
            connection: 1,
            now: 1_000_000,
        },
        ScheduleStep::Receive { view: 8 },
        reset,
        ScheduleStep::Transmit { view: 7 },
        ScheduleStep::Take {
            connection: 0,
            now: 2_500_000,
        },
        ScheduleStep::Tick { now },
        ScheduleStep::Pull { connection: 0 },
        ScheduleStep::Receive { view: 7 },
        ScheduleStep::Receive { view: 7 },
        ScheduleStep::Receive { view: 7 },
        ScheduleStep::Receive { view: 7 },
        ScheduleStep::Receive { view: 7 },
        ScheduleStep::Snap { view: 7 },
        ScheduleStep::Take { connection: 0, now },
    ];
    Ok(Schedule::from_vec(Vec::from_array(alloc, steps)?))
}

/// View 7 loses its world, begins with the kept snapshot, and takes what is new at seven seconds. View 8 takes what is new at
/// seven seconds.
fn steps_to_restart(alloc: Global) -> Result<Schedule, WantOfMemory>
    ensures { IfOk result (λ steps. AreInBounds steps) }
{
    let (how, now) = (How::Fresh, 7_000_000);
    let steps = [
        ScheduleStep::Restart { view: 7, how },
        ScheduleStep::Take {
            connection: 2,
            now: 6_000_000,
        },
        ScheduleStep::Tick { now },
        ScheduleStep::Pull { connection: 2 },
        ScheduleStep::Receive { view: 7 },
        ScheduleStep::Receive { view: 7 },
        ScheduleStep::Receive { view: 7 },
        ScheduleStep::Tick { now },
        ScheduleStep::Pull { connection: 1 },
        ScheduleStep::Receive { view: 8 },
        ScheduleStep::Receive { view: 8 },
        ScheduleStep::Receive { view: 8 },
        ScheduleStep::Receive { view: 8 },
        ScheduleStep::Receive { view: 8 },
    ];
    Ok(Schedule::from_vec(Vec::from_array(alloc, steps)?))
}

fn keep(alloc: Global, system: &mut System) -> Result<(), Fail> {
    let steps = steps_to_keep(alloc)?;
    Ok(take_all(system, &steps)?)
}

fn restart(alloc: Global, system: &mut System) -> Result<(), Fail> {
    let steps = steps_to_restart(alloc)?;
    Ok(take_all(system, &steps)?)
}

/// The snapshot of view 7 is kept, at four seconds.
fn is_kept(alloc: Global, system: &System) -> bool {
    is_told(alloc, system, 7, KEPT) && system.session().kept_time() == Some(4_000_000)
}

/// The view has come to the end, from this base.
fn is_at_end(alloc: Global, system: &System, view: u32, base: Option<u64>) -> bool {
    is_told(alloc, system, view, END)
        && matches!(system.replica(view), Some(replica) if replica.base() == base)
}

/// Both views have come to the end, one from the kept snapshot, and have the same world, which is that of the replay.
fn are_one(alloc: Global, trial: &Trial) -> bool {
    is_at_end(alloc, &trial.system, 7, Some(4_000_000))
        && is_at_end(alloc, &trial.system, 8, None)
        && are_same(&trial.system, 7, 8)
        && is_replay(alloc, trial, 8)
}

#[test]
fn a_kept_snapshot_leads_to_the_same_world(rt: HostRuntime) -> Result<(), Fail> {
    let alloc = rt.alloc();
    let mut trial = first_trial(alloc, COUNTER)?;
    keep(alloc, &mut trial.system)?;
    assert!(rt; is_kept(alloc, &trial.system));
    restart(alloc, &mut trial.system)?;
    assert!(rt; are_one(alloc, &trial));
    Ok(())
}
