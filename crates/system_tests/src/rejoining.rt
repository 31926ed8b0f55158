//! A view whose answer was lost, and that joins again.
ghost use Rattle.std.specs.Prelude.{IfOk};
ghost use Rattle.system_core.specs.Schedules.{AreInBounds, IsInBounds};

use crate::systems::{ID, Trial, checked_program, is_replay, is_told};
use model_value::Value;
use replica_plain::How;
use std::alloc::Global;
use std::test::Fail;
use system_core::{Schedule, ScheduleStep, run};
use tea_base::{Text, WantOfMemory};

/// The least program.
const SMALL: &str = "class Root{init(o){}}";

/// What is told in the end.
const END: &str = "time 3 seen 3 settled | Join 1 Event 2 Join 3";

/// View 7 publishes the event `b` of the scope `a`, with nil.
fn publication(alloc: Global) -> Result<ScheduleStep, WantOfMemory>
    ensures { IfOk result (λ step. IsInBounds step) }
{
    let scope = Text::copy(alloc, "a")?;
    let event = Text::copy(alloc, "b")?;
    Ok(ScheduleStep::Publish {
        view: 7,
        scope,
        event,
        value: Value::Nil,
    })
}

/// The steps of view 7. It joins, and publishes an event whose answer is lost. It joins again, gives the event again, which
/// stands in the log, and takes what is in flight: that the event counts, three entries and a tick. Then the old connection
/// ends.
fn schedule(alloc: Global) -> Result<Schedule, WantOfMemory>
    ensures { IfOk result (λ steps. AreInBounds steps) }
{
    let (view, now, how) = (7, 0, How::Resume);
    let publication = publication(alloc)?;
    let steps = [
        ScheduleStep::Found { view },
        ScheduleStep::Take { connection: 0, now },
        ScheduleStep::Receive { view },
        publication,
        ScheduleStep::Transmit { view },
        ScheduleStep::Take { connection: 0, now },
        ScheduleStep::Cut {
            connection: 0,
            up: 0,
            down: 0,
        },
        ScheduleStep::Reconnect { view, how },
        ScheduleStep::Take { connection: 1, now },
        ScheduleStep::Receive { view },
        ScheduleStep::Transmit { view },
        ScheduleStep::Take { connection: 1, now },
        ScheduleStep::Tick { now },
        ScheduleStep::Pull { connection: 1 },
        ScheduleStep::Receive { view },
        ScheduleStep::Receive { view },
        ScheduleStep::Receive { view },
        ScheduleStep::Receive { view },
        ScheduleStep::Receive { view },
        ScheduleStep::Take { connection: 0, now },
    ];
    Ok(Schedule::from_vec(Vec::from_array(alloc, steps)?))
}

/// A run of the schedule.
fn run_of_schedule(alloc: Global) -> Result<Trial, Fail> {
    let steps = schedule(alloc)?;
    let program = checked_program(alloc, SMALL)?;
    let system = run(alloc, program.clone()?, ID, &steps)?;
    Ok(Trial { program, system })
}

/// View 7 and the log are told so in the end, and the view's replica is the replay of the log.
fn is_at_end(alloc: Global, trial: &Trial) -> bool {
    is_told(alloc, &trial.system, 7, END) && is_replay(alloc, trial, 7)
}

#[test]
fn a_schedule_is_run(rt: HostRuntime) -> Result<(), Fail> {
    let alloc = rt.alloc();
    let trial = run_of_schedule(alloc)?;
    assert!(rt; is_at_end(alloc, &trial));
    Ok(())
}
