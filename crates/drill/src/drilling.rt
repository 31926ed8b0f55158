//! The drill.
ghost use Rattle.std.specs.Prelude.{◌≡◌, ◌+◌, ◌*◌, ◌≤◌, ◌++◌, ◌∷◌, [], All, IfOk, IsOkAnd, OnOk, map, vec_len};
ghost use Rattle.std.specs.List.{AllZip};
ghost use Rattle.std.specs.Thread.{IsSync};
ghost use Rattle.reflector_core.specs.Play.{first_session};
ghost use Rattle.session_lock.specs.Passes.{first_pass, numbers_held};
ghost use Rattle.run_steps.specs.Limits.{most_drill_events, most_drill_views};
ghost use Rattle.drill.specs.Drill.{HasDrilled};
ghost use Rattle.drill.specs.Drilled.{sources_per_seed};
ghost use Rattle.drill.specs.Drilling.{AllAnswer, WorkerAnswers, ComesToEnd, GathersWorkers, HasPass, HaveEnded, IsDrillSession, MayRest, keeper_after, numbers_from, rested_of, views_of_workers};
ghost use Rattle.drill.specs.Sizes.{IsOfSize};
ghost use Rattle.drill.specs.Workers.{IsFirst};

use crate::ending::{join_closed, report, take_rest};
use crate::finished::Finished;
use crate::program::{NAME, PROGRAM, drill_program};
use crate::report::{DrillReport, Replicas};
use crate::size::Size;
use crate::trust::TrustReplay;
use crate::worker::{Service, Worker};
use model_solved::{Checked, checked_crosses_threads};
use model_value::Value;
use reflector_core::{NoKeeper, Session};
use replica::{Replica, replica_crosses_threads};
use seeded_random::Source64;
use session_lock::{Pass, SharedSession, pass_crosses_threads, session_crosses_threads};
use snapshot_codec::session_id;
use std::alloc::Global;
use std::sync::{Arc, Wait};
use std::thread::{Threads, join};
use tea_base::{SessionId, Text, WantOfMemory};
use tea_io::{Clock, Gate};

/// Each seed has so many sources, one for each view.
const SOURCES_PER_SEED: u32 = 8;

/// One more has ended, behind the others.
fn with_last(
    ended: Result<Vec<Finished>, WantOfMemory>,
    last: Result<Finished, WantOfMemory>,
) -> Result<Vec<Finished>, WantOfMemory>
    ensures { IfOk result (λ all.
        IsOkAnd ended (λ before. IsOkAnd last (λ one. all.items ≡ before.items ++ one ∷ []))) }
{
    let (mut ended, last) = (ended?, last?);
    ended.push(last)?;
    Ok(ended)
}

/// Has a worker work in a thread beside all others.
#[cycle(work_all)]
fn work_beside<C: Clock + Sync, G: Gate + Sync, R: Threads + Wait + Sync>(
    service: &Service<'_, C, G, R>,
    worker: Worker,
    others: Vec<Worker>,
) -> (
    Result<Finished, WantOfMemory>,
    Result<Vec<Finished>, WantOfMemory>,
)
    requires size { IsOfSize service.now.size }
    requires worker { IsFirst (C.gives service.now.clock.now) service.now.size service.now.shared.now worker }
    requires others { All (IsFirst (C.gives service.now.clock.now) service.now.size service.now.shared.now)
        others.items }
    ensures worker { WorkerAnswers (C.gives service.now.clock.now) service.now.size service.now.shared.now worker
        result.0 }
    ensures others { AllAnswer (C.gives service.now.clock.now) service.now.size service.now.shared.now others.items
        result.1 }
{
    checked_crosses_threads(); // for the prover
    replica_crosses_threads(); // for the prover
    session_crosses_threads::<TrustReplay, NoKeeper>(); // for the prover
    pass_crosses_threads::<NoKeeper>(); // for the prover
    // Each thread makes a service of its own: of a closure that captures one whole, what it ensures is not known here.
    let Service {
        rt,
        alloc,
        shared,
        size,
        clock,
        gate,
    } = *service;
    join(
        rt,
        || -> Result<Finished, WantOfMemory>
            requires { IsSync R.row × IsOfSize size × IsFirst (C.gives clock.now) size shared.now worker }
            ensures { WorkerAnswers (C.gives clock.entry.now) size shared.entry.now worker result }
        {
            worker.work(&Service {
                rt,
                alloc,
                shared,
                size,
                clock,
                gate,
            })
        },
        || -> Result<Vec<Finished>, WantOfMemory>
            requires { IsSync R.row × IsOfSize size × All (IsFirst (C.gives clock.now) size shared.now) others.items }
            ensures { AllAnswer (C.gives clock.entry.now) size shared.entry.now others.items result }
        {
            let service = Service {
                rt,
                alloc,
                shared,
                size,
                clock,
                gate,
            };
            work_all(&service, others)
        },
    )
}

/// Has all workers work, each in a thread beside those before it.
#[cycle(work_all)]
fn work_all<C: Clock + Sync, G: Gate + Sync, R: Threads + Wait + Sync>(
    service: &Service<'_, C, G, R>,
    mut workers: Vec<Worker>,
) -> Result<Vec<Finished>, WantOfMemory>
    requires size { IsOfSize service.now.size }
    requires first { All (IsFirst (C.gives service.now.clock.now) service.now.size service.now.shared.now)
        workers.items }
    ensures { IfOk result (λ ended.
        HaveEnded (C.gives service.now.clock.now) service.now.size service.now.shared.now workers.items ended.items) }
{
    let Some(worker) = workers.pop() else {
        return Ok(Vec::new(service.alloc));
    };
    let (last, ended) = work_beside(service, worker, workers);
    with_last(ended, last)
}

/// The program of a drill, its session's id, and the session.
#[derive(Drop)]
struct DrillSession {
    program: Arc<Checked, Global>,
    id: SessionId,
    shared: SharedSession<TrustReplay>,
}

/// All that is made before the workers, and the session's first pass.
fn prepare(alloc: Global) -> Result<(DrillSession, Pass), WantOfMemory>
    ensures prepared { IfOk result (λ made. IsDrillSession made.0) }
    ensures keeper { IfOk result (λ made. made.1 ≡ first_pass made.0.shared.session first_session) }
{
    let name = Text::copy(alloc, NAME)?;
    let program = Arc::new(alloc, drill_program(alloc)?)?;
    let trust = TrustReplay {
        program: program.clone()?,
    };
    let id = session_id(&name, PROGRAM, &Value::Nil);
    let Ok((shared, keeper)) = SharedSession::new(alloc, id, Session::new(alloc), trust) else {
        return Err(WantOfMemory);
    };
    let prepared = DrillSession {
        program,
        id,
        shared,
    };
    Ok((prepared, keeper))
}

/// The source of what a view publishes, by its place among the views.
fn source_of(seed: u32, place: u32) -> Source64
    ensures { result ≡ seed * sources_per_seed + place }
{
    Source64::from_state(u64::from(seed) * u64::from(SOURCES_PER_SEED) + u64::from(place))
}

/// The workers, by their views. The pass of each is split off the one that is kept.
fn make_workers<C: Clock, G, R: Wait>(
    service: &Service<'_, C, G, R>,
    prepared: &DrillSession,
    keeper: &mut Pass,
) -> Result<Vec<Worker>, WantOfMemory>
    requires prepared { IsDrillSession prepared.now }
    requires shared { service.now.shared.now ≡ prepared.now.shared }
    requires size { IsOfSize service.now.size }
    requires keeper { keeper.old ≡ first_pass service.now.shared.now.session first_session }
    ensures first { IfOk result (λ workers.
        All (IsFirst (C.gives service.now.clock.now) service.now.size service.now.shared.now) workers.items) }
    ensures views { IfOk result (λ workers. views_of_workers workers.items ≡ numbers_from 1 service.now.size.views) }
    ensures keeper { OnOk result (keeper.new ≡ keeper_after service.now.shared.now service.now.size.views) }
{
    let size = service.size;
    let mut workers = Vec::new(service.alloc);
    for made in 0..size.views {
        let view = made + 1;
        workers.push(Worker {
            view,
            replica: Replica::found(service.alloc, prepared.program.clone()?, prepared.id, view)?,
            source: source_of(size.seed, made),
            pass: service.shared.split(keeper, 0)?,
        })?;
    }
    Ok(workers)
}

/// A view's replica, once the view has ended, and whether it has taken the Sync of its newest Join.
#[derive(Drop)]
struct Rested {
    replica: Replica,
    is_synced: bool,
}

/// Merges the passes into the one that is kept.
fn merge_all(
    alloc: Global,
    shared: &SharedSession<TrustReplay>,
    keeper: &mut Pass,
    ended: Vec<Finished>,
) -> Result<Vec<Rested>, WantOfMemory>
    requires keeper { GathersWorkers shared.now [] keeper.old }
    requires passes { All (HasPass shared.now) ended.items }
    ensures gathered { OnOk result (GathersWorkers shared.now ended.items keeper.new) }
    ensures numbers { OnOk result (numbers_held keeper.new ≡ numbers_held keeper.old + vec_len ended) }
    ensures rested { IfOk result (λ rested. rested.items ≡ map rested_of ended.items) }
{
    let mut rested = Vec::new(alloc);
    for one in ended {
        let Finished { worker, is_synced } = one;
        let Worker { replica, pass, .. } = worker;
        shared.merge(keeper, pass);
        rested.push(Rested { replica, is_synced })?;
    }
    Ok(rested)
}

/// A replica comes to the end of the closed log.
fn catch_up(rested: Rested, session: &Session) -> Result<Replica, WantOfMemory>
    requires { MayRest session.now.plain rested }
    ensures { IfOk result (λ replica. ComesToEnd session.now.plain rested replica) }
{
    let Rested {
        mut replica,
        is_synced,
    } = rested;
    if !is_synced {
        join_closed(&mut replica, session)?;
    }
    take_rest(&mut replica, session)?;
    Ok(replica)
}

/// Each replica comes to the end of the closed log.
fn catch_up_all(
    alloc: Global,
    session: &Session,
    rested: Vec<Rested>,
) -> Result<Replicas, WantOfMemory>
    requires { All (MayRest session.now.plain) rested.items }
    ensures { IfOk result (λ replicas. AllZip (ComesToEnd session.now.plain) rested.items replicas) }
{
    let mut replicas = Replicas::new(alloc);
    for one in rested {
        replicas.push(catch_up(one, session)?)?;
    }
    Ok(replicas)
}

/// Runs a drill of 1 to 8 views and at most 10,000 events a view.
pub fn drill<C: Clock + Sync, G: Gate + Sync, R: Threads + Wait + Sync>(
    rt: &R,
    alloc: Global,
    size: Size,
    clock: &C,
    gate: &G,
) -> Result<DrillReport, WantOfMemory>
    requires { (1 ≤ size.views) × (size.views ≤ most_drill_views) × (size.events ≤ most_drill_events) }
    ensures { IfOk result (λ report. HasDrilled (C.gives clock.now) size report) }
{
    let (prepared, mut keeper) = prepare(alloc)?;
    let service = Service {
        rt,
        alloc,
        shared: &prepared.shared,
        size,
        clock,
        gate,
    };
    let workers = make_workers(&service, &prepared, &mut keeper)?;
    let ended = work_all(&service, workers)?;
    let rested = merge_all(alloc, &prepared.shared, &mut keeper, ended)?;
    let DrillSession {
        program,
        id,
        shared,
    } = prepared;
    let session = shared.close(keeper);
    let replicas = catch_up_all(alloc, &session, rested)?;
    report(alloc, &program, &id, session, replicas)
}
