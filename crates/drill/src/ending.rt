//! How a drill ends: each replica comes to the end of the closed log.
ghost use Rattle.std.specs.Prelude.{◌≡◌, ◌<◌, ◌≤◌, Some, IfOk, OnOk, length, slice_get, count_by, bytes_eq};
ghost use Rattle.std.specs.List.{All, AllZip};
ghost use Rattle.model_solved.specs.Founding.{checked_tree, founding_of};
ghost use Rattle.world_plain.specs.World.{WorldRecord, world_record};
ghost use Rattle.replica.specs.RealWorlds.{worlds};
ghost use Rattle.run_steps.specs.Limits.{most_drill_views};
ghost use Rattle.drill.specs.Ending.{Catches, HasReplay, IsCountedBy, IsOfView, root_total};
ghost use Rattle.drill.specs.Reports.{IsSnapshotOf, IsWhole, Reports, IsWorldSnapshot};

use crate::report::{DrillReport, Replicas};
use crate::taking::take_fine;
use model_solved::Checked;
use model_value::Value;
use reflector_core::Session;
use replica::{Replica, worlds_replay, worlds_stand};
use replica_plain::How;
use session_log::{GetRefusal, Log};
use snapshot_codec::{SnapFault, unsnap};
use std::alloc::Global;
use tea_base::{Blob, Entry, SessionId, WantOfMemory};
use wire_frames::{ClientFrame, ServerFrame};
use world::WorldFault;
use world_plain::PlainWorld;

/// A replica whose last join was refused joins by the closed log. Fails for want of memory alone.
pub fn join_closed(replica: &mut Replica, session: &Session) -> Result<(), WantOfMemory>
    requires { IsCountedBy session.now.plain replica.old }
    ensures catches { OnOk result (Catches session.now.plain replica.new) }
    ensures kept { OnOk result (IsOfView replica.old replica.new) }
{
    worlds_stand(); // for the prover
    // What is so of every session is told by this call.
    let _horizon = session.horizon(); // for the prover
    let ClientFrame::Join { view, .. } = replica.join(How::Whole) else {
        unreachable!()
    };
    let sync = ServerFrame::Sync {
        joined: 0,
        last: session.log().last_number(view),
        from: 0,
        base: None,
    };
    take_fine(replica, &sync)
}

/// The entry at a place of the log.
fn log_entry(log: &Log, place: u32) -> Result<Entry, WantOfMemory>
    requires { place < length log.now.entries }
    ensures { IfOk result (λ entry. slice_get log.now.entries place ≡ Some entry) }
{
    // A log has fewer than 2^32 entries, which this call tells.
    let _len = log.len(); // for the prover
    match log.get(place + 1) {
        Ok(entry) => Ok(entry),
        Err(GetRefusal::WantOfMemory) => Err(WantOfMemory),
        Err(GetRefusal::NoSuchSeq) => unreachable!(),
    }
}

/// A replica takes the rest of the closed log, and the final horizon. Fails for want of memory alone.
pub fn take_rest(replica: &mut Replica, session: &Session) -> Result<(), WantOfMemory>
    requires { Catches session.now.plain replica.old }
    ensures replays { OnOk result
        (HasReplay session.now.plain (founding_of replica.old.program) replica.old.id replica.new) }
    ensures kept { OnOk result (IsOfView replica.old replica.new) }
    ensures base { OnOk result (replica.new.plain.base ≡ replica.old.plain.base) }
{
    worlds_stand(); // for the prover
    worlds_replay(); // for the prover
    let horizon = session.horizon();
    let log = session.log();
    for place in replica.seen()..log.len() {
        let entry = log_entry(log, place)?;
        take_fine(replica, &ServerFrame::Recv(entry))?;
    }
    take_fine(replica, &ServerFrame::Tick(horizon))
}

/// The snapshots of whole replicas, in order. Fails for want of memory alone.
fn snapshots(alloc: Global, replicas: &Replicas) -> Result<Vec<Blob>, WantOfMemory>
    requires { All IsWhole replicas.now }
    ensures { IfOk result (λ snapshots. AllZip IsSnapshotOf replicas.now snapshots.items) }
{
    let mut snapshots = Vec::new(alloc);
    for replica in replicas.as_slice() {
        match replica.snap() {
            Ok(snapshot) => snapshots.push(snapshot)?,
            Err(WorldFault::WantOfMemory) => return Err(WantOfMemory),
            Err(WorldFault::Broken) => unreachable!(),
            Err(WorldFault::Back { .. }) => unreachable!(),
        }
    }
    Ok(snapshots)
}

/// The field `total` of Root, which is the first field of the first object.
fn total_in(world: &PlainWorld) -> i64
    ensures { result ≡ root_total (world_record world.now) }
{
    match world.objects.as_slice().first() {
        Some(root) => match root.fields.as_slice().first() {
            Some(Value::Int(total)) => *total,
            _ => 0,
        },
        None => 0,
    }
}

/// The field `total` of Root in the world of a snapshot. Fails for want of memory alone.
fn total_of(
    alloc: Global,
    program: &Checked,
    id: &SessionId,
    snapshot: &Blob,
) -> Result<i64, WantOfMemory>
    requires { IsWorldSnapshot (checked_tree program.now) id.now.0 snapshot.now }
    ensures { IfOk result (λ total. (w : WorldRecord) → (worlds (founding_of program.now) id.now.0).unsnap snapshot.now
        ≡ Some w → total ≡ root_total w) }
{
    match unsnap(alloc, program, id, snapshot.bytes()) {
        Ok(world) => Ok(total_in(&world)),
        Err(SnapFault::WantOfMemory) => Err(WantOfMemory),
        Err(SnapFault::OtherSession { .. }) => unreachable!(),
        Err(SnapFault::Bad) => unreachable!(),
    }
}

/// How many of the snapshots have these bytes.
fn agreeing(snapshots: &[Blob], bytes: &[u8]) -> usize
    ensures { result ≡ count_by (λ snapshot. bytes_eq snapshot bytes.now) snapshots.now }
{
    let mut agree = 0;
    for snapshot in snapshots {
        if snapshot.is_bytes(bytes) {
            agree += 1;
        }
    }
    agree
}

/// What has come of it. Fails for want of memory alone.
pub fn report(
    alloc: Global,
    program: &Checked,
    id: &SessionId,
    session: Session,
    replicas: Replicas,
) -> Result<DrillReport, WantOfMemory>
    requires some { 0 < length replicas }
    requires few { length replicas ≤ most_drill_views }
    requires ended { All (HasReplay session.plain (founding_of program.now) id.now.0) replicas }
    ensures { IfOk result (λ report. Reports session program.now id.now.0 replicas report) }
{
    let snapshots = snapshots(alloc, &replicas)?;
    let Some(first) = snapshots.first() else {
        unreachable!()
    };
    let total = total_of(alloc, program, id, first)?;
    let agree = agreeing(snapshots.as_slice(), first.bytes());
    Ok(DrillReport {
        session,
        replicas,
        total,
        agree: agree as u32,
    })
}
