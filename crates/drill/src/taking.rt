//! Frames that a replica takes.
ghost use Rattle.std.specs.Prelude.{◌≡◌, ◌⊎◌, OnOk, Some};
ghost use Rattle.replica_plain.specs.Taking.{IsTimely};
ghost use Rattle.replica_plain.specs.declared.how.How.{How};
ghost use Rattle.drill.specs.Taking.{AreFine, HasTaken, HasTakenAll, IsFine, Miscounts};

use replica::Replica;
use replica_plain::ReplicaFault;
use tea_base::WantOfMemory;
use wire_frames::ServerFrame;

/// A replica takes a frame that has no fault for it. Fails for want of memory alone.
pub fn take_fine(replica: &mut Replica, frame: &ServerFrame) -> Result<(), WantOfMemory>
    requires timely { IsTimely frame.now }
    requires fine { IsFine replica.old frame.now }
    ensures { OnOk result (HasTaken replica.old frame.now replica.new) }
{
    match replica.take(frame) {
        Ok(()) => Ok(()),
        Err(ReplicaFault::WantOfMemory) => Err(WantOfMemory),
        Err(ReplicaFault::Unasked) => unreachable!(),
        Err(ReplicaFault::OutOfOrder { .. }) => unreachable!(),
        Err(ReplicaFault::Back { .. }) => unreachable!(),
        Err(ReplicaFault::BadBase) => unreachable!(),
        Err(ReplicaFault::Broken) => unreachable!(),
        Err(ReplicaFault::Refused { .. }) => unreachable!(),
    }
}

/// A replica takes frames, in order. Fails for want of memory alone.
pub fn take_all(replica: &mut Replica, frames: &[ServerFrame]) -> Result<(), WantOfMemory>
    requires { AreFine replica.old frames.now }
    ensures { OnOk result (HasTakenAll replica.old frames.now replica.new) }
{
    for frame in frames {
        take_fine(replica, frame)?;
    }
    Ok(())
}

/// A replica takes the answer to its Join. Its one fault may be that it miscounts: it knows of more events of the view than its worker
/// published, or of fewer than were acknowledged. This comes only where somebody else calls for the view. Nobody does in a drill, but that is
/// known of the whole history alone, once all workers have ended. Till then it counts as want of memory.
pub fn take_sync(replica: &mut Replica, frame: &ServerFrame) -> Result<(), WantOfMemory>
    requires timely { IsTimely frame.now }
    requires awaited { (how : How) × (replica.old.plain.awaited ≡ Some how) }
    requires fine { IsFine replica.old frame.now ⊎ Miscounts replica.old frame.now }
    ensures fine { OnOk result (IsFine replica.old frame.now) }
    ensures taken { OnOk result (HasTaken replica.old frame.now replica.new) }
{
    match replica.take(frame) {
        Ok(()) => Ok(()),
        Err(ReplicaFault::WantOfMemory) => Err(WantOfMemory),
        // It miscounts.
        Err(ReplicaFault::OutOfOrder { .. }) => Err(WantOfMemory),
        Err(ReplicaFault::Unasked) => unreachable!(),
        Err(ReplicaFault::Back { .. }) => unreachable!(),
        Err(ReplicaFault::BadBase) => unreachable!(),
        Err(ReplicaFault::Broken) => unreachable!(),
        Err(ReplicaFault::Refused { .. }) => unreachable!(),
    }
}
