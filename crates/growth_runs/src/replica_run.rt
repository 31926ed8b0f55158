//! The frames of a replica, which is looked at where one is out of memory.
ghost use Rattle.std.specs.Prelude.{IfOk};
ghost use Rattle.replica_plain.specs.Taking.{IsTimely};

use crate::halt::{Halt, Promise};
use model_check::check;
use model_lang::{LangFault, parse};
use model_solved::{CheckFault, Checked};
use replica::Replica;
use replica_plain::{How, ReplicaFault};
use snapshot_codec::digest;
use std::alloc::Global;
use std::sync::Arc;
use tea_base::{Blob, Entry, SessionId, WantOfMemory, What};
use wire_frames::ServerFrame;
use world::WorldFault;

const ID: SessionId = SessionId([7; 32]);

/// The view that the replica is of.
const VIEW: u32 = 7;

/// It counts each second, tells that, and begins again at the event `reset`.
const COUNTER: &[u8] =
    b"class Root{field count;init(o){this.count=0;subscribe(\"counter\",\"reset\",\"reset\");this.future(1000).tick();}tick(){this.count=this.count+1;publish(\"counter\",\"changed\",this.count);this.future(1000).tick();}reset(v){this.count=0;publish(\"counter\",\"changed\",this.count);}}";

/// The payload of the event `reset` of the scope `counter`, with nil.
const RESET: &[u8] = b"\x00\x00\x00\x07counter\x00\x00\x00\x05reset\x00";

/// How many frames there are.
const FRAMES: u32 = 4;

/// The places of two of the frames.
const SYNC: u32 = 0;

const TICK: u32 = 3;

/// Whether the replica has taken all frames.
#[derive(Clone, Copy, Debug)]
enum Taken {
    All,
    /// It broke at an entry or a tick.
    Broke,
}

/// The line of the run.
pub(crate) fn line(alloc: Global) -> Result<String, Halt> {
    let program = program(alloc)?;
    let mut replica = founded(alloc, program, ID, VIEW)?;
    follow(alloc, &mut replica)?;
    told_line(alloc, &mut replica)
}

fn founded(
    alloc: Global,
    program: Arc<Checked, Global>,
    id: SessionId,
    view: u32,
) -> Result<Replica, Halt> {
    Ok(Replica::found(alloc, program, id, view)?)
}

/// The replica joins, and takes all frames.
fn follow(alloc: Global, replica: &mut Replica) -> Result<(), Halt> {
    let _frame = replica.join(How::Fresh);
    match take_all(alloc, replica)? {
        Taken::All => Ok(()),
        Taken::Broke => begin_again(alloc, replica),
    }
}

/// A broken replica is looked at. Then it joins anew, and takes all frames again.
fn begin_again(alloc: Global, replica: &mut Replica) -> Result<(), Halt> {
    look_at_broken(alloc, replica)?;
    let _frame = replica.join(How::Whole);
    match take_all(alloc, replica)? {
        Taken::All => Ok(()),
        Taken::Broke => Err(Halt::WantOfMemory),
    }
}

/// The program, checked.
fn program(alloc: Global) -> Result<Arc<Checked, Global>, Halt> {
    let program = match parse(alloc, COUNTER) {
        Ok(program) => program,
        Err(LangFault::WantOfMemory) => return Err(Halt::WantOfMemory),
        Err(_) => return Err(Halt::Broken(Promise::CauseIsNamed)),
    };
    match check(alloc, program) {
        Ok(checked) => shared(alloc, checked),
        Err(CheckFault::WantOfMemory) => Err(Halt::WantOfMemory),
        Err(_) => Err(Halt::Broken(Promise::CauseIsNamed)),
    }
}

fn shared(alloc: Global, program: Checked) -> Result<Arc<Checked, Global>, Halt> {
    match Arc::new(alloc, program) {
        Ok(program) => Ok(program),
        Err(_) => Err(Halt::WantOfMemory),
    }
}

/// The frame at a place: the Sync, the Join of the view, its event, and a tick.
fn frame(alloc: Global, place: u32) -> Result<ServerFrame, WantOfMemory>
    ensures { IfOk result (λ frame. IsTimely frame) }
{
    match place {
        SYNC => Ok(ServerFrame::Sync {
            joined: 1,
            last: 0,
            from: 0,
            base: None,
        }),
        1 => Ok(ServerFrame::Recv(Entry {
            seq: 1,
            time: 1,
            view: VIEW,
            what: What::Join,
        })),
        2 => Ok(ServerFrame::Recv(Entry {
            seq: 2,
            time: 2_500_000,
            view: VIEW,
            what: What::Event {
                number: 1,
                payload: Blob::copy(alloc, RESET)?,
            },
        })),
        _ => Ok(ServerFrame::Tick(4_000_000)),
    }
}

/// Takes the frames, up to the one at which the replica breaks.
fn take_all(alloc: Global, replica: &mut Replica) -> Result<Taken, Halt> {
    for place in 0..FRAMES {
        if let Taken::Broke = take(alloc, replica, place)? {
            return Ok(Taken::Broke);
        }
    }
    Ok(Taken::All)
}

/// Takes a frame. A Sync that is out of memory leaves the replica as it was, and is taken again.
fn take(alloc: Global, replica: &mut Replica, place: u32) -> Result<Taken, Halt> {
    match answer(alloc, replica, place)? {
        Ok(()) => Ok(Taken::All),
        Err(ReplicaFault::WantOfMemory) if place != SYNC => Ok(Taken::Broke),
        Err(ReplicaFault::WantOfMemory) if replica.seen() == 0 && !replica.broken() => {
            take_again(alloc, replica, place)
        }
        Err(ReplicaFault::WantOfMemory) => Err(Halt::Broken(Promise::SyncLeavesReplica)),
        Err(_) => Err(Halt::Broken(Promise::CauseIsNamed)),
    }
}

fn take_again(alloc: Global, replica: &mut Replica, place: u32) -> Result<Taken, Halt> {
    match answer(alloc, replica, place)? {
        Ok(()) => Ok(Taken::All),
        Err(ReplicaFault::WantOfMemory) => Err(Halt::WantOfMemory),
        Err(_) => Err(Halt::Broken(Promise::SyncLeavesReplica)),
    }
}

/// What the replica answers to the frame at a place.
fn answer(
    alloc: Global,
    replica: &mut Replica,
    place: u32,
) -> Result<Result<(), ReplicaFault>, WantOfMemory> {
    let frame = frame(alloc, place)?;
    Ok(replica.take(&frame))
}

/// A broken replica answers Broken to an entry and to a tick, and gives nothing that models published.
fn look_at_broken(alloc: Global, replica: &mut Replica) -> Result<(), Halt> {
    let entry = answer(alloc, replica, 2)?;
    let tick = answer(alloc, replica, TICK)?;
    let is_empty = replica.take_out().is_empty();
    match (entry, tick) {
        (Err(ReplicaFault::Broken), Err(ReplicaFault::Broken)) if is_empty => Ok(()),
        _ => Err(Halt::Broken(Promise::BrokenReplicaSaysSo)),
    }
}

fn told_line(alloc: Global, replica: &mut Replica) -> Result<String, Halt> {
    let published = replica.take_out().len();
    let snapshot = snapshot(replica)?;
    let digits = hex::encode(alloc, digest(snapshot.bytes()).as_slice())?;
    Ok(format!(in alloc; "replica published {published} digest {}", digits.as_str())?)
}

fn snapshot(replica: &Replica) -> Result<Blob, Halt> {
    match replica.snap() {
        Ok(bytes) => Ok(bytes),
        Err(WorldFault::WantOfMemory) => Err(Halt::WantOfMemory),
        Err(_) => Err(Halt::Broken(Promise::CauseIsNamed)),
    }
}
