//! What a replica knows of a log, and that it may go to another thread.
ghost use Rattle.std.specs.Prelude.{◌≡◌, ◌≤◌, ◌<◌, ℕ, true, List, ◌∷◌, ◌++◌, Option, Some, None};
ghost use Rattle.tea_base.specs.Limits.{time_limit};
ghost use Rattle.std.specs.Thread.{IsSend};
ghost use Rattle.tea_base.specs.Legal.{IsLegal};
ghost use Rattle.tea_base.specs.declared.entry.Entry.{Entry};
ghost use Rattle.model_solved.specs.Founding.{CheckedView, Founding, founding_of, IsFounding};
ghost use Rattle.world_plain.specs.World.{WorldRecord};
ghost use Rattle.world_plain.specs.Valid.{Valid};
ghost use Rattle.world.specs.Worlds.{field_counts, replay, replay_on};
ghost use Rattle.snapshot_codec.specs.Spelling.{world_spelling};
ghost use Rattle.wire_frames.specs.declared.start.Base.{Base};
ghost use Rattle.wire_frames.specs.declared.frame.ClientFrame.{ClientFrame};
ghost use Rattle.wire_frames.specs.declared.frame.ServerFrame.{ServerFrame};
ghost use Rattle.wire_frames.specs.declared.frame.ServerFrame.TheVariants.{Sync, Tick};
ghost use Rattle.replica_plain.specs.declared.how.How.{How};
ghost use Rattle.replica_plain.specs.Worlds.{AreWorlds, IsHonest, WorldFollows, replay_world};
ghost use Rattle.replica_plain.specs.Calls.{loses};
ghost use Rattle.replica_plain.specs.Taking.{taken};
ghost use Rattle.replica_plain.specs.Following.{AreReadCalls, FollowsLog, IsServedTo, ReplicaCall, ToTake, after_calls, frames_of_calls};
ghost use Rattle.replica.specs.RealWorlds.{is_at_rest, worlds};
ghost use Rattle.replica.specs.View.{ReplicaView, founded_replica, worlds_of};
ghost use Rattle.replica.specs.contracts.replica.Replica as replica;

use model_solved::checked_crosses_threads;
use world::{
    advance_rests, advance_twice, at_rest_stays, external_after, external_keeps_valid,
    first_world_is_valid, replay_folds, replay_rests, world_crosses_threads, world_decides,
};

/// The worlds of a program and a session are as a replica wants worlds.
pub fn worlds_stand()
    ensures { (founding : Founding) (id : List ℕ) → IsFounding founding → AreWorlds (worlds founding id) }
{
    first_world_is_valid();
    external_keeps_valid();
    external_after();
    advance_rests();
    advance_twice();
    at_rest_stays();
    world_decides();
}

/// What a log makes of them is the replay of the log, which follows it.
pub fn worlds_replay()
    ensures replays { (founding : Founding) (id : List ℕ) (log : List Entry) (t : ℕ)
        → (replay founding id log t).world ≡ replay_world (worlds founding id) log t }
    ensures follows { (founding : Founding) (id : List ℕ) (log : List Entry) (t : ℕ) → IsFounding founding → IsLegal log
        → t < time_limit
        → WorldFollows (worlds founding id) log (replay founding id log t).world }
{
    replay_folds();
    replay_rests();
}

/// A world that follows a log, taken up at its time, is from there on the replay of the whole log: it handles the entries
/// behind its time alone.
pub fn resumed_follows()
    ensures { (founding : Founding) (w : WorldRecord) (log : List Entry) (t : ℕ) → IsFounding founding
        → Valid (field_counts founding.tree) w → IsLegal log → w.time ≤ t → t < time_limit
        → WorldFollows (worlds founding w.id) log w
        → (replay_on founding.tree w log t).world ≡ (replay founding w.id log t).world }
{
    worlds_replay();
}

/// A replica that was founded, or lost its world, follows each legal log. One that took the first part of what a connection served
/// it, from the Sync on and without want of memory, follows the log and has seen the entries of its time: its world, advanced to its
/// own time, is the replay of the log to that time. It may have published, given its events and handed over what its models
/// published between. No frame about its world had a fault.
///
/// The connection was sent a Sync that answers the replica's own join, and that knows of as many of its events as were
/// acknowledged and of no more than were published. Its base, if it has one, is honest. A replica that joined by `Resume`
/// followed the log.
pub fn replica_follows()
    ensures founded { (program : CheckedView) (id : List ℕ) (view : ℕ) (log : List Entry)
        → IsFounding (founding_of program) → IsLegal log
        → FollowsLog (worlds (founding_of program) id) log (founded_replica program id view).plain }
    ensures lost { (r : ReplicaView) (log : List Entry) → IsFounding (founding_of r.program) → IsLegal log
        → FollowsLog (worlds_of r) log (loses (worlds_of r) r.plain) }
    ensures follows { (r : ReplicaView) (log : List Entry) (how : How) (given : List (Option ClientFrame))
        (joined last from : ℕ) (base : Option Base) (calls : List ReplicaCall) (rest : List ServerFrame)
        → IsFounding (founding_of r.program) → IsLegal log
        → IsServedTo (worlds_of r) log r.plain how given joined last from base (frames_of_calls calls ++ rest)
        → FollowsLog (worlds_of r) log
        (after_calls (worlds_of r) r.plain (ToTake (Sync joined last from base) ∷ calls)) }
    ensures read { (r : ReplicaView) (log : List Entry) (how : How) (given : List (Option ClientFrame))
        (joined last from : ℕ) (base : Option Base) (calls : List ReplicaCall) (rest : List ServerFrame)
        → IsFounding (founding_of r.program) → IsLegal log
        → IsServedTo (worlds_of r) log r.plain how given joined last from base (frames_of_calls calls ++ rest)
        → AreReadCalls (worlds_of r) r.plain (ToTake (Sync joined last from base) ∷ calls) }
{
    worlds_stand();
}

/// A replica that follows a log and whose world is at rest has the replay of the log to its time. So two replicas of one program
/// and session that follow one log, are at rest and have come to one time have equal snapshot bytes.
pub fn equal_snapshots()
    ensures replays { (r : ReplicaView) (log : List Entry) → IsFounding (founding_of r.program)
        → FollowsLog (worlds_of r) log r.plain → is_at_rest r.plain.world ≡ true
        → r.plain.world ≡ (replay (founding_of r.program) r.id log r.plain.world.time).world }
    ensures snapshots { (r other : ReplicaView) (log : List Entry) → IsFounding (founding_of r.program)
        → other.program ≡ r.program → other.id ≡ r.id
        → FollowsLog (worlds_of r) log r.plain → FollowsLog (worlds_of other) log other.plain
        → is_at_rest r.plain.world ≡ true → is_at_rest other.plain.world ≡ true
        → r.plain.world.time ≡ other.plain.world.time
        → world_spelling r.plain.world ≡ world_spelling other.plain.world }
{
    worlds_stand();
    worlds_replay();
}

/// A replica that took a tick is at rest.
pub fn ticks_bring_rest()
    ensures { (r : ReplicaView) (t : ℕ) → IsFounding (founding_of r.program) → (worlds_of r).valid r.plain.world ≡ true
        → t < time_limit → r.plain.synced ≡ true
        → (taken (worlds_of r) r.plain (Tick t)).fault ≡ None
        → is_at_rest (taken (worlds_of r) r.plain (Tick t)).replica.world ≡ true }
{
    worlds_stand();
}

/// The snapshot of a replica that follows a log, at rest or not, is an honest base: [`snap`](crate::Replica::snap) tells that its
/// bytes spell the replica's world.
pub fn snapshots_are_honest()
    ensures { (r : ReplicaView) (log : List Entry) (bytes : List ℕ) → FollowsLog (worlds_of r) log r.plain
        → (worlds_of r).unsnap bytes ≡ Some r.plain.world
        → IsHonest (worlds_of r) log r.plain.world.time bytes }
{}

/// A replica may go to another thread.
pub fn replica_crosses_threads()
    ensures { IsSend replica.the_row }
{
    checked_crosses_threads();
    world_crosses_threads();
}
