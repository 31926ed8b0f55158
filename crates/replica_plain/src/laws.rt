//! What is true of a replica, whatever its worlds are.
ghost use Rattle.std.specs.Prelude.{◌≡◌, ◌<◌, ℕ, ◌+◌, true, List, [], ◌∷◌, ◌++◌, Option, Some, None};
ghost use Rattle.tea_base.specs.Legal.{IsLegal};
ghost use Rattle.tea_base.specs.Limits.{time_limit};
ghost use Rattle.tea_base.specs.declared.entry.Entry.{Entry};
ghost use Rattle.wire_frames.specs.declared.start.Base.{Base};
ghost use Rattle.wire_frames.specs.declared.frame.ClientFrame.{ClientFrame};
ghost use Rattle.wire_frames.specs.declared.frame.ClientFrame.TheVariants.{Send};
ghost use Rattle.wire_frames.specs.declared.frame.ServerFrame.{ServerFrame};
ghost use Rattle.wire_frames.specs.declared.frame.ServerFrame.TheVariants.{Done, Sync, Tick};
ghost use Rattle.replica_plain.specs.declared.how.How.{How};
ghost use Rattle.replica_plain.specs.Worlds.{Worlds, AreWorlds, IsHonest, replay_world};
ghost use Rattle.replica_plain.specs.PlainReplica.{PlainReplica, AreCounted, new_replica, most_published, published_count};
ghost use Rattle.replica_plain.specs.Taking.{lost_at, taken};
ghost use Rattle.replica_plain.specs.Calls.{gives, joining, loses, publishes, sends_after, takes_out, unsent};
ghost use Rattle.replica_plain.specs.Following.{AreReadCalls, FollowsLog, IsServedTo, ReplicaCall, ToTake, after_calls, frames_of_calls};

/// A replica that was founded, or lost its world, follows each legal log. One that took the first part of what a connection served it,
/// from the Sync on, follows the log and has seen the entries of its time, whatever it published, gave and handed over between, and no
/// frame about its world had a fault. W is any type of worlds, O what their models publish.
pub fn served_is_read<W, O>()
    ensures founded { (m : Worlds W O) (log : List Entry) (view : ℕ) → AreWorlds m → IsLegal log
        → FollowsLog m log (new_replica m view) }
    ensures lost { (m : Worlds W O) (log : List Entry) (r : PlainReplica W O) → AreWorlds m → IsLegal log
        → FollowsLog m log (loses m r) }
    ensures follows { (m : Worlds W O) (log : List Entry) (r : PlainReplica W O) (how : How)
        (given : List (Option ClientFrame)) (joined last from : ℕ) (base : Option Base) (calls : List ReplicaCall)
        (rest : List ServerFrame)
        → AreWorlds m → IsLegal log → IsServedTo m log r how given joined last from base (frames_of_calls calls ++ rest)
        → FollowsLog m log (after_calls m r (ToTake (Sync joined last from base) ∷ calls)) }
    ensures read { (m : Worlds W O) (log : List Entry) (r : PlainReplica W O) (how : How)
        (given : List (Option ClientFrame)) (joined last from : ℕ) (base : Option Base) (calls : List ReplicaCall)
        (rest : List ServerFrame)
        → AreWorlds m → IsLegal log → IsServedTo m log r how given joined last from base (frames_of_calls calls ++ rest)
        → AreReadCalls m r (ToTake (Sync joined last from base) ∷ calls) }
{}

/// A replica that follows a log and whose world is at rest has the replay of the log to its time, and it is at rest once it took a
/// tick. So two of them that have come to one time have the same world, and the same bytes as its snapshot. The snapshot of a replica
/// that follows, at rest or not, is an honest base.
pub fn replicas_agree<W, O>()
    ensures replays { (m : Worlds W O) (log : List Entry) (r : PlainReplica W O) → AreWorlds m → FollowsLog m log r
        → m.at_rest r.world ≡ true
        → r.world ≡ replay_world m log (m.time r.world) }
    ensures snapshots { (m : Worlds W O) (log : List Entry) (r other : PlainReplica W O) → AreWorlds m
        → FollowsLog m log r → FollowsLog m log other
        → m.at_rest r.world ≡ true → m.at_rest other.world ≡ true → m.time r.world ≡ m.time other.world
        → m.snapshot r.world ≡ m.snapshot other.world }
    ensures rests { (m : Worlds W O) (r : PlainReplica W O) (t : ℕ) → AreWorlds m → m.valid r.world ≡ true
        → t < time_limit → r.synced ≡ true → (taken m r (Tick t)).fault ≡ None
        → m.at_rest (taken m r (Tick t)).replica.world ≡ true }
    ensures honest { (m : Worlds W O) (log : List Entry) (r : PlainReplica W O) (bytes : List ℕ) → FollowsLog m log r
        → m.unsnap bytes ≡ Some r.world
        → IsHonest m log (m.time r.world) bytes }
{}

/// No more events of a replica are acknowledged than were given, no more were given than published, and no more than 1,048,576 were
/// published. So it is where it was founded, and each call leaves it so, also one that wants memory.
pub fn numbers_stand<W, O>()
    ensures founded { (m : Worlds W O) (view : ℕ) → AreCounted (new_replica m view) }
    ensures takes { (m : Worlds W O) (r : PlainReplica W O) (frame : ServerFrame) → AreCounted r
        → AreCounted (taken m r frame).replica }
    ensures wants { (m : Worlds W O) (r new : PlainReplica W O) (frame : ServerFrame) → AreCounted r
        → lost_at m r frame ≡ Some new → AreCounted new }
    ensures joins { (r : PlainReplica W O) (how : How) → AreCounted r → AreCounted (joining r how) }
    ensures loses { (m : Worlds W O) (r : PlainReplica W O) → AreCounted r → AreCounted (loses m r) }
    ensures publishes { (r : PlainReplica W O) (payload : List ℕ) → AreCounted r → published_count r < most_published
        → AreCounted (publishes r payload) }
    ensures gives { (r : PlainReplica W O) → AreCounted r → AreCounted (gives r) }
    ensures takes_out { (r : PlainReplica W O) → AreCounted r → AreCounted (takes_out r) }
{}

/// From a join on no event is to be given. A Sync that is taken makes it each event that is not acknowledged, in order. Those that were
/// given are not given again, nor does the answer to one change what is to be given, and an event that is published then comes last.
pub fn events_are_given<W, O>()
    ensures joins { (r : PlainReplica W O) (how : How) → unsent (joining r how) ≡ [] }
    ensures synced { (m : Worlds W O) (r : PlainReplica W O) (joined last from : ℕ) (base : Option Base)
        → (taken m r (Sync joined last from base)).fault ≡ None
        → unsent (taken m r (Sync joined last from base)).replica ≡ sends_after r.acknowledged r.outbox }
    ensures gives { (r : PlainReplica W O) → unsent (gives r) ≡ [] }
    ensures publishes { (r : PlainReplica W O) (payload : List ℕ) → AreCounted r → r.synced ≡ true
        → unsent (publishes r payload) ≡ unsent r ++ Send (published_count r + 1) payload ∷ [] }
    ensures answers { (m : Worlds W O) (r : PlainReplica W O) (number seq time : ℕ) → r.acknowledged < r.given
        → unsent (taken m r (Done number seq time)).replica ≡ unsent r }
{}
