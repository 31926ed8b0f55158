//! What a view reads off its replica.
ghost use Rattle.std.specs.Prelude.{◌≡◌, ◌≤◌, ◌↔◌, [], IsTrue};
ghost use Rattle.replica_plain.specs.PlainReplica.{published_count};
ghost use Rattle.view_script.specs.PlainLine.{most_publishes};

use replica::Replica;

/// The time of its world.
pub fn time_of(replica: &Replica) -> u64
    ensures { result ≡ replica.now.plain.world.time }
{
    replica.time()
}

/// How many entries it has.
pub fn seen_of(replica: &Replica) -> u32
    ensures { result ≡ replica.now.plain.seen }
{
    replica.seen()
}

/// Whether each event is acknowledged.
pub fn is_settled(replica: &Replica) -> bool
    ensures { IsTrue result ↔ (replica.now.plain.outbox ≡ []) }
{
    replica.settled()
}

/// No replica published more events than a view may.
pub fn tell_few(replica: &Replica)
    ensures { published_count replica.now.plain ≤ most_publishes }
{
    let _seen = replica.seen();
}
