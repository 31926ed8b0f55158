//! Replicas.
ghost use Rattle.std.specs.Prelude.{◌≡◌, ◌↔◌, ◌≤◌, ◌<◌, ◌+◌, false, nat_eq, [], length, map, sum_by, None, Some, IfOk, OnOk, OnErr, IsTrue};
ghost use Rattle.std.specs.Arc.{arc_value};
ghost use Rattle.std.specs.List.{AllByRecursion};
ghost use Rattle.tea_base.specs.Limits.{most_payload, time_limit};
ghost use Rattle.model_value.specs.Payload.{payload_spelling};
ghost use Rattle.model_value.specs.Plain.{InBounds};
ghost use Rattle.model_value.specs.View.{plain};
ghost use Rattle.wire_frames.specs.Frames.{FitsClient};
ghost use Rattle.world_plain.specs.Messages.{plain_outgoing};
ghost use Rattle.world_plain.specs.Valid.{Valid};
ghost use Rattle.world_plain.specs.World.{world_record};
ghost use Rattle.model_solved.specs.Founding.{checked_tree};
ghost use Rattle.world.specs.Worlds.{field_counts};
ghost use Rattle.replica_plain.specs.declared.how.How.TheVariants.{Resume};
ghost use Rattle.replica_plain.specs.PlainReplica.{most_published, published_count, breaks};
ghost use Rattle.replica_plain.specs.Taking.{IsTaken, begins_anew, begins_with_world, goes_on_from, lost_at, synced_with, take_done, take_entry, take_refused, take_sync, take_tick, taken, IsTimely};
ghost use Rattle.replica_plain.specs.Calls.{Publishes, gives, join_frame, joining, loses, publishes, takes_out, unsent};
ghost use Rattle.replica.specs.SessionWorlds.{CopiesWorld, Snaps};
ghost use Rattle.replica.specs.View.{IsSoundReplica, KeepsSession, cause_of, founded_replica, with_plain, world_part, worlds_of};

use crate::measure::payload_len;
use crate::outbox::Outbox;
use crate::session_world::SessionWorld;
use model_solved::Checked;
use model_value::{Value, payload};
use replica_plain::{How, PublishRefusal, ReplicaFault};
use std::alloc::Global;
use std::marker::Model;
use std::sync::Arc;
use tea_base::{Blob, Entry, List, MOST_PAYLOAD, SessionId, Text, WantOfMemory};
use wire_frames::{Base, ClientFrame, ClientFrames, JOIN_TAG, SNAP_TAG, ServerFrame, Want};
use world::WorldFault;
use world_plain::{PlainWorld, Published};

/// The most events that a view publishes.
const MOST_PUBLISHED: u32 = 1_048_576;

/// A view's replica of the world of a session: it takes the frames that the view is sent, and keeps the events that the view
/// published until they are acknowledged.
///
/// A replica that took what a connection of its session served it follows the log, as [`replica_follows`] says. One that
/// wanted memory while its world went on is broken, until a Sync makes its world anew. A broken replica counts as one with
/// the first world and an empty published list.
///
/// [`replica_follows`]: crate::replica_follows
#[derive(Drop)]
pub struct Replica {
    alloc: Global,
    view: u32,
    world: SessionWorld,
    seen: u32,
    outbox: Outbox,
    acknowledged: u32,
    given: u32,
    awaited: Option<How>,
    synced: bool,
    base: Option<u64>,
}

impl Model for Replica {
    ghost use Rattle.std.specs.Coded.{codes};
    ghost use Rattle.model_tree.specs.contracts.tree.Stmt as stmt;
    ghost use Rattle.replica_plain.specs.PlainReplica.{AreCounted};
    ghost use Rattle.model_solved.specs.Founding.{coded_checked};
    ghost use Rattle.world_plain.specs.Messages.{coded_outgoing};
    ghost use Rattle.world_plain.specs.WorldCode.{coded_world};
    ghost use Rattle.replica.specs.View.{ReplicaView};

    ghost Value = { ReplicaView };

    ghost coded = { Prim.hlevel (
      codes,
      coded_checked (Prim.hlevel (codes, stmt.the_row.coded)),
      coded_world,
      coded_outgoing,
    ) };

    ghost use Rattle.replica.specs.Parts.{replica_view, plain_part};

    ghost view = { replica_view };

    ghost invariant = { λ r. AreCounted (plain_part r) };
}

/// Whether a number is the one behind another.
fn comes_after(last: u32, number: u32) -> bool
    ensures { result ≡ nat_eq number (last + 1) }
{
    last < number && number - last == 1
}

/// What a replica says of a fault of its world.
fn cause(fault: WorldFault) -> ReplicaFault
    ensures { result ≡ cause_of fault }
{
    match fault {
        WorldFault::Broken => ReplicaFault::Broken,
        WorldFault::Back { time } => ReplicaFault::Back { time },
        WorldFault::WantOfMemory => ReplicaFault::WantOfMemory,
    }
}

impl Replica {
    /// A view of a session, by its number: it has the first world, has seen no entry, has published nothing, and has not
    /// joined. Fails for want of memory alone.
    pub fn found(
        alloc: Global,
        program: Arc<Checked, Global>,
        id: SessionId,
        view: u32,
    ) -> Result<Replica, WantOfMemory>
        ensures { IfOk result (λ r. r ≡ founded_replica (arc_value program) id.0 view) }
    {
        let world = SessionWorld::first(alloc, program, id)?;
        Ok(Replica {
            alloc,
            view,
            world,
            seen: 0,
            outbox: Outbox::new(alloc),
            acknowledged: 0,
            given: 0,
            awaited: None,
            synced: false,
            base: None,
        })
    }

    /// Joins, and answers the frame for it: a Sync is awaited from then on, and each event that is not acknowledged counts as
    /// unsent. `Resume` asks for what is later than the replica's time; a broken replica has to join otherwise. The frame fits its
    /// fields. Takes no memory.
    pub fn join(&mut self, how: How) -> ClientFrame
        requires { how ≡ Resume → self.old.plain.broken ≡ false }
        ensures frame { result ≡ join_frame (worlds_of self.old) self.old.plain how }
        ensures fits { FitsClient result }
        ensures joins { self.new ≡ with_plain self.old (joining self.old.plain how) }
    {
        self.given = self.acknowledged;
        self.awaited = Some(how);
        self.synced = false;
        let want = match how {
            How::Fresh => Want::Fresh,
            How::Whole => Want::Whole,
            How::Resume => Want::After(self.world.time()),
        };
        ClientFrame::Join {
            session: self.world.id(),
            view: self.view,
            want,
        }
    }

    /// Takes a frame. The time of an entry or a tick is in microseconds of TeaTime, below 2^53.
    ///
    /// A Sync that is awaited makes the world: the base's, where there is one; else the first world, or after `Resume` the one
    /// that the replica has. An entry or a tick moves it on. A Done acknowledges the least event that is not acknowledged.
    ///
    /// # Errors
    ///
    /// The first of these that applies comes, and changes nothing but where it says so.
    ///
    /// - `Unasked`: a Sync that is not awaited; another frame but a Refused or an Alive, while no Sync was taken since the
    ///   last join.
    /// - `Broken`: an entry or a tick, while the replica is broken.
    /// - `OutOfOrder`, with the number that was expected and the one found. Of a Sync: it knows of more events than were
    ///   published, or of fewer than were acknowledged; after `Resume` its entries do not begin behind those seen; else,
    ///   without a base, they do not begin at the first one. Of an entry: it is not the one behind those seen. Of a Done: it
    ///   does not name the least event that is not acknowledged.
    /// - `Back`, with the replica's time: an entry whose time is not above it, or a tick below it.
    /// - `BadBase`: a base that was not asked for, or that is no snapshot of the session at the base's time.
    /// - `Refused`: a Refused about another frame than a SNAP. After one about a JOIN no Sync is awaited.
    /// - `WantOfMemory`: at a Sync it changes nothing, and may come in place of `BadBase`. At an entry or a tick the replica is
    ///   broken, and the published list is empty. No other frame takes memory.
    pub fn take(&mut self, frame: &ServerFrame) -> Result<(), ReplicaFault>
        requires { IsTimely frame.now }
        ensures taken { IsTaken result (lost_at (worlds_of self.old) self.old.plain frame.now) self.new.plain
            (taken (worlds_of self.old) self.old.plain frame.now) }
        ensures session { KeepsSession self.old self.new }
    {
        match frame {
            ServerFrame::Sync {
                last,
                from,
                base,
                ..
            } => self.take_sync(*last, *from, base),
            ServerFrame::Recv(entry) if self.synced => self.take_entry(entry),
            ServerFrame::Tick(time) if self.synced => self.take_tick(*time),
            ServerFrame::Done { number, .. } if self.synced => self.take_done(*number),
            ServerFrame::Snapped { .. } if self.synced => Ok(()),
            ServerFrame::Refused {
                about,
                code,
                kept,
                ..
            } => self.take_refused(*about, *code, *kept),
            ServerFrame::Alive => Ok(()),
            ServerFrame::Recv(_)
            | ServerFrame::Tick(_)
            | ServerFrame::Done { .. }
            | ServerFrame::Snapped { .. } => Err(ReplicaFault::Unasked),
        }
    }

    fn take_sync(&mut self, last: u32, from: u32, base: &Option<Base>) -> Result<(), ReplicaFault>
        ensures taken { IsTaken result (Some self.old.plain) self.new.plain
            (take_sync (worlds_of self.old) self.old.plain self.old.plain.awaited last from base.now) }
        ensures session { KeepsSession self.old self.new }
    {
        let Some(how) = self.awaited else {
            return Err(ReplicaFault::Unasked);
        };
        let published = self.published();
        if published < last {
            return Err(ReplicaFault::OutOfOrder {
                expected: published,
                found: last,
            });
        }
        if last < self.acknowledged {
            return Err(ReplicaFault::OutOfOrder {
                expected: self.acknowledged,
                found: last,
            });
        }
        match (how, base) {
            (How::Resume, None) => self.go_on(from),
            (How::Resume, Some(_)) if from != self.seen => Err(ReplicaFault::OutOfOrder {
                expected: self.seen,
                found: from,
            }),
            (How::Fresh | How::Whole, None) => self.begin_anew(from),
            (How::Fresh, Some(base)) => self.begin_with(from, base),
            (How::Whole | How::Resume, Some(_)) => Err(ReplicaFault::BadBase),
        }
    }

    /// A Sync without a base after `Resume`.
    fn go_on(&mut self, from: u32) -> Result<(), ReplicaFault>
        ensures taken { IsTaken result (Some self.old.plain) self.new.plain (goes_on_from self.old.plain from) }
        ensures session { KeepsSession self.old self.new }
    {
        if from != self.seen {
            return Err(ReplicaFault::OutOfOrder {
                expected: self.seen,
                found: from,
            });
        }
        self.given = self.acknowledged;
        self.awaited = None;
        self.synced = true;
        Ok(())
    }

    /// A Sync without a base after `Fresh` or `Whole`.
    fn begin_anew(&mut self, from: u32) -> Result<(), ReplicaFault>
        ensures taken { IsTaken result (Some self.old.plain) self.new.plain
            (begins_anew (worlds_of self.old) self.old.plain from) }
        ensures session { KeepsSession self.old self.new }
    {
        if from != 0 {
            return Err(ReplicaFault::OutOfOrder {
                expected: 0,
                found: from,
            });
        }
        let world = self.world.anew()?;
        self.start(world, 0, None);
        Ok(())
    }

    /// A Sync with a base after `Fresh`.
    fn begin_with(&mut self, from: u32, base: &Base) -> Result<(), ReplicaFault>
        ensures taken { IsTaken result (Some self.old.plain) self.new.plain
            (begins_with_world (worlds_of self.old) self.old.plain from base.now.time
            ((worlds_of self.old).unsnap base.now.bytes)) }
        ensures session { KeepsSession self.old self.new }
    {
        let Some(world) = self.world.of_bytes(base.bytes.bytes())? else {
            return Err(ReplicaFault::BadBase);
        };
        if world.time() != base.time {
            return Err(ReplicaFault::BadBase);
        }
        self.start(world, from, Some(base.time));
        Ok(())
    }

    /// A Sync is taken, with this world, and so many entries count as seen.
    fn start(&mut self, world: SessionWorld, from: u32, base: Option<u64>)
        requires program { world.program ≡ self.old.program }
        requires session { world.id ≡ self.old.id }
        requires whole { world.broken ≡ false }
        ensures { self.new ≡ with_plain self.old (synced_with self.old.plain world.world world.out from base) }
    {
        self.world = world;
        self.seen = from;
        self.given = self.acknowledged;
        self.awaited = None;
        self.synced = true;
        self.base = base;
    }

    fn take_entry(&mut self, entry: &Entry) -> Result<(), ReplicaFault>
        requires { entry.now.time < time_limit }
        ensures taken { IsTaken result (Some (breaks (worlds_of self.old) self.old.plain)) self.new.plain
            (take_entry (worlds_of self.old) self.old.plain entry.now) }
        ensures session { KeepsSession self.old self.new }
    {
        if self.world.broken() {
            return Err(ReplicaFault::Broken);
        }
        if !comes_after(self.seen, entry.seq) {
            return Err(ReplicaFault::OutOfOrder {
                expected: self.seen.saturating_add(1),
                found: entry.seq,
            });
        }
        match self.world.external(entry) {
            Ok(()) => {
                self.seen = entry.seq;
                Ok(())
            }
            Err(fault) => Err(cause(fault)),
        }
    }

    fn take_tick(&mut self, time: u64) -> Result<(), ReplicaFault>
        requires { time < time_limit }
        ensures taken { IsTaken result (Some (breaks (worlds_of self.old) self.old.plain)) self.new.plain
            (take_tick (worlds_of self.old) self.old.plain time) }
        ensures session { KeepsSession self.old self.new }
    {
        match self.world.advance(time) {
            Ok(()) => Ok(()),
            Err(fault) => Err(cause(fault)),
        }
    }

    fn take_done(&mut self, number: u32) -> Result<(), ReplicaFault>
        ensures taken { IsTaken result None self.new.plain (take_done self.old.plain self.old.plain.outbox number) }
        ensures session { KeepsSession self.old self.new }
    {
        if !comes_after(self.acknowledged, number) || self.outbox.len() == 0 {
            return Err(ReplicaFault::OutOfOrder {
                expected: self.acknowledged + 1,
                found: number,
            });
        }
        self.outbox.pop();
        self.acknowledged = number;
        self.given = self.given.max(number);
        Ok(())
    }

    fn take_refused(&mut self, about: u8, code: u8, kept: u64) -> Result<(), ReplicaFault>
        ensures taken { IsTaken result None self.new.plain (take_refused self.old.plain about code kept) }
        ensures session { KeepsSession self.old self.new }
    {
        if about == SNAP_TAG {
            return Ok(());
        }
        if about == JOIN_TAG {
            self.awaited = None;
        }
        Err(ReplicaFault::Refused { about, code, kept })
    }

    /// Publishes an event: its payload, as [`payload`](model_value::payload) writes it, waits until it is acknowledged. Answers
    /// the event's number, from 1. The value has to be in bounds.
    ///
    /// # Errors
    ///
    /// `TooLong` exactly where the payload has more than 4,096 bytes, then `Full` exactly where 1,048,576 events were
    /// published. Each error changes nothing.
    pub fn publish(
        &mut self,
        scope: &Text,
        event: &Text,
        value: &Value,
    ) -> Result<u32, PublishRefusal>
        requires { InBounds (plain value.now) }
        ensures publishes { Publishes result self.old.plain self.new.plain
            (payload_spelling (record { scope = scope.now; event = event.now; value = plain value.now })) }
        ensures session { KeepsSession self.old self.new }
    {
        let len = payload_len(self.alloc, scope, event, value)?;
        if len as usize > MOST_PAYLOAD {
            return Err(PublishRefusal::TooLong { len });
        }
        let count = self.published();
        if count == MOST_PUBLISHED {
            return Err(PublishRefusal::Full { count });
        }
        let payload = payload(self.alloc, scope, event, value)?;
        self.put(payload)?;
        Ok(count + 1)
    }

    fn put(&mut self, payload: Blob) -> Result<(), WantOfMemory>
        requires short { length payload ≤ most_payload }
        requires few { published_count self.old.plain < most_published }
        ensures ok { OnOk result (self.new ≡ with_plain self.old (publishes self.old.plain payload)) }
        ensures err { OnErr result (self.new ≡ self.old) }
    {
        self.outbox.push(payload)
    }

    /// How many events it published.
    fn published(&self) -> u32
        ensures count { result ≡ published_count self.now.plain }
        ensures most { result ≤ most_published }
    {
        self.acknowledged + self.outbox.len() as u32
    }

    /// The SENDs of all events that are not acknowledged and were not given since the last Sync, in order; they count as given.
    /// There are none while no Sync was taken since the last join. Each fits its fields. Want of memory changes nothing.
    pub fn unsent(&mut self) -> Result<ClientFrames, WantOfMemory>
        ensures frames { IfOk result (λ frames. frames ≡ unsent self.old.plain) }
        ensures fit { IfOk result (λ frames. AllByRecursion FitsClient frames) }
        ensures ok { OnOk result (self.new ≡ with_plain self.old (gives self.old.plain)) }
        ensures err { OnErr result (self.new ≡ self.old) }
    {
        if !self.synced {
            return Ok(List::new(self.alloc));
        }
        let sent = (self.given - self.acknowledged) as usize;
        let frames = self.outbox.sends(self.alloc, sent, self.given)?;
        self.given = self.acknowledged + self.outbox.len() as u32;
        Ok(frames)
    }

    /// The world as plain data.
    ///
    /// # Errors
    ///
    /// `Broken` exactly where the replica is broken, and never `Back`.
    pub fn to_plain(&self) -> Result<PlainWorld, WorldFault>
        ensures copy { CopiesWorld result (world_part self.now) }
        ensures valid { IfOk result (λ plain.
            Valid (field_counts (checked_tree self.now.program)) (world_record plain)) }
    {
        self.world.to_plain()
    }

    /// The snapshot of the world, as [`snapshot`](snapshot_codec::snapshot) writes it: it is read again as this world, and has
    /// 4,194,304 bytes at most.
    ///
    /// # Errors
    ///
    /// `Broken` exactly where the replica is broken, and never `Back`.
    pub fn snap(&self) -> Result<Blob, WorldFault>
        ensures { Snaps result (world_part self.now) }
    {
        self.world.snap()
    }

    /// Loses the world: it becomes the first one, no entry is seen, and no Sync is awaited or counts as taken until the next
    /// join. Each event that is not acknowledged counts as unsent, and none is lost. Want of memory changes nothing.
    pub fn lose(&mut self) -> Result<(), WantOfMemory>
        ensures ok { OnOk result (self.new ≡ with_plain self.old (loses (worlds_of self.old) self.old.plain)) }
        ensures err { OnErr result (self.new ≡ self.old) }
    {
        self.world = self.world.anew()?;
        self.seen = 0;
        self.given = self.acknowledged;
        self.awaited = None;
        self.synced = false;
        self.base = None;
        Ok(())
    }

    /// The time of the base from which its world was made, in microseconds of TeaTime; none where that was made as the first
    /// one. Takes no memory.
    pub fn base(&self) -> Option<u64>
        ensures base { result ≡ self.now.plain.base }
        ensures sound { IsSoundReplica self.now }
    {
        self.tell(); // for the prover
        self.base
    }

    /// How many events that it published are not acknowledged. Takes no memory.
    pub fn unacknowledged(&self) -> usize
        ensures count { result ≡ length self.now.plain.outbox }
        ensures sound { IsSoundReplica self.now }
    {
        self.tell(); // for the prover
        self.outbox.len()
    }

    /// How many bytes the payloads of these events have together. Takes no memory.
    pub fn unacknowledged_bytes(&self) -> u64
        ensures count { result ≡ sum_by length self.now.plain.outbox }
        ensures sound { IsSoundReplica self.now }
    {
        self.tell(); // for the prover
        self.outbox.bytes()
    }

    /// Whether each event that it published is acknowledged. Takes no memory.
    pub fn settled(&self) -> bool
        ensures settled { IsTrue result ↔ (self.now.plain.outbox ≡ []) }
        ensures sound { IsSoundReplica self.now }
    {
        self.tell(); // for the prover
        self.outbox.len() == 0
    }

    /// The world's time, in microseconds of TeaTime, below 2^53; of a broken replica 0. Takes no memory.
    pub fn time(&self) -> u64
        ensures time { result ≡ self.now.plain.world.time }
        ensures timely { result < time_limit }
        ensures sound { IsSoundReplica self.now }
    {
        self.tell(); // for the prover
        self.world.time()
    }

    /// How many entries of the log it has. Takes no memory.
    pub fn seen(&self) -> u32
        ensures seen { result ≡ self.now.plain.seen }
        ensures sound { IsSoundReplica self.now }
    {
        self.tell(); // for the prover
        self.seen
    }

    /// Whether want of memory broke it. Takes no memory.
    pub fn broken(&self) -> bool
        ensures broken { result ≡ self.now.plain.broken }
        ensures sound { IsSoundReplica self.now }
    {
        self.tell(); // for the prover
        self.world.broken()
    }

    /// Tells what is so of every replica.
    fn tell(&self)
        ensures { IsSoundReplica self.now }
    {
        let _broken = self.world.broken();
        let _seen = self.seen;
    }

    /// What models published since the list was last taken, in order. Takes no memory.
    pub fn take_out(&mut self) -> Published
        ensures published { map plain_outgoing result ≡ self.old.plain.out }
        ensures rest { self.new ≡ with_plain self.old (takes_out self.old.plain) }
    {
        self.world.take_out()
    }
}
