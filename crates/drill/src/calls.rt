//! What a worker asks of the session in a turn.
ghost use Rattle.std.specs.Prelude.{◌≡◌, ◌<◌, true, IfOk, OnOk};
ghost use Rattle.replica_plain.specs.PlainReplica.{most_published, published_count};
ghost use Rattle.session_lock.specs.History.{play};
ghost use Rattle.replica.specs.RealWorlds.{is_at_rest};
ghost use Rattle.drill.specs.Turns.{HasCome, HasJoined, HasOffered, HasPublished, HasPulled, HasRead, HasSentIt, HasTakenMore, HasUnsent, MayJoinBy};
ghost use Rattle.drill.specs.Workers.{IsWorker, KeepsSource};
ghost use Rattle.drill.specs.Working.{IsCaughtUp, ReplicaWorks};

use crate::taking::{take_all, take_sync};
use crate::worker::{Service, Worker};
use join_sync::{Act, Cursor, MOST_PULLED, replies_fit};
use model_value::Value;
use reflector_core::{Reply, Request};
use replica::{equal_snapshots, worlds_replay, worlds_stand};
use replica_plain::{How, PublishRefusal};
use std::sync::Wait;
use tea_base::{Text, WantOfMemory};
use tea_io::Clock;
use wire_frames::{ClientFrame, ServerFrame};
use world::WorldFault;

/// So many batches have all entries that a log may have.
const MOST_BATCHES: u32 = 4100;

impl Worker {
    /// Joins by a new connection, and takes the Sync. None where the Join was refused.
    pub fn join<C: Clock, G, R: Wait>(
        &mut self,
        service: &Service<'_, C, G, R>,
        how: How,
    ) -> Result<Option<Cursor>, WantOfMemory>
        requires worker { IsWorker (C.gives service.now.clock.now) service.now.size service.now.shared.now self.old }
        requires may { MayJoinBy (play self.old.pass.seen) self.old.replica how }
        ensures source { KeepsSource self.old self.new }
        ensures worker { OnOk result
            (IsWorker (C.gives service.now.clock.now) service.now.size service.now.shared.now self.new) }
        ensures joined { IfOk result (λ cursor.
            HasJoined (C.gives service.now.clock.now) service.now.size.views service.now.shared.now self.old self.new
            how cursor) }
    {
        replies_fit(); // for the prover
        worlds_stand(); // for the prover
        worlds_replay(); // for the prover
        let ClientFrame::Join { want, .. } = self.replica.join(how) else {
            unreachable!()
        };
        let request = Request::Join {
            view: self.view,
            now: service.clock.now(),
            want,
        };
        let reply = self.ask(service, &request)?;
        let (opened, frame) = Cursor::opened(self.view, reply);
        let Some(cursor) = opened else {
            return Ok(None);
        };
        take_sync(&mut self.replica, &frame)?;
        Ok(Some(cursor))
    }

    /// Draws a number, and publishes it.
    pub fn publish<C: Clock, G, R: Wait>(
        &mut self,
        service: &Service<'_, C, G, R>,
    ) -> Result<(), WantOfMemory>
        requires few { published_count self.old.replica.plain < most_published }
        ensures view { self.new.view ≡ self.old.view }
        ensures published { OnOk result (HasPublished self.old self.new) }
    {
        let scope = Text::copy(service.alloc, "drill")?;
        let event = Text::copy(service.alloc, "add")?;
        let number = self.source.below(100);
        match self
            .replica
            .publish(&scope, &event, &Value::Int(number as i64))
        {
            Ok(_) => Ok(()),
            Err(PublishRefusal::WantOfMemory) => Err(WantOfMemory),
            Err(PublishRefusal::TooLong { .. }) => unreachable!(),
            Err(PublishRefusal::Full { .. }) => unreachable!(),
        }
    }

    /// Sends the one event that is to be given, and answers the Done for it. None where the Send was refused.
    pub fn send<C: Clock, G, R: Wait>(
        &mut self,
        service: &Service<'_, C, G, R>,
        cursor: &Cursor,
    ) -> Result<Option<ServerFrame>, WantOfMemory>
        requires worker { IsWorker (C.gives service.now.clock.now) service.now.size service.now.shared.now self.old }
        requires unsent { HasUnsent self.old.replica }
        requires connection { cursor.now.view ≡ self.old.view }
        ensures source { KeepsSource self.old self.new }
        ensures worker { OnOk result
            (IsWorker (C.gives service.now.clock.now) service.now.size service.now.shared.now self.new) }
        ensures sent { IfOk result (λ done.
            HasSentIt (C.gives service.now.clock.now) service.now.size.views service.now.shared.now self.old self.new
            cursor.now done) }
    {
        replies_fit(); // for the prover
        let Some(frame) = self.replica.unsent()?.into_vec().pop() else {
            unreachable!()
        };
        let Act::Call(request) = cursor.act(frame, service.clock.now()) else {
            unreachable!()
        };
        let reply = self.ask(service, &request)?;
        match &reply {
            Reply::Refused(_) => Ok(None),
            _ => Ok(cursor.answer(&request, &reply)),
        }
    }

    /// Ticks, and takes the log up to that tick.
    pub fn catch_up<C: Clock, G, R: Wait>(
        &mut self,
        service: &Service<'_, C, G, R>,
        cursor: &mut Cursor,
    ) -> Result<(), WantOfMemory>
        requires worker { IsWorker (C.gives service.now.clock.now) service.now.size service.now.shared.now self.old }
        requires works { ReplicaWorks (play self.old.pass.seen) self.old.replica cursor.old }
        ensures source { KeepsSource self.old self.new }
        ensures worker { OnOk result
            (IsWorker (C.gives service.now.clock.now) service.now.size service.now.shared.now self.new) }
        ensures more { OnOk result (HasTakenMore
            (C.gives service.now.clock.now) service.now.size.views self.old self.new cursor.old cursor.new) }
        ensures caught { OnOk result (IsCaughtUp (play self.new.pass.seen) self.new.replica) }
        ensures read { OnOk result (HasRead self.old.view self.old.pass self.new.pass cursor.old cursor.new) }
    {
        let tick = Request::Tick {
            now: service.clock.now(),
        };
        let _ticked = self.ask(service, &tick)?;
        for _ in 0..MOST_BATCHES {
            if self.pull(service, cursor)? {
                return Ok(());
            }
        }
        unreachable!()
    }

    /// Takes the next batch, and tells whether it has come to the end of the log.
    fn pull<C: Clock, G, R: Wait>(
        &mut self,
        service: &Service<'_, C, G, R>,
        cursor: &mut Cursor,
    ) -> Result<bool, WantOfMemory>
        requires worker { IsWorker (C.gives service.now.clock.now) service.now.size service.now.shared.now self.old }
        requires works { ReplicaWorks (play self.old.pass.seen) self.old.replica cursor.old }
        ensures source { KeepsSource self.old self.new }
        ensures worker { OnOk result
            (IsWorker (C.gives service.now.clock.now) service.now.size service.now.shared.now self.new) }
        ensures more { OnOk result (HasTakenMore
            (C.gives service.now.clock.now) service.now.size.views self.old self.new cursor.old cursor.new) }
        ensures come { IfOk result (λ last.
            HasCome (play self.new.pass.seen) self.new.replica cursor.old cursor.new last) }
        ensures pulled { IfOk result (λ last.
            HasPulled self.old.view self.old.pass self.new.pass cursor.old cursor.new last) }
    {
        worlds_stand(); // for the prover
        let pull = Request::Pull {
            after: cursor.after(),
            limit: MOST_PULLED,
        };
        let batch = self.ask(service, &pull)?;
        let is_last = match &batch {
            Reply::Batch { tick, .. } => tick.is_some(),
            _ => unreachable!(),
        };
        let frames = cursor.next(service.alloc, batch)?;
        take_all(&mut self.replica, frames.as_slice())?;
        Ok(is_last)
    }

    /// Offers the snapshot of its world.
    pub fn offer<C: Clock, G, R: Wait>(
        &mut self,
        service: &Service<'_, C, G, R>,
        cursor: &Cursor,
    ) -> Result<(), WantOfMemory>
        requires worker { IsWorker (C.gives service.now.clock.now) service.now.size service.now.shared.now self.old }
        requires works { ReplicaWorks (play self.old.pass.seen) self.old.replica cursor.now }
        requires rests { is_at_rest self.old.replica.plain.world ≡ true }
        ensures worker { OnOk result
            (IsWorker (C.gives service.now.clock.now) service.now.size service.now.shared.now self.new) }
        ensures rest { self.new ≡ record self.old { pass = self.new.pass } }
        ensures offered { OnOk result
            (HasOffered (C.gives service.now.clock.now) service.now.size.views service.now.shared.now self.old self.new
            cursor.now) }
    {
        equal_snapshots(); // for the prover
        let bytes = match self.replica.snap() {
            Ok(bytes) => bytes,
            Err(WorldFault::WantOfMemory) => return Err(WantOfMemory),
            Err(WorldFault::Broken) => unreachable!(),
            Err(WorldFault::Back { .. }) => unreachable!(),
        };
        let offer = Request::Offer {
            view: self.view,
            joined: cursor.joined,
            time: self.replica.time(),
            bytes,
        };
        let _kept = service.shared.offer(service.rt, &mut self.pass, &offer)?;
        Ok(())
    }
}
