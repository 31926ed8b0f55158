//! The parts of a system, and its steps.
ghost use Rattle.std.specs.Prelude.{◌≡◌, OnOk};
ghost use Rattle.model_value.specs.Payload.{payload_spelling};
ghost use Rattle.model_value.specs.Plain.{InBounds};
ghost use Rattle.model_value.specs.View.{plain};
ghost use Rattle.system_plain.specs.Steps.{Cut, Found, Publish, Pull, Receive, Reconnect, Restart, Snap, Take, Tick, Transmit, whole_for};
ghost use Rattle.system_core.specs.Parts.{Connects, HasMember, IsNoWant, IsMemberPlace, IsSound, Takes};
ghost use Rattle.system_core.specs.Schedules.{IsInBounds, plain_system_step};

use crate::connection::{Connection, close};
use crate::member::{Member, place};
use crate::step::ScheduleStep;
use model_solved::Checked;
use model_value::Value;
use reflector_core::{Request, Session};
use replica::Replica;
use replica_plain::{How, PublishRefusal, ReplicaFault};
use std::alloc::Global;
use std::sync::Arc;
use tea_base::{SessionId, Text, WantOfMemory, push};
use wire_frames::ClientFrame;
use world::WorldFault;

/// A session, the replicas of its views and their connections. A connection's number is its place. What want of memory leaves of
/// them is not known.
#[derive(Drop)]
pub(crate) struct Parts {
    pub alloc: Global,
    pub program: Arc<Checked, Global>,
    pub id: SessionId,
    pub session: Session,
    pub members: Vec<Member>,
    pub connections: Vec<Connection>,
}

/// How a view joins that lost its world: it has none to go on from.
fn whole_for(how: How) -> How
    ensures { result ≡ whole_for how }
{
    match how {
        How::Fresh => How::Fresh,
        How::Whole | How::Resume => How::Whole,
    }
}

/// Whether memory was wanted. Each other fault of a frame is an answer.
fn want_of(taken: Result<(), ReplicaFault>) -> Result<(), WantOfMemory>
    ensures { OnOk result (IsNoWant taken) }
{
    match taken {
        Ok(())
        | Err(
            ReplicaFault::Unasked
            | ReplicaFault::OutOfOrder { .. }
            | ReplicaFault::Back { .. }
            | ReplicaFault::BadBase
            | ReplicaFault::Broken
            | ReplicaFault::Refused { .. },
        ) => Ok(()),
        Err(ReplicaFault::WantOfMemory) => Err(WantOfMemory),
    }
}

impl Parts {
    /// Where the member of a view stands, if it has one.
    pub(crate) fn place(&self, view: u32) -> Option<usize>
        ensures { IsMemberPlace result self.now.members.items view }
    {
        place(&self.members, view)
    }

    /// Takes a step, if it can be made.
    pub(crate) fn make(&mut self, step: &ScheduleStep) -> Result<(), WantOfMemory>
        requires sound { IsSound self.old }
        requires bounds { IsInBounds step.now }
        ensures { OnOk result (Takes self.old self.new (plain_system_step step.now)) }
    {
        match step {
            ScheduleStep::Found { view } => self.found(*view),
            ScheduleStep::Publish {
                view,
                scope,
                event,
                value,
            } => self.publish(*view, scope, event, value),
            ScheduleStep::Transmit { view } => self.transmit(*view),
            ScheduleStep::Take { connection, now } => self.take(*connection, *now),
            ScheduleStep::Tick { now } => self.tick(*now),
            ScheduleStep::Pull { connection } => self.pull(*connection),
            ScheduleStep::Receive { view } => self.receive(*view),
            ScheduleStep::Cut {
                connection,
                up,
                down,
            } => {
                self.cut(*connection, *up, *down);
                Ok(())
            }
            ScheduleStep::Reconnect { view, how } => self.reconnect(*view, *how),
            ScheduleStep::Restart { view, how } => self.restart(*view, *how),
            ScheduleStep::Snap { view } => self.snap(*view),
        }
    }

    fn found(&mut self, view: u32) -> Result<(), WantOfMemory>
        requires { IsSound self.old }
        ensures { OnOk result (Takes self.old self.new (Found view)) }
    {
        if view == 0 {
            return Ok(());
        }
        if let Some(_) = self.place(view) {
            return Ok(());
        }
        let mut replica = Replica::found(self.alloc, self.program.clone()?, self.id, view)?;
        let frame = replica.join(How::Fresh);
        let newest = self.connections.len();
        let connection = Connection::connecting(self.alloc, view, frame)?;
        push(&mut self.connections, connection)?;
        push(
            &mut self.members,
            Member {
                view,
                replica,
                newest,
            },
        )
    }

    fn publish(
        &mut self,
        view: u32,
        scope: &Text,
        event: &Text,
        value: &Value,
    ) -> Result<(), WantOfMemory>
        requires sound { IsSound self.old }
        requires bounds { InBounds (plain value.now) }
        ensures { OnOk result (Takes self.old self.new
            (Publish view (payload_spelling (record {
              scope = scope.now;
              event = event.now;
              value = plain value.now;
            })))) }
    {
        let Some(place) = self.place(view) else {
            return Ok(());
        };
        match self.members[place].replica.publish(scope, event, value) {
            Ok(_) => Ok(()),
            Err(PublishRefusal::TooLong { .. }) => Ok(()),
            Err(PublishRefusal::Full { .. }) => Ok(()),
            Err(PublishRefusal::WantOfMemory) => Err(WantOfMemory),
        }
    }

    fn transmit(&mut self, view: u32) -> Result<(), WantOfMemory>
        requires { IsSound self.old }
        ensures { OnOk result (Takes self.old self.new (Transmit view)) }
    {
        let Some(place) = self.place(view) else {
            return Ok(());
        };
        let newest = self.members[place].newest;
        if newest >= self.connections.len() {
            return Ok(());
        }
        if !self.connections[newest].is_open() {
            return Ok(());
        }
        let frames = self.members[place].replica.unsent()?;
        self.connections[newest].put_up(frames.into_vec())
    }

    fn take(&mut self, connection: u32, now: u64) -> Result<(), WantOfMemory>
        requires { IsSound self.old }
        ensures { OnOk result (Takes self.old self.new (Take connection now)) }
    {
        let number = connection as usize;
        if number >= self.connections.len() {
            return Ok(());
        }
        self.connections[number].take(&mut self.session, &self.id, now)
    }

    fn tick(&mut self, now: u64) -> Result<(), WantOfMemory>
        requires { IsSound self.old }
        ensures { OnOk result (Takes self.old self.new (Tick now)) }
    {
        let _reply = self.session.call(&Request::Tick { now })?;
        Ok(())
    }

    fn pull(&mut self, connection: u32) -> Result<(), WantOfMemory>
        requires { IsSound self.old }
        ensures { OnOk result (Takes self.old self.new (Pull connection)) }
    {
        let number = connection as usize;
        if number >= self.connections.len() {
            return Ok(());
        }
        self.connections[number].pull(self.alloc, &mut self.session)
    }

    fn receive(&mut self, view: u32) -> Result<(), WantOfMemory>
        requires { IsSound self.old }
        ensures { OnOk result (Takes self.old self.new (Receive view)) }
    {
        let Some(place) = self.place(view) else {
            return Ok(());
        };
        let newest = self.members[place].newest;
        if newest >= self.connections.len() {
            return Ok(());
        }
        let Some(frame) = self.connections[newest].next_down() else {
            return Ok(());
        };
        want_of(self.members[place].replica.take(&frame))
    }

    fn cut(&mut self, connection: u32, up: u32, down: u32)
        requires { IsSound self.old }
        ensures { Takes self.old self.new (Cut connection up down) }
    {
        let number = connection as usize;
        if number >= self.connections.len() {
            return;
        }
        self.connections[number].cut(up, down);
    }

    fn reconnect(&mut self, view: u32, how: How) -> Result<(), WantOfMemory>
        requires { IsSound self.old }
        ensures { OnOk result (Takes self.old self.new (Reconnect view how)) }
    {
        let Some(place) = self.place(view) else {
            return Ok(());
        };
        self.connect(place, how)
    }

    fn restart(&mut self, view: u32, how: How) -> Result<(), WantOfMemory>
        requires { IsSound self.old }
        ensures { OnOk result (Takes self.old self.new (Restart view how)) }
    {
        let Some(place) = self.place(view) else {
            return Ok(());
        };
        self.members[place].replica.lose()?;
        self.connect(place, whole_for(how))
    }

    /// The member of a place joins by a new connection, in place of the one that it had.
    fn connect(&mut self, place: usize, how: How) -> Result<(), WantOfMemory>
        requires { HasMember self.old place }
        ensures { OnOk result (Connects self.old self.new place how) }
    {
        let newest = self.members[place].newest;
        let number = self.connections.len();
        close(&mut self.connections, newest);
        let member = &mut self.members[place];
        let frame = member.replica.join(how);
        member.newest = number;
        let connection = Connection::connecting(self.alloc, member.view, frame)?;
        push(&mut self.connections, connection)
    }

    fn snap(&mut self, view: u32) -> Result<(), WantOfMemory>
        requires { IsSound self.old }
        ensures { OnOk result (Takes self.old self.new (Snap view)) }
    {
        let Some(place) = self.place(view) else {
            return Ok(());
        };
        let newest = self.members[place].newest;
        if newest >= self.connections.len() {
            return Ok(());
        }
        if !self.connections[newest].is_open() {
            return Ok(());
        }
        let time = self.members[place].replica.time();
        let bytes = match self.members[place].replica.snap() {
            Ok(bytes) => bytes,
            Err(WorldFault::WantOfMemory) => return Err(WantOfMemory),
            Err(_) => unreachable!(),
        };
        let mut frames = Vec::new(self.alloc);
        push(&mut frames, ClientFrame::Snap { time, bytes })?;
        self.connections[newest].put_up(frames)
    }
}
