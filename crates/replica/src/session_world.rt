//! Worlds of a session, as a replica has them.
ghost use Rattle.std.specs.Prelude.{◌≡◌, ◌<◌, nat_le, nat_lt, [], map, IfOk};
ghost use Rattle.std.specs.Arc.{arc_value};
ghost use Rattle.tea_base.specs.Limits.{time_limit};
ghost use Rattle.model_solved.specs.Founding.{checked_tree};
ghost use Rattle.world_plain.specs.Messages.{plain_outgoing};
ghost use Rattle.world_plain.specs.Valid.{Valid};
ghost use Rattle.world_plain.specs.World.{world_record};
ghost use Rattle.world.specs.Worlds.{field_counts};
ghost use Rattle.replica.specs.SessionWorlds.{own_worlds, first_world, quiet_world, CopiesWorld, GoesOn, IsFound, IsSoundSessionWorld, Snaps};

use model_solved::Checked;
use snapshot_codec::{SnapFault, snapshot, unsnap};
use std::alloc::Global;
use std::marker::Model;
use std::sync::Arc;
use tea_base::{Blob, Entry, SessionId, WantOfMemory};
use world::{World, WorldFault};
use world_plain::{PlainWorld, Published};

/// A world of a program and a session. A broken one counts as the first one.
#[derive(Drop)]
pub(crate) struct SessionWorld {
    alloc: Global,
    program: Arc<Checked, Global>,
    id: SessionId,
    world: World,
}

impl Model for SessionWorld {
    ghost use Rattle.std.specs.Arc.{arc_value};
    ghost use Rattle.std.specs.Coded.{codes};
    ghost use Rattle.model_tree.specs.contracts.tree.Stmt as stmt;
    ghost use Rattle.model_solved.specs.Founding.{coded_checked};
    ghost use Rattle.world_plain.specs.Messages.{coded_outgoing};
    ghost use Rattle.world_plain.specs.WorldCode.{coded_world};
    ghost use Rattle.replica.specs.SessionWorlds.{SessionWorldView, session_view, IsOfSession};

    ghost Value = { SessionWorldView };

    ghost coded = { Prim.hlevel (
      codes,
      coded_checked (Prim.hlevel (codes, stmt.the_row.coded)),
      coded_world,
      coded_outgoing,
    ) };

    ghost view = { λ w. session_view w.id.0 w.world };

    ghost invariant = { λ w. IsOfSession (arc_value w.program) w.id.0 w.world };
}

impl SessionWorld {
    /// The first world of a session.
    pub(crate) fn first(
        alloc: Global,
        program: Arc<Checked, Global>,
        id: SessionId,
    ) -> Result<SessionWorld, WantOfMemory>
        ensures { IfOk result (λ w. w ≡ first_world (arc_value program) id.0) }
    {
        let world = World::first(alloc, program.clone()?, id)?;
        // It tells what is so of every world.
        let _broken = world.broken(); // for the prover
        Ok(SessionWorld {
            alloc,
            program,
            id,
            world,
        })
    }

    /// The first world of the same session.
    pub(crate) fn anew(&self) -> Result<SessionWorld, WantOfMemory>
        ensures { IfOk result (λ w. w ≡ first_world self.now.program self.now.id) }
    {
        SessionWorld::first(self.alloc, self.program.clone()?, self.id)
    }

    /// The world of the same program and session that bytes spell, if they spell one.
    pub(crate) fn of_bytes(&self, bytes: &[u8]) -> Result<Option<SessionWorld>, WantOfMemory>
        ensures { IfOk result (λ found. IsFound found self.now ((own_worlds self.now).unsnap bytes.now)) }
    {
        match unsnap(self.alloc, &self.program, &self.id, bytes) {
            Ok(plain) => Ok(Some(self.of_plain(&plain)?)),
            Err(SnapFault::Bad) => Ok(None),
            Err(SnapFault::OtherSession { .. }) => Ok(None),
            Err(SnapFault::WantOfMemory) => Err(WantOfMemory),
        }
    }

    fn of_plain(&self, plain: &PlainWorld) -> Result<SessionWorld, WantOfMemory>
        requires valid { Valid (field_counts (checked_tree self.now.program)) (world_record plain.now) }
        requires session { (world_record plain.now).id ≡ self.now.id }
        ensures { IfOk result (λ w. w ≡ quiet_world self.now (world_record plain.now)) }
    {
        let program = self.program.clone()?;
        let world = World::from_plain(self.alloc, program.clone()?, plain)?;
        Ok(SessionWorld {
            alloc: self.alloc,
            program,
            id: self.id,
            world,
        })
    }

    /// Handles an entry of the log, as [`World::external`] does.
    pub(crate) fn external(&mut self, entry: &Entry) -> Result<(), WorldFault>
        requires { entry.now.time < time_limit }
        ensures { GoesOn result self.old self.new (nat_le entry.now.time self.old.world.time)
            ((own_worlds self.old).external self.old.world entry.now)
            ((own_worlds self.old).external_out self.old.world entry.now self.old.out) }
    {
        self.world.external(entry)
    }

    /// Advances to a time, as [`World::advance`] does.
    pub(crate) fn advance(&mut self, time: u64) -> Result<(), WorldFault>
        requires { time < time_limit }
        ensures { GoesOn result self.old self.new (nat_lt time self.old.world.time)
            ((own_worlds self.old).advance self.old.world time)
            ((own_worlds self.old).advance_out self.old.world time self.old.out) }
    {
        self.world.advance(time)
    }

    /// The world as plain data.
    pub(crate) fn to_plain(&self) -> Result<PlainWorld, WorldFault>
        ensures copy { CopiesWorld result self.now }
        ensures valid { IfOk result (λ plain.
            Valid (field_counts (checked_tree self.now.program)) (world_record plain)) }
    {
        self.world.to_plain()
    }

    /// The snapshot of the world.
    pub(crate) fn snap(&self) -> Result<Blob, WorldFault>
        ensures { Snaps result self.now }
    {
        let plain = self.world.to_plain()?;
        Ok(snapshot(self.alloc, &plain)?)
    }

    /// What models published since the list was last taken.
    pub(crate) fn take_out(&mut self) -> Published
        ensures published { map plain_outgoing result ≡ self.old.out }
        ensures rest { self.new ≡ record (self.old) { out = [] } }
    {
        self.world.take_out()
    }

    /// The world's time, which of a broken one is 0.
    pub(crate) fn time(&self) -> u64
        ensures time { result ≡ self.now.world.time }
        ensures timely { result < time_limit }
        ensures sound { IsSoundSessionWorld self.now }
    {
        if self.world.broken() {
            return 0;
        }
        self.world.time()
    }

    /// Whether want of memory broke it.
    pub(crate) fn broken(&self) -> bool
        ensures broken { result ≡ self.now.broken }
        ensures sound { IsSoundSessionWorld self.now }
    {
        self.world.broken()
    }

    /// Its session.
    pub(crate) fn id(&self) -> SessionId
        ensures { result.0 ≡ self.now.id }
    {
        self.id
    }
}
