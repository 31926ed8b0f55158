//! Worlds.
ghost use Rattle.std.specs.Prelude.{◌≡◌, ◌<◌, [], map, nat_lt, nat_le, IfOk, OnOk, false};
ghost use Rattle.std.specs.Arc.{arc_value};
ghost use Rattle.std.specs.Option.{option_map};
ghost use Rattle.world_plain.specs.Messages.{plain_outgoing};
ghost use Rattle.world_plain.specs.Valid.{Valid};
ghost use Rattle.tea_base.specs.Limits.{time_limit};
ghost use Rattle.world_plain.specs.World.{world_record};
ghost use Rattle.model_solved.specs.Founding.{checked_tree, founding_of};
ghost use Rattle.world.specs.Worlds.{field_counts, first_scene as first_of, advance as advanced, external as entered_by, take_up};
ghost use Rattle.world.specs.Turns.{first_ran, next_ran, after_turn, heard_of};
ghost use Rattle.world.specs.View.{MovesOn, Copies, IsSoundWorld, done, plain_ran};

use crate::fault::WorldFault;
use crate::told::{HeardEvent, RanMessage};
use crate::{opening, resuming, simulation, turns};
use model_solved::Checked;
use std::alloc::Global;
use std::marker::Model;
use std::mem;
use std::sync::Arc;
use tea_base::{Entry, List, SessionId, WantOfMemory};
use world_plain::{PlainWorld, Published};
use world_state::State;

/// A world of a session: what its models hold at a TeaTime.
///
/// All who hold the same program, begin with [`first`](World::first) and handle the same entries of one session have the
/// same world, and so has who takes up the plain data of such a world and handles the entries behind its time. A world
/// that wanted memory while it went on is broken from then on: it answers `Broken`, and its published list is empty.
#[derive(Drop)]
pub struct World {
    alloc: Global,
    program: Arc<Checked, Global>,
    state: State,
    broken: bool,
}

impl Model for World {
    ghost use Rattle.std.specs.Arc.{arc_value};
    ghost use Rattle.std.specs.Coded.{codes};
    ghost use Rattle.model_tree.specs.contracts.tree.Stmt as stmt;
    ghost use Rattle.model_solved.specs.Founding.{coded_checked};
    ghost use Rattle.world.specs.View.{WorldView, coded_view, scene, IsSoundWorld};

    ghost Value = { WorldView };

    ghost coded = { coded_view (coded_checked (Prim.hlevel (codes, stmt.the_row.coded))) };

    ghost view = { λ w. record { program = arc_value w.program; scene = scene w.state; broken = w.broken } };

    ghost invariant = { λ w. IsSoundWorld (record {
      program = arc_value w.program;
      scene = scene w.state;
      broken = w.broken;
    }) };
}

impl World {
    /// The first world of a session: at time 0, one message makes an object of the class Root, known as `modelRoot`, and
    /// starts its `init` with nil, if it has one; an `init` with two parameters gets the persisted value of the program too. That
    /// value is the saved one of the world.
    pub fn first(
        alloc: Global,
        program: Arc<Checked, Global>,
        id: SessionId,
    ) -> Result<World, WantOfMemory>
        ensures first { IfOk result (λ w. w ≡ record {
          program = arc_value program;
          scene = first_of (founding_of (arc_value program)) id.0;
          broken = false;
        }) }
        ensures begins { IfOk result (λ w. w.scene.world.time ≡ 0) }
    {
        let state = opening::first(alloc, &program, id)?;
        Ok(World {
            alloc,
            program,
            state,
            broken: false,
        })
    }

    /// The world that plain data tells, on which nothing was published yet. The data has to be valid for the program, as what
    /// `to_plain` gives of a world of this program is. Fails for want of memory alone.
    pub fn from_plain(
        alloc: Global,
        program: Arc<Checked, Global>,
        plain: &PlainWorld,
    ) -> Result<World, WantOfMemory>
        requires { Valid (field_counts (checked_tree (arc_value program))) (world_record plain.now) }
        ensures { IfOk result (λ w. w ≡ record {
          program = arc_value program;
          scene = take_up (world_record plain.now);
          broken = false;
        }) }
    {
        let state = resuming::from_plain(alloc, plain)?;
        // The classes and the persisted value tell what a world wants of its program.
        let _classes = program.program().classes(); // for the prover
        let _persisted = program.persisted(); // for the prover
        Ok(World {
            alloc,
            program,
            state,
            broken: false,
        })
    }

    /// Advances to a time: the messages that are due run, and the time becomes this one. The time is in microseconds of
    /// TeaTime, below 2^53.
    ///
    /// # Errors
    ///
    /// `Broken` exactly where the world is broken, then `Back` exactly where the time is below the world's; both change
    /// nothing. Want of memory breaks the world.
    pub fn advance(&mut self, time: u64) -> Result<(), WorldFault>
        requires { time < time_limit }
        ensures moves { MovesOn result self.old self.new (nat_lt time self.old.scene.world.time)
            (advanced (checked_tree self.old.program) time self.old.scene) }
        ensures arrives { OnOk result (self.new.scene.world.time ≡ time) }
    {
        if self.broken {
            return Err(WorldFault::Broken);
        }
        if time < self.state.time {
            return Err(WorldFault::Back {
                time: self.state.time,
            });
        }
        match simulation::advance(self.alloc, &self.program, &mut self.state, time) {
            Ok(()) => Ok(()),
            Err(WantOfMemory) => {
                self.broken = true;
                self.state.published = List::new(self.alloc);
                Err(WorldFault::WantOfMemory)
            }
        }
    }

    /// Handles an entry of the log: the world advances to its time, and then one message handles it. A Join adds its view,
    /// where that is not here, and an Exit takes it away, where it is here; models that are subscribed to `view-join` or
    /// `view-exit` in the scope `sessionId()` are told of the view's number. An Event is told to the models that are
    /// subscribed to its scope and its name, with its value; one whose payload cannot be read is counted. The entry's
    /// time is in microseconds of TeaTime, below 2^53.
    ///
    /// # Errors
    ///
    /// `Broken` exactly where the world is broken, then `Back` exactly where the entry's time is not above the world's;
    /// both change nothing. Want of memory breaks the world.
    pub fn external(&mut self, entry: &Entry) -> Result<(), WorldFault>
        requires { entry.now.time < time_limit }
        ensures moves { MovesOn result self.old self.new (nat_le entry.now.time self.old.scene.world.time)
            (entered_by (checked_tree self.old.program) entry.now self.old.scene) }
        ensures arrives { OnOk result (self.new.scene.world.time ≡ entry.now.time) }
    {
        if self.broken {
            return Err(WorldFault::Broken);
        }
        if entry.time <= self.state.time {
            return Err(WorldFault::Back {
                time: self.state.time,
            });
        }
        match simulation::external(self.alloc, &self.program, &mut self.state, entry) {
            Ok(()) => Ok(()),
            Err(WantOfMemory) => {
                self.broken = true;
                self.state.published = List::new(self.alloc);
                Err(WorldFault::WantOfMemory)
            }
        }
    }

    /// The message with which each session of a program begins, if there is one: the `init` that `first` starts. Fails for want of
    /// memory alone.
    pub fn first_message(
        alloc: Global,
        program: &Checked,
    ) -> Result<Option<RanMessage>, WantOfMemory>
        ensures { IfOk result (λ ran. option_map plain_ran ran ≡ first_ran (founding_of program.now)) }
    {
        opening::first_message(alloc, program)
    }

    /// Runs the message that is due first, if one is due up to a time, and tells which it was. The world's time becomes the
    /// message's. Turns until none is due, and then an advance to that time, are the advance to it.
    ///
    /// # Errors
    ///
    /// `Broken` exactly where the world is broken, which changes nothing. Want of memory breaks the world. `Back` never comes: a
    /// message is not due before the world's time.
    pub fn turn(&mut self, until: u64) -> Result<Option<RanMessage>, WorldFault>
        ensures moves { MovesOn (done result) self.old self.new false
            (after_turn (checked_tree self.old.program) until self.old.scene) }
        ensures told { IfOk result (λ ran. option_map plain_ran ran ≡ next_ran until self.old.scene.world) }
        ensures sound { IsSoundWorld self.new }
    {
        if self.broken {
            return Err(WorldFault::Broken);
        }
        match turns::turn(self.alloc, &self.program, &mut self.state, until) {
            Ok(ran) => Ok(ran),
            Err(WantOfMemory) => {
                self.broken = true;
                self.state.published = List::new(self.alloc);
                Err(WorldFault::WantOfMemory)
            }
        }
    }

    /// Handles an entry of the log as `external` does, and tells which event models heard of it, if they heard of any. Other than
    /// there it may be of the world's own time, where turns came to that.
    ///
    /// # Errors
    ///
    /// `Broken` exactly where the world is broken, then `Back` exactly where the entry's time is below the world's; both
    /// change nothing. Want of memory breaks the world.
    pub fn enter(&mut self, entry: &Entry) -> Result<Option<HeardEvent>, WorldFault>
        requires { entry.now.time < time_limit }
        ensures moves { MovesOn (done result) self.old self.new (nat_lt entry.now.time self.old.scene.world.time)
            (entered_by (checked_tree self.old.program) entry.now self.old.scene) }
        ensures arrives { OnOk result (self.new.scene.world.time ≡ entry.now.time) }
        ensures told { IfOk result (λ heard. heard
            ≡ heard_of (advanced (checked_tree self.old.program) entry.now.time self.old.scene).world entry.now.view
            entry.now.what) }
    {
        if self.broken {
            return Err(WorldFault::Broken);
        }
        if entry.time < self.state.time {
            return Err(WorldFault::Back {
                time: self.state.time,
            });
        }
        match turns::enter(self.alloc, &self.program, &mut self.state, entry) {
            Ok(heard) => Ok(heard),
            Err(WantOfMemory) => {
                self.broken = true;
                self.state.published = List::new(self.alloc);
                Err(WorldFault::WantOfMemory)
            }
        }
    }

    /// The world as plain data.
    ///
    /// # Errors
    ///
    /// `Broken` exactly where the world is broken. Want of memory changes nothing.
    pub fn to_plain(&self) -> Result<PlainWorld, WorldFault>
        ensures copy { Copies result self.now }
        ensures valid { IfOk result (λ plain.
            Valid (field_counts (checked_tree self.now.program)) (world_record plain)) }
    {
        if self.broken {
            return Err(WorldFault::Broken);
        }
        Ok(self.state.to_plain(self.alloc)?)
    }

    /// What models published since the list was last taken. Takes no memory.
    pub fn take_out(&mut self) -> Published
        ensures published { map plain_outgoing result ≡ self.old.scene.published }
        ensures rest { self.new ≡ record (self.old) { scene = record (self.old.scene) { published = [] } } }
        ensures sound { IsSoundWorld self.new }
    {
        mem::replace(&mut self.state.published, List::new(self.alloc))
    }

    /// The world's time, in microseconds of TeaTime. Takes no memory.
    pub fn time(&self) -> u64
        ensures time { result ≡ self.now.scene.world.time }
        ensures sound { IsSoundWorld self.now }
    {
        self.state.time
    }

    /// How often each kind of fault ended a message, and last how many events could not be read. A message that ends with a fault
    /// raises one of these counts by 1, up to 2^64 - 1. Takes no memory.
    pub fn faults(&self) -> [u64; 14]
        ensures faults { result ≡ self.now.scene.world.faults }
        ensures sound { IsSoundWorld self.now }
    {
        self.state.faults
    }

    /// Whether the world is broken. Takes no memory.
    pub fn broken(&self) -> bool
        ensures broken { result ≡ self.now.broken }
        ensures sound { IsSoundWorld self.now }
    {
        self.broken
    }
}
