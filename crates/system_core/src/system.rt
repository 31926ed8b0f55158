//! Systems.
ghost use Rattle.std.specs.Prelude.{◌≡◌, false, IfOk};
ghost use Rattle.std.specs.Arc.{arc_value};
ghost use Rattle.std.specs.Option.{option_copied};
ghost use Rattle.model_solved.specs.Founding.{founding_of, IsFounding};
ghost use Rattle.system_core.specs.Schedules.{IsInBounds, plain_system_step};
ghost use Rattle.system_core.specs.Systems.{IsReplicaOf, Steps, first_view};

use crate::parts::Parts;
use crate::step::{ScheduleStep, StepFault};
use model_solved::Checked;
use reflector_core::Session;
use replica::Replica;
use std::alloc::Global;
use std::marker::Model;
use std::sync::Arc;
use tea_base::{SessionId, WantOfMemory};

/// A session, the replicas of its views and the connections between them, as one thing that takes steps.
///
/// The connections are numbered from 0, in the order in which they were made. Only the newest one of a view is read. Want of
/// memory spoils a system: what it holds is not known from then on, and it takes no further step.
#[derive(Drop)]
pub struct System {
    parts: Parts,
    spoilt: bool,
}

impl Model for System {
    ghost use Rattle.std.specs.Coded.{codes};
    ghost use Rattle.std.specs.Prelude.{◌≡◌, false};
    ghost use Rattle.model_tree.specs.contracts.tree.Stmt as stmt;
    ghost use Rattle.model_solved.specs.Founding.{coded_checked};
    ghost use Rattle.world_plain.specs.Messages.{coded_outgoing};
    ghost use Rattle.world_plain.specs.WorldCode.{coded_world};
    ghost use Rattle.system_core.specs.Parts.{IsSound};
    ghost use Rattle.system_core.specs.Systems.{SystemView, system_view};

    ghost Value = { SystemView };

    ghost coded = { Prim.hlevel (
      codes,
      coded_checked (Prim.hlevel (codes, stmt.the_row.coded)),
      coded_world,
      coded_outgoing,
    ) };

    ghost view = { λ s. system_view s.parts s.spoilt };

    ghost invariant = { λ s. s.spoilt ≡ false → IsSound s.parts };
}

/// Tells what is so of every program that was checked.
pub(crate) fn tell_program(program: &Arc<Checked, Global>)
    ensures { IsFounding (founding_of (arc_value program.now)) }
{
    let _classes = program.program().classes();
    let _persisted = program.persisted();
}

impl System {
    /// The first system of a program and a session: an empty log, no view and no connection.
    pub fn first(
        alloc: Global,
        program: Arc<Checked, Global>,
        id: SessionId,
    ) -> Result<System, WantOfMemory>
        ensures { IfOk result (λ s. s ≡ first_view (arc_value program) id.0) }
    {
        tell_program(&program); // for the prover
        let parts = Parts {
            alloc,
            program,
            id,
            session: Session::new(alloc),
            members: Vec::new(alloc),
            connections: Vec::new(alloc),
        };
        Ok(System {
            parts,
            spoilt: false,
        })
    }

    /// Takes a step. One that cannot be made changes nothing. The value of a Publish has to be in bounds.
    ///
    /// # Errors
    ///
    /// - `Spoilt` exactly where an earlier step answered `WantOfMemory`. It changes nothing.
    /// - `WantOfMemory`: the system is spoilt from then on.
    pub fn step(&mut self, step: &ScheduleStep) -> Result<(), StepFault>
        requires { IsInBounds step.now }
        ensures { Steps result self.old self.new (plain_system_step step.now) }
    {
        if self.spoilt {
            return Err(StepFault::Spoilt);
        }
        match self.parts.make(step) {
            Ok(()) => Ok(()),
            Err(WantOfMemory) => {
                self.spoilt = true;
                Err(StepFault::WantOfMemory)
            }
        }
    }

    /// The session. Takes no memory.
    pub fn session(&self) -> &Session
        ensures { result.now.plain ≡ self.now.plain.session }
    {
        &self.parts.session
    }

    /// The replica of a view, if it has one. A spoilt system shows none. Takes no memory.
    pub fn replica(&self, view: u32) -> Option<&Replica>
        ensures { IsReplicaOf (option_copied result) self.now view }
    {
        if self.spoilt {
            return None;
        }
        let Some(place) = self.parts.place(view) else {
            return None;
        };
        Some(&self.parts.members[place].replica)
    }
}
