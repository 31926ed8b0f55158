//! Time lines.
ghost use Rattle.std.specs.Prelude.{◌≡◌, ◌<◌, ◌≤◌, ◌+◌, ◌%◌, IfOk, OnOk};
ghost use Rattle.std.specs.Arc.{arc_value};
ghost use Rattle.tea_base.specs.Limits.{time_limit};
ghost use Rattle.tea_base.specs.Readings.{count_until};
ghost use Rattle.time_line.specs.Keyframes.{IsSoundLine, frames_of, moment};
ghost use Rattle.time_line.specs.Answer.{Makes};

use crate::fault::LineFault;
use crate::frames::keyframes;
use crate::laws::worlds_after;
use crate::running::{arrive, enter_all};
use message_queue::Steps;
use model_solved::Checked;
use session_log::Log;
use std::alloc::Global;
use std::marker::Model;
use std::sync::Arc;
use std::sync::ledger::Ledger;
use tea_base::{SessionId, WantOfMemory};
use world::World;
use world_plain::PlainWorld;

/// The greatest number of a keyframe.
const MOST_FRAMES: u32 = 128;

/// A recorded session, of which any moment is made from a world shortly before it. Contracts see its program, the session's
/// id, the entries of its log, and after how many entries each it keeps a world.
///
/// It keeps the first world and at most 128 more, each as plain data. A world at its limits takes some megabytes, so a time
/// line may take some hundred.
#[derive(Drop)]
pub struct TimeLine {
    alloc: Global,
    program: Arc<Checked, Global>,
    id: SessionId,
    log: Log,
    every: u32,
    keyframes: Vec<PlainWorld>,
}

impl Model for TimeLine {
    ghost use Rattle.std.specs.Prelude.{map};
    ghost use Rattle.std.specs.Arc.{arc_value};
    ghost use Rattle.std.specs.Coded.{codes};
    ghost use Rattle.model_tree.specs.contracts.tree.Stmt as stmt;
    ghost use Rattle.model_solved.specs.Founding.{coded_checked};
    ghost use Rattle.world_plain.specs.World.{world_record};
    ghost use Rattle.time_line.specs.Keyframes.{LineView, KeepsKeyframes};

    ghost Value = { LineView };

    ghost coded = { Prim.hlevel (codes, coded_checked (Prim.hlevel (codes, stmt.the_row.coded))) };

    ghost view = { λ l. record {
      program = arc_value l.program;
      id = l.id.0;
      entries = l.log.entries;
      every = l.every;
    } };

    ghost invariant = { λ l. KeepsKeyframes (record {
      program = arc_value l.program;
      id = l.id.0;
      entries = l.log.entries;
      every = l.every;
    }) (map world_record l.keyframes.items) };
}

impl TimeLine {
    /// The time line of a recorded session that keeps the world after each `every` entries. Making it takes as long as a
    /// replay of the whole log.
    ///
    /// # Errors
    ///
    /// `TooMany` exactly where the number of the last keyframe would be above 128, with that number: the length of the log,
    /// divided by `every` and rounded down. It is looked for before any memory is taken.
    pub fn new(
        alloc: Global,
        program: Arc<Checked, Global>,
        id: SessionId,
        log: Log,
        every: u32,
    ) -> Result<TimeLine, LineFault>
        requires { 1 ≤ every }
        ensures { Makes result (record {
          program = arc_value program;
          id = id.0;
          entries = log.entries;
          every = every;
        }) }
    {
        let frames = log.len() / every;
        if frames > MOST_FRAMES {
            return Err(LineFault::TooMany { frames });
        }
        let keyframes = keyframes(alloc, &program, id, &log, every)?;
        Ok(TimeLine {
            alloc,
            program,
            id,
            log,
            every,
            keyframes,
        })
    }

    /// The world of a time, in microseconds of TeaTime, below 2^53: what the replay of the log to that time comes to.
    /// Nothing is published on it, and it is not broken.
    ///
    /// It begins at the last keyframe whose entries all have a time of at most this one, and counts a step for each entry
    /// that it handles. So it counts fewer than `every` steps, also where it runs out of memory.
    pub fn at<L: Ledger>(&self, time: u64, steps: &mut Steps<L>) -> Result<World, WantOfMemory>
        requires { time < time_limit }
        ensures world { IfOk result (λ world. world ≡ moment self.now time) }
        ensures counts { OnOk result (steps.new ≡ steps.old + count_until self.now.entries time % self.now.every) }
        ensures few { (steps.old ≤ steps.new) × (steps.new < steps.old + self.now.every) }
    {
        worlds_after(); // for the prover
        let count = self.log.count_until(time);
        let frame = count / self.every;
        let program = self.program.clone()?;
        let mut world = World::from_plain(self.alloc, program, &self.keyframes[frame as usize])?;
        enter_all(&mut world, &self.log, frame * self.every, count, steps)?;
        arrive(&mut world, time)?;
        Ok(world)
    }

    /// The program of the session. Takes no memory.
    pub fn program(&self) -> &Checked
        ensures { result.now ≡ self.now.program }
    {
        &self.program
    }

    /// The number of the last keyframe, where the first world has the number 0. Takes no memory.
    pub fn frames(&self) -> u32
        ensures frames { result ≡ frames_of self.now }
        ensures sound { IsSoundLine self.now }
    {
        self.log.len() / self.every
    }
}
