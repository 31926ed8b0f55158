//! What follows for a session that plays a drill.
ghost use Rattle.reflector_core.specs.PlainSession.{IsSoundSession, PlainSession};
ghost use Rattle.drill.specs.declared.size.Size.{Size as DrillSize};
ghost use Rattle.drill.specs.Drill.{HasDrillEntries, PlaysDrill};

use tea_io::Clock;

/// A session that plays a drill is sound, so its log is legal. Its entries are of the drill's views, and its horizon is at most the
/// length of the log beyond 0 or a value that the clock may give.
pub fn drills_are_sound<C: Clock>(clock: &C)
    ensures sound { (size : DrillSize) (s : PlainSession) → PlaysDrill (C.gives clock.now) size s → IsSoundSession s }
    ensures entries { (size : DrillSize) (s : PlainSession) → PlaysDrill (C.gives clock.now) size s
        → HasDrillEntries (C.gives clock.now) size.views s }
{}
