//! What the steps of a recorded session come to.
ghost use Rattle.std.specs.Prelude.{◌≡◌, ℕ, nat_le, List};
ghost use Rattle.std.specs.List.{filter};
ghost use Rattle.tea_base.specs.Legal.{IsLegal};
ghost use Rattle.tea_base.specs.declared.entry.Entry.{Entry};
ghost use Rattle.world.specs.Worlds.{Founding, IsFounding, at_later_time, replay};
ghost use Rattle.world.specs.Turns.{begun};
ghost use Rattle.command_trace.specs.Steps.{AreChained, entries_in, left_by, steps};

/// The steps up to a time are those of the replay to it. Each begins in the world that the one before it left, and their entries are those
/// of the log up to the time. The world that the last of them left, once it has come to the time, is that of the replay: so no message that a
/// replay runs is left out.
pub fn steps_replay()
    ensures chained { (founding : Founding) (id : List ℕ) (entries : List Entry) (t : ℕ) → IsFounding founding
        → IsLegal entries → AreChained (begun founding id).world (steps founding id entries t) }
    ensures entries { (founding : Founding) (id : List ℕ) (entries : List Entry) (t : ℕ)
        → entries_in (steps founding id entries t) ≡ filter (λ (e : Entry). nat_le e.time t) entries }
    ensures replays { (founding : Founding) (id : List ℕ) (entries : List Entry) (t : ℕ) → IsFounding founding
        → IsLegal entries → at_later_time t (left_by (begun founding id).world (steps founding id entries t))
        ≡ (replay founding id entries t).world }
{}
