//! The laws of TeaTime: how a world advances, and how one that was put away goes on.
ghost use Rattle.std.specs.Prelude.{◌≡◌, ◌≤◌, ◌<◌, ℕ, nat_le, true, List, None};
ghost use Rattle.std.specs.List.{fold, filter};
ghost use Rattle.std.specs.Thread.{IsSend};
ghost use Rattle.tea_base.specs.Legal.{IsLegal};
ghost use Rattle.tea_base.specs.declared.entry.Entry.{Entry};
ghost use Rattle.tea_base.specs.declared.entry.What.{What};
ghost use Rattle.world_plain.specs.World.{WorldRecord};
ghost use Rattle.world_plain.specs.Valid.{Valid};
ghost use Rattle.tea_base.specs.Limits.{time_limit};
ghost use Rattle.model_tree.specs.Tree.{ProgramTree};
ghost use Rattle.model_tree.specs.Program.{IsProgram};
ghost use Rattle.world.specs.Worlds.{Scene, Founding, IsFounding, field_counts, scene_with_world, first_scene, at_later_time, advance, due, on_due, external, replay, take_up, replay_on};
ghost use Rattle.world.specs.Turns.{next_ran, after_turn, after_turns, begun, first_ran, after_first, heard_of, TellsHeard};
ghost use Rattle.world.specs.View.{are_behind, is_at_rest};
ghost use Rattle.world.specs.contracts.world.World as world;

use model_solved::checked_crosses_threads;

/// The first world of a session is valid, of that session, and at time 0.
pub fn first_world_is_valid()
    ensures valid { (founding : Founding) (id : List ℕ) → IsFounding founding
        → Valid (field_counts founding.tree) (first_scene founding id).world }
    ensures session { (founding : Founding) (id : List ℕ) → IsFounding founding
        → (first_scene founding id).world.id ≡ id }
    ensures time { (founding : Founding) (id : List ℕ) → IsFounding founding
        → (first_scene founding id).world.time ≡ 0 }
{}

/// To advance to s and then to a later t is to advance to t.
pub fn advance_twice()
    ensures { (program : ProgramTree) (s t : ℕ) (a : Scene) → IsProgram program → Valid (field_counts program) a.world
        → s ≤ t → s < time_limit → advance program t (advance program s a) ≡ advance program t a }
{}

/// To advance is to run the least message if it is due and to advance from there, and else to arrive.
pub fn advance_steps()
    ensures { (program : ProgramTree) (t : ℕ) (a : Scene) → IsProgram program → Valid (field_counts program) a.world
        → advance program t a ≡ on_due program t (advance program t) (due t a.world.pending) a }
{}

/// One turn after the other, until none is due up to t, and then an arrival at t are the advance to t.
pub fn turns_advance()
    ensures arrive { (program : ProgramTree) (t : ℕ) (a : Scene) → IsProgram program
        → Valid (field_counts program) a.world →
        (n : ℕ) × (next_ran t (after_turns program t n a).world ≡ None)
        × (advance program t a ≡ scene_with_world (after_turns program t n a)
        (at_later_time t (after_turns program t n a).world)) }
    ensures goes_on { (program : ProgramTree) (t : ℕ) (a : Scene) → IsProgram program
        → Valid (field_counts program) a.world → advance program t (after_turn program t a) ≡ advance program t a }
    ensures rests { (program : ProgramTree) (t : ℕ) (a : Scene) → IsProgram program
        → Valid (field_counts program) a.world → next_ran t a.world ≡ None
        → advance program t a ≡ scene_with_world a (at_later_time t a.world) }
    ensures early { (program : ProgramTree) (t : ℕ) (a : Scene) → IsProgram program → a.world.time ≤ t
        → (after_turn program t a).world.time ≤ t }
{}

/// A session begins with the message that is told as its first, if there is one.
pub fn first_message_opens()
    ensures { (founding : Founding) (id : List ℕ)
        → first_scene founding id ≡ after_first founding.tree (first_ran founding) (begun founding id) }
{}

/// Models are told of an entry just the event that is said to be heard, by the handlers that are subscribed as it comes. Where none is
/// said to be heard, the entry changes nothing but counts of faults.
pub fn entry_tells_what_is_heard()
    ensures { (program : ProgramTree) (what : What) (view : ℕ) (s : Scene)
        → TellsHeard program what view s (heard_of s.world view what) }
{}

/// A world that advanced to t is at rest there: each pending message lies behind t, which is its time. It is valid, and of
/// the same session.
pub fn advance_rests()
    ensures rests { (program : ProgramTree) (t : ℕ) (a : Scene) → IsProgram program
        → Valid (field_counts program) a.world → t < time_limit → are_behind t (advance program t a).world.pending
        ≡ true }
    ensures arrives { (program : ProgramTree) (t : ℕ) (a : Scene) → IsProgram program
        → Valid (field_counts program) a.world → a.world.time ≤ t → (advance program t a).world.time ≡ t }
    ensures valid { (program : ProgramTree) (t : ℕ) (a : Scene) → IsProgram program
        → Valid (field_counts program) a.world → t < time_limit
        → Valid (field_counts program) (advance program t a).world }
    ensures session { (program : ProgramTree) (t : ℕ) (a : Scene) → IsProgram program
        → (advance program t a).world.id ≡ a.world.id }
{}

/// A world that is at rest at its time is not changed by an advance to that time.
pub fn at_rest_stays()
    ensures { (program : ProgramTree) (a : Scene) → IsProgram program → Valid (field_counts program) a.world
        → is_at_rest a.world ≡ true → advance program a.world.time a ≡ a }
{}

/// An entry leaves a valid world of the same session, at the entry's time.
pub fn external_keeps_valid()
    ensures valid { (program : ProgramTree) (e : Entry) (a : Scene) → IsProgram program
        → Valid (field_counts program) a.world → e.time < time_limit
        → Valid (field_counts program) (external program e a).world }
    ensures session { (program : ProgramTree) (e : Entry) (a : Scene) → IsProgram program
        → (external program e a).world.id ≡ a.world.id }
    ensures time { (program : ProgramTree) (e : Entry) (a : Scene) → IsProgram program
        → Valid (field_counts program) a.world → a.world.time ≤ e.time → (external program e a).world.time ≡ e.time }
{}

/// An entry that comes after an advance to a time up to its own does what it does without that advance.
pub fn external_after()
    ensures { (program : ProgramTree) (s : ℕ) (e : Entry) (a : Scene) → IsProgram program
        → Valid (field_counts program) a.world → s ≤ e.time → s < time_limit
        → external program e (advance program s a) ≡ external program e a }
{}

/// Which world an advance or an entry leaves follows from the world before it, and not from what was published until then.
pub fn world_decides()
    ensures advance { (program : ProgramTree) (t : ℕ) (a : Scene)
        → (advance program t a).world ≡ (advance program t (take_up a.world)).world }
    ensures external { (program : ProgramTree) (e : Entry) (a : Scene)
        → (external program e a).world ≡ (external program e (take_up a.world)).world }
{}

/// The replay of a log to t is what the first world comes to by the entries with a time of at most t, one after the other,
/// and then by an advance to t. Its world is the same where the world is taken up anew before each of these steps.
pub fn replay_folds()
    ensures scene { (founding : Founding) (id : List ℕ) (entries : List Entry) (t : ℕ) →
        replay founding id entries t
        ≡ advance founding.tree t (fold (λ (a : Scene) (e : Entry). external founding.tree e a)
        (first_scene founding id) (filter (λ (e : Entry). nat_le e.time t) entries)) }
    ensures world { (founding : Founding) (id : List ℕ) (entries : List Entry) (t : ℕ) →
        (replay founding id entries t).world
        ≡ (advance founding.tree t (take_up
        (fold (λ (w : WorldRecord) (e : Entry). (external founding.tree e (take_up w)).world)
        (first_scene founding id).world (filter (λ (e : Entry). nat_le e.time t) entries)))).world }
{}

/// A world that is taken up and goes on to t is a valid world of its session at t, whether it follows the log or not.
pub fn resumed_world_is_valid()
    ensures valid { (program : ProgramTree) (w : WorldRecord) (entries : List Entry) (t : ℕ) → IsProgram program
        → Valid (field_counts program) w → IsLegal entries → w.time ≤ t → t < time_limit
        → Valid (field_counts program) (replay_on program w entries t).world }
    ensures session { (program : ProgramTree) (w : WorldRecord) (entries : List Entry) (t : ℕ) → IsProgram program
        → Valid (field_counts program) w → IsLegal entries → w.time ≤ t → t < time_limit
        → (replay_on program w entries t).world.id ≡ w.id }
    ensures time { (program : ProgramTree) (w : WorldRecord) (entries : List Entry) (t : ℕ) → IsProgram program
        → Valid (field_counts program) w → IsLegal entries → w.time ≤ t → t < time_limit
        → (replay_on program w entries t).world.time ≡ t }
{}

/// The replay of a log to t is a valid world of its session at t. Where it is put away and taken up there, it stays as it is.
pub fn replay_rests()
    ensures valid { (founding : Founding) (id : List ℕ) (entries : List Entry) (t : ℕ) → IsFounding founding
        → IsLegal entries → t < time_limit → Valid (field_counts founding.tree) (replay founding id entries t).world }
    ensures session { (founding : Founding) (id : List ℕ) (entries : List Entry) (t : ℕ) → IsFounding founding
        → IsLegal entries → t < time_limit → (replay founding id entries t).world.id ≡ id }
    ensures time { (founding : Founding) (id : List ℕ) (entries : List Entry) (t : ℕ) → IsFounding founding
        → IsLegal entries → t < time_limit → (replay founding id entries t).world.time ≡ t }
    ensures stays { (founding : Founding) (id : List ℕ) (entries : List Entry) (t : ℕ) → IsFounding founding
        → IsLegal entries → t < time_limit
        → (advance founding.tree t (take_up (replay founding id entries t).world)).world
        ≡ (replay founding id entries t).world }
{}

/// A world may go to another thread.
pub fn world_crosses_threads()
    ensures { IsSend world.the_row }
{
    checked_crosses_threads();
}
