//! The worlds after the first entries of a log, and that no moment depends on the keyframes.
ghost use Rattle.std.specs.Prelude.{◌≡◌, ◌≤◌, ℕ, drop};
ghost use Rattle.tea_base.specs.Legal.{TimesRiseAfter};
ghost use Rattle.tea_base.specs.Readings.{count_until};
ghost use Rattle.model_solved.specs.Founding.{checked_tree, founding_of};
ghost use Rattle.model_solved.specs.Methods.{field_counts};
ghost use Rattle.world_plain.specs.Valid.{Valid};
ghost use Rattle.world.specs.Worlds.{advance, replay, take_up};
ghost use Rattle.time_line.specs.Keyframes.{LineView, IsSoundLine, moment, world_after};

use world::{external_keeps_valid, first_world_is_valid, replay_folds};

/// The world after the first entries of a log is valid, its time is not above one that all of these have reached, and the
/// entries that follow are later. The replay of a log to a time is the world after its entries until then, advanced to it.
pub(crate) fn worlds_after()
    ensures valid { (line : LineView) (n : ℕ) → IsSoundLine line
        → Valid (field_counts (checked_tree line.program)) (world_after line n) }
    ensures early { (line : LineView) (n t : ℕ) → IsSoundLine line → n ≤ count_until line.entries t
        → (world_after line n).time ≤ t }
    ensures rises { (line : LineView) (n : ℕ) → IsSoundLine line
        → TimesRiseAfter (world_after line n).time (drop n line.entries) }
    ensures replays { (line : LineView) (t : ℕ) → IsSoundLine line →
        (replay (founding_of line.program) line.id line.entries t).world
        ≡ (advance (checked_tree line.program) t (take_up (world_after line (count_until line.entries t)))).world }
{
    first_world_is_valid();
    external_keeps_valid();
    replay_folds();
}

/// Two time lines of one program, one session and one log give one world of a time, whatever worlds each of them keeps.
pub fn one_moment()
    ensures { (line other : LineView) (t : ℕ) → other.program ≡ line.program → other.id ≡ line.id
        → other.entries ≡ line.entries → moment other t ≡ moment line t }
{}
