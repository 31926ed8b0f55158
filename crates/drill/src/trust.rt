//! Which snapshots the session of a drill keeps.
use model_solved::Checked;
use session_lock::Trust;
use std::alloc::Global;
use std::sync::Arc;

/// It allows the snapshot of the replay of the log to a time that is at most the horizon.
#[derive(Drop)]
pub struct TrustReplay {
    pub program: Arc<Checked, Global>,
}

impl Trust for TrustReplay {
    ghost use Rattle.std.specs.Arc.{arc_value};
    ghost use Rattle.model_solved.specs.Founding.{founding_of};
    ghost use Rattle.drill.specs.Trust.{AllowsReplay};
    ghost use Rattle.drill.specs.Replays.{allows_stays};

    ghost allows = { λ trust id log horizon time bytes.
        AllowsReplay (founding_of (arc_value trust.program)) id.0 log horizon time bytes };

    ghost stays = { λ trust id s request time bytes sound after allowed.
        allows_stays (founding_of (arc_value trust.program)) id.0 s request time bytes allowed };
}
