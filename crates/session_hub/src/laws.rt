//! What holds of each list of calls.
ghost use Rattle.std.specs.Prelude.{ℕ, List, []};
ghost use Rattle.session_hub.specs.Isolation.{AreCallsFrom, HubCall, IsApart};

/// Of the calls on one id, those that were answered neither `HubFull` nor by want of memory have the replies that its session gives
/// alone, from the first session on. Calls on other ids between them change nothing.
pub fn sessions_are_apart()
    ensures { (id : List ℕ) (calls : List HubCall) → AreCallsFrom [] calls → IsApart id calls }
{}
