//! What holds of claims, and that threads may share them.
ghost use Rattle.std.specs.Prelude.{◌≤◌, ℕ, List, length, Option};
ghost use Rattle.std.specs.Thread.{IsSend, IsSync};
ghost use Rattle.tea_base.specs.declared.entry.SessionId.{SessionId};
ghost use Rattle.id_claims.specs.Ids.{Begins, HasPlace, most_ids};
ghost use Rattle.id_claims.specs.contracts.claims.ClaimPass as pass;
ghost use Rattle.id_claims.specs.contracts.claims.Claims as claims;

/// What a claim was answered stays right while the list grows: the id keeps its place, or has none for good.
pub fn place_stays()
    ensures { (seen ids : List SessionId) (id : SessionId) (place : Option ℕ) → HasPlace seen id place → Begins seen ids
        → length ids ≤ most_ids → HasPlace ids id place }
{}

/// A pass may move to another thread.
pub fn pass_crosses_threads()
    ensures { IsSend pass.the_row }
{}

/// Claims may be shared by threads.
pub fn claims_cross_threads()
    ensures { IsSync claims.the_row }
{}
