//! What follows from a talk.
ghost use Rattle.std.specs.Prelude.{ℕ, List, [], ◌∷◌, ◌++◌, ◌≡◌};
ghost use Rattle.tea_base.specs.declared.entry.SessionId.{SessionId};
ghost use Rattle.tea_io.specs.declared.link.Heard.{Heard};
ghost use Rattle.reflector_core.specs.PlainSession.{PlainSession};
ghost use Rattle.session_lock.specs.declared.knowledge.Item.{Item};
ghost use Rattle.session_lock.specs.History.{play_from, calls_of, IsSoundThrough};
ghost use Rattle.connection.specs.declared.ending.Ended.{Ended};
ghost use Rattle.connection.specs.Talk.{Talk};
ghost use Rattle.connection.specs.TalkServed.{IsTalkServed, IsToldWithin};

use tea_io::Clock;

/// A talk is served by the log of its history, which is sound at each place, and each TICK that was sent is at most the horizon there. It stays
/// a talk while others go on.
pub fn each_talk_is_served<C: Clock>(clock: &C)
    ensures served { (id : SessionId) (opening : PlainSession) (history : List Item) (caller : ℕ) (heard : List Heard)
        (sent : List (List ℕ)) (how : Ended)
        → IsSoundThrough opening history → Talk (C.gives clock.now) id opening history caller heard sent how
        → IsTalkServed (play_from opening history).log heard sent }
    ensures ticks { (id : SessionId) (opening : PlainSession) (history : List Item) (caller : ℕ) (heard : List Heard)
        (sent : List (List ℕ)) (how : Ended)
        → IsSoundThrough opening history → Talk (C.gives clock.now) id opening history caller heard sent how
        → IsToldWithin (play_from opening history).horizon sent }
    ensures grows { (id : SessionId) (opening : PlainSession) (history more : List Item) (caller : ℕ)
        (heard : List Heard) (sent : List (List ℕ)) (how : Ended)
        → calls_of (caller ∷ []) more ≡ [] → Talk (C.gives clock.now) id opening history caller heard sent how
        → Talk (C.gives clock.now) id opening (history ++ more) caller heard sent how }
{}
