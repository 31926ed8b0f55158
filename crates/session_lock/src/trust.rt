//! What a session may keep for views to come.

/// Which snapshots a shared session keeps. The meaning `allows` says so of a session, by its id, its log and its
/// horizon, and of a snapshot, by its time and its bytes. By the law `stays` what is allowed for a sound session is
/// allowed after any further request that leaves it sound. At run time a trust does nothing: it is the caller of
/// `offer` who knows that a snapshot is allowed.
pub trait Trust: Drop {
    ghost use Rattle.std.specs.Prelude.{ℕ, List};
    ghost use Rattle.tea_base.specs.declared.entry.Entry.{Entry};
    ghost use Rattle.tea_base.specs.declared.entry.SessionId.{SessionId};
    ghost use Rattle.session_lock.specs.Trusts.{Stays};

    ghost allows: { Self → SessionId → List Entry → ℕ → ℕ → List ℕ → Type 0 };

    ghost stays: { Stays allows };
}

/// It allows everything.
#[derive(Drop)]
pub struct TrustAll;

impl Trust for TrustAll {
    ghost allows = { λ _ _ _ _ _ _. Unit {0} };

    ghost stays = { λ _ _ _ _ _ _ _ _ _. tt };
}
