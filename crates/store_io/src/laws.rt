//! What is left of a store.
ghost use Rattle.std.specs.Prelude.{ℕ, List, Option};
ghost use Rattle.store_io.specs.Store.{MayBeLeft, MayBeTorn};

/// What a kill leaves begins with all that was safe, so whoever allows for a loss of power allows for it too.
pub fn a_kill_leaves_what_is_safe()
    ensures { (bytes : Option (List ℕ)) (safe : ℕ) (left : List ℕ) → MayBeLeft bytes safe left
        → MayBeTorn bytes safe left }
{}
