//! What spellings tell.
ghost use Rattle.std.specs.Prelude.{◌≡◌, ◌≤◌, length};
ghost use Rattle.session_log.specs.Room.{most_stored};
ghost use Rattle.session_log.specs.Stored.{PlainStored, IsStored, stored_spelling};

/// No two stored sessions have one spelling. So a file tells which session it is of all that can be stored.
pub fn one_spelling()
    ensures { (stored other : PlainStored) → IsStored stored → IsStored other →
        stored_spelling stored ≡ stored_spelling other → stored ≡ other }
{}

/// No stored session has more than 93,344,801 bytes.
pub fn stored_sessions_fit()
    ensures { (stored : PlainStored) → IsStored stored → length (stored_spelling stored) ≤ most_stored }
{}
