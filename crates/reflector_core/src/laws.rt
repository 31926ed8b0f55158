//! The laws of how a session goes on. They hold of each session, sound or not.
ghost use Rattle.std.specs.Prelude.{◌≡◌, ◌≤◌, ◌⊎◌, ℕ, false, List, Some};
ghost use Rattle.reflector_core.specs.PlainSession.{PlainSession, IsSoundSession};
ghost use Rattle.reflector_core.specs.Answer.{answer, offer};
ghost use Rattle.reflector_core.specs.Play.{after_all};
ghost use Rattle.session_log.specs.Stored.{PlainStored, IsStored};
ghost use Rattle.reflector_core.specs.Stored.{session_of, stored_of};
ghost use Rattle.reflector_core.specs.Growth.{GrowsTo, is_offer};
ghost use Rattle.reflector_core.specs.declared.request.Request.{Request};
ghost use Rattle.reflector_core.specs.SessionState.{SessionState};
ghost use Rattle.reflector_core.specs.Prepared.{AnswersPrepared};

/// Whatever is asked, the log that a session had stays, and goes on with entries above its horizon. So it is after
/// many requests.
pub fn log_grows()
    ensures answer { (s : PlainSession) (request : Request) → GrowsTo s (answer s request).session }
    ensures requests { (s : PlainSession) (requests : List Request) → GrowsTo s (after_all s requests) }
{}

/// What is kept changes by an Offer alone, and then to what was offered.
pub fn offers_change_what_is_kept()
    ensures others { (s : PlainSession) (request : Request) → is_offer request ≡ false →
        (answer s request).session.kept ≡ s.kept }
    ensures offers { (s : PlainSession) (view joined time : ℕ) (bytes : List ℕ) →
        ((offer s view joined time bytes).session.kept ≡ s.kept) ⊎
        ((offer s view joined time bytes).session.kept ≡ Some (record { time = time; bytes = bytes })) }
{}

/// A session that has room for so many calls and payload bytes has no want of memory in them. Of the Sends and Leaves,
/// and of the Joins between, there are at most so many, and their payloads have at most so many bytes. Ticks, Offers and
/// Pulls may stand between in any number. Each call is as the clause `room` of `Session::call` says.
pub fn prepared_calls_are_answered()
    ensures { (s : SessionState) (calls bytes : ℕ) → calls ≤ s.ready_entries → bytes ≤ s.ready_bytes →
        AnswersPrepared s calls bytes }
{}

/// What is stored of a sound session is a stored session, and the session that goes on from it is this one. The session
/// that goes on from a stored one is sound, and what is stored of it is the same.
pub fn a_stored_session_comes_back()
    ensures stored { (s : PlainSession) → IsSoundSession s → IsStored (stored_of s) }
    ensures session { (s : PlainSession) → session_of (stored_of s) ≡ s }
    ensures sound { (s : PlainStored) → IsStored s → IsSoundSession (session_of s) }
    ensures same { (s : PlainStored) → stored_of (session_of s) ≡ s }
{}
