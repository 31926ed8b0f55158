//! What the safe bytes of a store are read as.
ghost use Rattle.std.specs.Prelude.{ℕ, List, Some, take};
ghost use Rattle.session_log.specs.Stored.{PlainStored};
ghost use Rattle.session_journal.specs.Keeper.{Keeps};
ghost use Rattle.journal_store.specs.Safe.{ReadsAs};

use session_journal::front_reads_whole_records;

/// The safe bytes of a store that keeps a session are read as this session, and whole.
pub fn safe_bytes_are_read()
    ensures { (id bytes : List ℕ) (safe : ℕ) (state : PlainStored) → Keeps id (Some bytes) safe state →
        ReadsAs id (take safe bytes) state }
{
    front_reads_whole_records();
}
