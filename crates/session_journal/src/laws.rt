//! What a journal is read as.
ghost use Rattle.std.specs.Prelude.{◌≡◌, ℕ, List, Some, length};
ghost use Rattle.store_io.specs.Store.{MayBeTorn};
ghost use Rattle.session_log.specs.Stored.{PlainStored, IsStored};
ghost use Rattle.session_journal.specs.declared.change.Change.{Change};
ghost use Rattle.session_journal.specs.Frames.{Place};
ghost use Rattle.session_journal.specs.State.{GoesOn, founded};
ghost use Rattle.session_journal.specs.Journal.{header, read_journal, Goes, AreBytes, ReadsWhole, ReadsFirst, IsSpelled};
ghost use Rattle.session_journal.specs.Keeper.{Keeps, Writes, GoesOnFrom, first_keeper};
ghost use Rattle.session_journal.specs.Founding.{FoundsSession};

/// A front of a journal reads as just the records that are whole in it.
pub fn front_reads_whole_records()
    ensures { (id : List ℕ) (changes : List Change) (n : ℕ) → GoesOn founded changes → ReadsWhole id changes n }
{}

/// A journal with any bytes after it is first read as what it is alone.
pub fn own_records_are_read_first()
    ensures { (id : List ℕ) (changes : List Change) (tail : List ℕ) → GoesOn founded changes → AreBytes tail
        → ReadsFirst id changes tail }
{}

/// What is read is spelled so: the reader makes nothing up, and passes nothing over.
pub fn what_is_read_is_spelled()
    ensures { (id bytes : List ℕ) → AreBytes bytes → IsSpelled id bytes }
{}

/// What is read is a stored session, so one can be opened on it.
pub fn what_is_read_may_be_opened()
    ensures { (id bytes : List ℕ) → AreBytes bytes → (read : Place PlainStored) → read_journal id bytes ≡ Goes read
        → IsStored read.state }
{}

/// Whatever an end leaves of a store, by a kill or a loss of power, is read as the session that was kept, or as one that goes on
/// from it.
pub fn an_end_loses_nothing()
    ensures { (id bytes : List ℕ) (safe : ℕ) (state : PlainStored) (left : List ℕ) →
        Keeps id (Some bytes) safe state → AreBytes left → MayBeTorn (Some bytes) safe left → GoesOnFrom id state left }
{}

/// A store whose safe bytes are the header alone keeps the session that has just been founded.
pub fn a_header_keeps_the_first_session()
    ensures kept { (id : List ℕ) → Keeps id (Some (header id)) (length (header id)) founded }
    ensures written { (id : List ℕ) → Writes id (Some (header id)) (length (header id)) (first_keeper id) founded }
{}

/// What a journal is founded with is read as the session that it was made from.
pub fn a_founding_is_read()
    ensures { (id : List ℕ) (s : PlainStored) → IsStored s → FoundsSession id s }
{}
