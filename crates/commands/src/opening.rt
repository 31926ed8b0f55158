//! What a log holds: a stored session, or a journal.
ghost use Rattle.std.specs.Prelude.{◌≡◌, Err, IfOk, Some, option_map};
ghost use Rattle.session_journal.specs.Journal.{header_at};
ghost use Rattle.session_log.specs.Stored.{IsStored, plain_stored};
ghost use Rattle.session_log.specs.declared.reading.LogFault.TheVariants as LogFault;
ghost use Rattle.commands.specs.Verdict.{IsLog, PlainSource, names_no_other};
ghost use Rattle.commands.specs.Work.{plain_named, plain_source};

use session_journal::{JournalFault, read_journal, session_of, what_is_read_may_be_opened};
use session_log::{LogFault, Stored, decode_stored};
use std::alloc::Global;
use tea_base::{SessionId, WantOfMemory};

/// What a log holds.
#[derive(Drop)]
pub struct Source {
    /// The session's id, where the log is a journal: a stored session has none.
    pub named: Option<SessionId>,
    /// The session.
    pub stored: Stored,
}

/// What the journal of this id holds. Its torn end is passed over.
fn read_named(alloc: Global, id: &SessionId, bytes: &[u8]) -> Result<Source, LogFault>
    requires { option_map (λ x. x.0) (header_at 32 bytes.now) ≡ Some id.now.0 }
    ensures read { IfOk result (λ source. IsLog bytes.now (plain_source source)) }
    ensures sound { IfOk result (λ source. IsStored (plain_stored source.stored)) }
    ensures bad { result ≡ Err LogFault.BadLog → (source : PlainSource) → ¬ IsLog bytes.now source }
{
    what_is_read_may_be_opened(); // for the prover
    match read_journal(alloc, id, bytes) {
        Ok(read) => Ok(Source {
            named: Some(*id),
            stored: read.stored,
        }),
        Err(JournalFault::NoJournal) => Err(LogFault::BadLog),
        Err(JournalFault::OtherSession) => Err(LogFault::BadLog),
        Err(JournalFault::WantOfMemory) => Err(LogFault::WantOfMemory),
    }
}

/// What these bytes hold as a log. `BadLog` comes exactly where they are neither the spelling of a stored session nor begin with the whole
/// header of a journal.
pub(crate) fn read_log(alloc: Global, bytes: &[u8]) -> Result<Source, LogFault>
    ensures read { IfOk result (λ source. IsLog bytes.now (plain_source source)) }
    ensures sound { IfOk result (λ source. IsStored (plain_stored source.stored)) }
    ensures bad { result ≡ Err LogFault.BadLog → (source : PlainSource) → ¬ IsLog bytes.now source }
{
    match session_of(bytes) {
        Some(id) => read_named(alloc, &id, bytes),
        None => Ok(Source {
            named: None,
            stored: decode_stored(alloc, bytes)?,
        }),
    }
}

/// Whether a log names no other session than this one. A stored session names none.
pub(crate) fn names_no_other(named: Option<SessionId>, id: &SessionId) -> bool
    ensures { result ≡ names_no_other (plain_named named) id.now.0 }
{
    match named {
        None => true,
        Some(named) => named.0.as_slice() == id.0.as_slice(),
    }
}
