//! A session that goes on from its journal.
ghost use Rattle.std.specs.Prelude.{◌≡◌, ◌≤◌, IfErr, IfOk, false};
ghost use Rattle.tea_io.specs.Told.{Rose};
ghost use Rattle.session_log.specs.Stored.{IsStored, plain_stored};
ghost use Rattle.session_journal.specs.Reading.{read_place};
ghost use Rattle.session_keeper.specs.Keeping.{IsJournalOf, IsShut, WritesJournalOf};
ghost use Rattle.reflector_core.specs.Keeping.{IsCovered};
ghost use Rattle.reflector_core.specs.PlainSession.{IsSoundSession};
ghost use Rattle.reflector_core.specs.Stored.{session_of};
ghost use Rattle.store_io.specs.declared.store.StoreFault.TheVariants as StoreFault;
ghost use Rattle.journal_store.specs.Opening.{WasRead};

use reflector_core::Session;
use session_journal::{Journal, Read, Unopened, what_is_read_may_be_opened};
use session_keeper::JournalKeeper;
use session_log::Stored;
use std::alloc::Global;
use store_io::{Store, StoreFault};
use tea_base::{SessionId, WantOfMemory};

/// The session that a journal tells, with the keeper of this journal, or the store, where there was no memory for it.
fn resume<S: Store + Drop>(
    alloc: Global,
    id: SessionId,
    journal: Journal<S>,
    stored: Stored,
) -> Result<(Session, JournalKeeper<S>), Unopened<S>>
    requires { IsStored (plain_stored stored) }
    ensures session { IfOk result (λ kept. kept.0.plain ≡ session_of (plain_stored stored)) }
    ensures sound { IfOk result (λ kept. IsSoundSession kept.0.plain) }
    ensures keeper { IfOk result (λ kept. kept.1 ≡ record { id = id; journal = journal; full = false }) }
    ensures err { IfErr result (λ unopened. (unopened.store ≡ journal.store)
        × (unopened.fault ≡ StoreFault.WantOfMemory)) }
{
    match Session::resume(alloc, stored) {
        Ok(session) => {
            // tells that the session is sound, so that it covers itself
            let _horizon = session.horizon(); // for the prover
            let keeper = JournalKeeper {
                id,
                journal,
                full: false,
            };
            Ok((session, keeper))
        }
        Err(WantOfMemory) => {
            let store = journal.store;
            Err(Unopened {
                store,
                fault: StoreFault::WantOfMemory,
            })
        }
    }
}

/// Goes on with the session that was read from a store: what is after its records is cut, and its keeper keeps what it comes to. At an error
/// the store may be cut or not.
pub fn go_on<S: Store + Drop>(
    alloc: Global,
    id: SessionId,
    store: S,
    read: Read<'_>,
) -> Result<(Session, JournalKeeper<S>), Unopened<S>>
    requires { WasRead (S.bytes store) id.0 (read_place read) read.good }
    ensures session { IfOk result (λ kept. kept.0.plain ≡ session_of (plain_stored read.entry.stored)) }
    // What the keeper holds covers the session, and keeps the same snapshot. So does what it has written, which is the same.
    ensures covered { IfOk result (λ kept.
        IsCovered (IsJournalOf S.bytes S.safe kept.1) kept.0.plain.kept kept.0.plain) }
    ensures written { IfOk result (λ kept.
        IsCovered (WritesJournalOf S.bytes S.safe kept.1) kept.0.plain.kept kept.0.plain) }
    ensures unshut { IfOk result (λ kept. ¬ IsShut kept.1) }
    ensures id { IfOk result (λ kept. kept.1.id ≡ id) }
    ensures faults { IfOk result (λ kept. S.faults store ≤ S.faults kept.1.journal.store) }
    ensures failed { IfErr result (λ unopened. unopened.fault ≡ StoreFault.Failed
        → Rose (S.faults store) (S.faults unopened.store)) }
{
    what_is_read_may_be_opened(); // for the prover
    let journal = Journal::open(store, &read)?;
    resume(alloc, id, journal, read.stored)
}
