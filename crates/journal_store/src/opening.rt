//! Opening the store of a journal.
ghost use Rattle.std.specs.Prelude.{◌≡◌};
ghost use Rattle.std.specs.Option.{IfSome, option_copied};
ghost use Rattle.session_log.specs.Stored.{IsStored, plain_stored};
ghost use Rattle.journal_store.specs.Opening.{FoundsFirst, HasOut, OpensJournal, plain_opening};
ghost use Rattle.journal_store.specs.Stores.{stores_tell};

use session_journal::{MOST_JOURNAL, founding_of};
use session_log::Stored;
use std::alloc::Global;
use store_io::{Opened, StoreFault, Stores};
use tea_base::{SessionId, Text};

/// Why no journal was opened.
#[derive(Clone, Copy, Debug, PartialEq, Eq)]
pub enum OpeningFault {
    /// It was not founded.
    Unfounded,
    /// It was not opened.
    Unopened,
    WantOfMemory,
}

/// Founds a journal, where it is known with what.
fn found_first<S: Stores>(
    alloc: Global,
    id: &SessionId,
    name: &Text,
    opening: Option<&Stored>,
    stores: &mut S,
) -> Result<(), StoreFault>
    requires { IfSome opening (λ stored. IsStored (plain_stored stored.now)) }
    ensures founds { FoundsFirst (stores_tell S.Stores S.Store.Store) id.now.0
        name.now (plain_opening (option_copied opening.entry))
        result stores.old stores.new }
    ensures out { S.is_out stores.new name.now ≡ S.is_out stores.old name.now }
{
    match opening {
        None => Ok(()),
        Some(stored) => {
            let bytes = founding_of(alloc, id, stored)?;
            stores.found(name, bytes.bytes())
        }
    }
}

/// Opens a journal. Before that it is founded, where it is known with what: with this session.
pub fn open_journal<S: Stores>(
    alloc: Global,
    id: &SessionId,
    name: &Text,
    opening: Option<&Stored>,
    stores: &mut S,
) -> Result<Opened<S::Store>, OpeningFault>
    requires { IfSome opening (λ stored. IsStored (plain_stored stored.now)) }
    ensures opens { OpensJournal (stores_tell S.Stores S.Store.Store) id.now.0
        name.now (plain_opening (option_copied opening.entry))
        result stores.old stores.new }
    ensures out { HasOut (S.is_out stores.new name.now) result }
{
    match found_first(alloc, id, name, opening, stores) {
        Ok(()) => {}
        Err(StoreFault::Failed) => return Err(OpeningFault::Unfounded),
        Err(StoreFault::WantOfMemory) => return Err(OpeningFault::WantOfMemory),
    }
    match stores.open(name, MOST_JOURNAL) {
        Ok(opened) => Ok(opened),
        Err(StoreFault::Failed) => Err(OpeningFault::Unopened),
        Err(StoreFault::WantOfMemory) => Err(OpeningFault::WantOfMemory),
    }
}
