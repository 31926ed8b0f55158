//! What an entry records, but for an Event's number and payload.
ghost use Rattle.std.specs.Prelude.{◌≡◌, List, ℕ};
ghost use Rattle.session_log.specs.Heads.{what_of};
ghost use Rattle.session_log.specs.Kinds.{entry_kind};

use crate::heads::HeadKind;

/// What an entry records of its view.
#[derive(Clone, Copy, Debug, PartialEq, Eq)]
pub enum EntryKind {
    /// The view is here from now on.
    Join,
    /// The view is no longer here.
    Exit,
    /// The view sent an event.
    Event,
}

/// What the entry of a head records.
pub fn kind_of_head(kind: HeadKind) -> EntryKind
    ensures { (payloads : List ℕ) → result ≡ entry_kind (what_of payloads kind) }
{
    match kind {
        HeadKind::Join => EntryKind::Join,
        HeadKind::Exit => EntryKind::Exit,
        HeadKind::Event { .. } => EntryKind::Event,
    }
}
