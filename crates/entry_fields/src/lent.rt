//! What an entry records, its payload in memory of others.
ghost use Rattle.std.specs.Prelude.{◌≡◌, IfOk};
ghost use Rattle.entry_fields.specs.Lent.{lent_what};

use std::alloc::Global;
use tea_base::{Blob, WantOfMemory, What};

/// What an entry records, its payload borrowed.
#[derive(Clone, Copy, Debug)]
pub enum LentWhat<'a> {
    Join,
    Exit,
    Event {
        /// Counted from 1 over the Events of one view.
        number: u32,
        payload: &'a [u8],
    },
}

impl<'a> LentWhat<'a> {
    /// The same, its payload borrowed from it.
    pub fn of(what: &'a What) -> LentWhat<'a>
        ensures { lent_what result ≡ what.now }
    {
        match what {
            What::Join => LentWhat::Join,
            What::Exit => LentWhat::Exit,
            What::Event { number, payload } => LentWhat::Event {
                number: *number,
                payload: payload.bytes(),
            },
        }
    }

    /// The same in memory of its own.
    pub fn own(self, alloc: Global) -> Result<What, WantOfMemory>
        ensures { IfOk result (λ owned. owned ≡ lent_what self.entry) }
    {
        match self {
            LentWhat::Join => Ok(What::Join),
            LentWhat::Exit => Ok(What::Exit),
            LentWhat::Event { number, payload } => Ok(What::Event {
                number,
                payload: Blob::copy(alloc, payload)?,
            }),
        }
    }
}
