//! Memory that is taken before there is a session to store.
ghost use Rattle.std.specs.Prelude.{◌≡◌, IfOk};
ghost use Rattle.std.specs.Option.{option_map};
ghost use Rattle.session_log.specs.Room.{most_stored};
ghost use Rattle.session_log.specs.Stored.{IsStored, lent_kept, plain_of, stored_spelling};

use crate::filling::Filling;
use crate::log::Log;
use crate::stored::LentKept;
use crate::storing::write_stored;
use std::alloc::Global;
use std::marker::Model;
use tea_base::{Blob, MOST_BYTES, MOST_ENTRIES, MOST_SNAPSHOT, WantOfMemory};

/// No stored session has more bytes.
const MOST_STORED: usize = 33 + MOST_SNAPSHOT + 21 * MOST_ENTRIES as usize + MOST_BYTES as usize;

/// Memory for the bytes of any one stored session. Who takes it before a session begins can store what it comes to, whatever memory
/// there is then. Contracts see for how many bytes it is.
#[derive(Drop)]
pub struct Room {
    filling: Filling,
}

impl Model for Room {
    ghost use Rattle.std.specs.Prelude.{◌≡◌, ◌≤◌, ℕ, []};
    ghost use Rattle.session_log.specs.Room.{most_stored};

    ghost Value = { ℕ };

    ghost view = { λ room. room.filling.spare };

    ghost invariant = { λ room. (room.filling.bytes ≡ []) × (most_stored ≤ room.filling.spare) };
}

impl Room {
    /// Takes memory for 93,344,801 bytes. The system commits a page of it only once it is written, so a small session costs little.
    pub fn new(alloc: Global) -> Result<Room, WantOfMemory>
        ensures { IfOk result (λ room. room ≡ most_stored) }
    {
        Ok(Room {
            filling: Filling::new(alloc, MOST_STORED)?,
        })
    }

    /// The bytes that [`encode_stored`](crate::encode_stored) gives, in this memory. It takes no other.
    pub fn spell(self, log: &Log, horizon: u64, kept: Option<LentKept<'_>>) -> Blob
        requires { IsStored (plain_of log.now.entries horizon (option_map lent_kept kept)) }
        ensures { result ≡
            stored_spelling (plain_of log.now.entries horizon (option_map lent_kept kept.entry)) }
    {
        let Room { filling } = self;
        write_stored(filling, log, horizon, kept)
    }
}
