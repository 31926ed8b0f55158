//! Words that callers sleep on until it may be their turn.
ghost use Rattle.std.specs.Prelude.{◌<◌, ℕ};

use atomic_table::{Play, Table, TableRule};
use std::alloc::{AllocError, Global};
use std::marker::Model;
use std::sync::Wait;

/// How many bells there are. Numbers that differ by a multiple of it share one.
const COUNT: u64 = 64;

/// The rule of the bells' table. Nothing is claimed of them: who wakes looks whether its turn has come.
pub(crate) struct Free;

impl TableRule<u8, (), ()> for Free {
    ghost holds = { λ _ _. Unit {0} };

    ghost first = { λ about. about };
}

/// A step on a bell, which tells nothing.
pub(crate) struct Ring;

impl Play<u8, ()> for Ring {
    ghost then = { λ _ _ _ _. Unit {0} };
}

/// Bells, each of which counts how often it was rung. Who waits for a number reads its bell first, then looks whether the
/// number's turn has come, and if not sleeps until the bell is no more what was read. Who lets a number's turn come rings after that. So no
/// wake-up is missed, unless a bell is rung 2^32 times between a read and the sleep.
#[derive(Drop)]
pub(crate) struct Bells {
    table: Table<u8, (), (), Free, Global>,
}

impl Model for Bells {
    ghost use Rattle.std.specs.Prelude.{◌≡◌};

    ghost Value = { Unit {0} };

    ghost view = { λ _. tt };

    ghost invariant = { λ bells. bells.table.shared.table_id.words ≡ 64 };
}

impl Bells {
    /// Bells that were not rung yet.
    pub(crate) fn new(alloc: Global) -> Result<Bells, AllocError> {
        let (table, _) = Table::of_words(alloc, &[0; 64], &())?;
        Ok(Bells { table })
    }

    /// How often the bell of a number was rung.
    pub(crate) fn rung(&self, number: u64) -> u64 {
        self.table.shared.peek(bell_of(number))
    }

    /// Sleeps until the bell of a number was rung more often than that.
    pub(crate) fn sleep<R: Wait>(&self, rt: &R, number: u64, rung: u64) {
        self.table
            .shared
            .park(rt, bell_of(number), (rung & 0xffff_ffff) as u32);
    }

    /// Rings the bell of a number, and wakes all that sleep for it.
    pub(crate) fn ring(&self, number: u64) {
        let bell = bell_of(number);
        let (_, mut seat) = self.table.shared.load_new_seat::<Ring>(bell);
        self.table.shared.fetch_add::<Ring>(&mut seat, bell, 1);
        self.table.shared.wake_all(bell);
    }
}

fn bell_of(number: u64) -> usize
    ensures { result < 64 }
{
    (number % COUNT) as usize
}
