//! A keeper in memory.
ghost use Rattle.std.specs.Prelude.{◌≡◌, false};

use entry_fields::LentWhat;
use reflector_core::{Keeper, Unkept};

/// A keeper that counts the entries that it was told and how often it settles, and fails at the first entry if it is to.
#[derive(Drop)]
pub struct CountingKeeper {
    fails: bool,
    pub entries: u32,
    pub settles: u32,
    unsettled: bool,
    failed: bool,
}

impl CountingKeeper {
    pub fn new(fails: bool) -> CountingKeeper
        ensures { result.failed ≡ false }
    {
        CountingKeeper {
            fails,
            entries: 0,
            settles: 0,
            unsettled: false,
            failed: false,
        }
    }

    /// Whether nothing was lost.
    pub fn has_kept(&self) -> bool {
        !self.failed && !self.unsettled
    }
}

impl Keeper for CountingKeeper {
    ghost use Rattle.std.specs.Prelude.{◌≡◌, true, not, ◌&&◌, if◌then◌else◌};

    ghost holds = { λ _ _. Unit {0} };

    ghost writes = { λ _ _. Unit {0} };

    ghost settled = { λ keeper. not keeper.unsettled && not keeper.failed };

    ghost shut = { λ keeper. keeper.failed ≡ true };

    ghost faults = { λ keeper. if keeper.failed then 1 else 0 };

    fn keep_entry(&mut self, _time: u64, _view: u32, _what: LentWhat<'_>) -> Result<(), Unkept> {
        if self.failed || self.fails {
            self.failed = true;
            return Err(Unkept);
        }
        self.entries = self.entries.saturating_add(1);
        self.unsettled = true;
        Ok(())
    }

    fn keep_tick(&mut self, _time: u64) -> Result<(), Unkept> {
        if self.failed {
            return Err(Unkept);
        }
        self.unsettled = true;
        Ok(())
    }

    fn keep_snapshot(&mut self, _time: u64, _bytes: &[u8]) -> Result<(), Unkept> {
        self.settle()
    }

    fn settle(&mut self) -> Result<(), Unkept> {
        if self.failed {
            return Err(Unkept);
        }
        self.settles = self.settles.saturating_add(1);
        self.unsettled = false;
        Ok(())
    }

    fn is_settled(&self) -> bool {
        !self.unsettled && !self.failed
    }
}
