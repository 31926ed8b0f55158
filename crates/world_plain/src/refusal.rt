//! Why a part was not added to a world.
use tea_base::WantOfMemory;

/// Why an object, a message or a subscription was not added. What was to hold it stays as it was.
#[derive(Clone, Copy, Debug, PartialEq, Eq)]
pub enum StoreRefusal {
    /// As many are held as may be.
    Full {
        /// How many are held.
        count: u32,
    },
    /// All numbers are used: the next one would be the last of its type. Subscriptions have no numbers.
    Spent,
    WantOfMemory,
}

impl From<WantOfMemory> for StoreRefusal {
    ghost use Rattle.std.specs.Prelude.{◌≡◌};
    ghost use Rattle.world_plain.specs.declared.refusal.StoreRefusal.TheVariants.{WantOfMemory as NoMemory};

    ghost from_gives = { λ _ r. r ≡ NoMemory };

    fn from(_error: WantOfMemory) -> StoreRefusal {
        StoreRefusal::WantOfMemory
    }
}
