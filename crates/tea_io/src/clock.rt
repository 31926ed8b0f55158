//! A clock.
ghost use Rattle.std.specs.Prelude.{◌≡◌, ◌<◌, ℕ, length, Contains};

use std::sync::atomic::{AtomicUsize, Ordering};
use tea_base::List;

/// Times in microseconds, in order.
pub type Times = List<u64>;

/// Tells the time.
pub trait Clock {
    /// The values that it may give.
    ghost gives: { Self → ℕ → Type 0 };

    /// The time in microseconds.
    fn now(&self) -> u64
        ensures { gives self.now result };
}

/// Always gives `at`.
#[derive(Clone, Copy, Debug)]
pub struct FixedClock {
    pub at: u64,
}

impl Clock for FixedClock {
    ghost gives = { λ clock value. value ≡ clock.at };

    fn now(&self) -> u64 {
        self.at
    }
}

/// Gives the values of a list in order, and then the last one again and again. Threads that share
/// it take the values in the order of their calls.
#[derive(Drop)]
pub struct ListClock {
    values: Times,
    given: AtomicUsize,
    ghost some: { 0 < length values },
}

impl ListClock {
    /// A clock over values, which are not none. Takes no memory.
    pub fn new(values: Times) -> ListClock
        requires { 0 < length values }
        ensures { result.values ≡ values }
    {
        ListClock {
            values,
            given: AtomicUsize::new(0),
        }
    }
}

impl Clock for ListClock {
    ghost gives = { λ clock value. Contains clock.values value };

    fn now(&self) -> u64 {
        let values = self.values.as_slice();
        let place = self.given.fetch_add(1, Ordering::SeqCst);
        values[place.min(values.len() - 1)]
    }
}
