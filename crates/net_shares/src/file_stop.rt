//! A stop that is a file.
ghost use Rattle.std.specs.Prelude.{◌≡◌};
ghost use Rattle.net_shares.specs.Stops.{MayBeAny};

use crate::signs::Signs;
use crate::stop::Stop;
use std::sync::atomic::{AtomicU64, Ordering};
use tea_base::Text;
use tea_io::Clock;

/// How long it takes until it looks again where the file was not there, in microseconds.
const LOOK_TIME: u64 = 1_000_000;

/// Asks for a stop while a file is there, if it has a name. Threads that share it look at most once a second by the clock, until one has seen the file; then
/// each that asks looks too, but of several at once only one.
#[derive(Drop)]
pub struct FileStop<'a, F, C> {
    signs: &'a F,
    clock: &'a C,
    name: Option<Text>,
    /// The time at which it looks next.
    due: AtomicU64,
}

impl<'a, F: Signs, C: Clock> FileStop<'a, F, C> {
    /// A stop by the file of this name, which looks when it is asked first. Takes no memory.
    pub fn new(signs: &'a F, clock: &'a C, name: Option<Text>) -> FileStop<'a, F, C>
        ensures signs { result.signs.now ≡ signs.now }
        ensures name { result.name ≡ name }
    {
        FileStop {
            signs,
            clock,
            name,
            due: AtomicU64::new(0),
        }
    }

    /// Whether it is time to look. Of threads that ask at once only one is told so.
    fn is_due(&self) -> bool {
        let now = self.clock.now();
        let due = self.due.load(Ordering::SeqCst);
        let next = now.saturating_add(LOOK_TIME);
        now >= due
            && self
                .due
                .compare_exchange(due, next, Ordering::SeqCst, Ordering::SeqCst)
                .is_ok()
    }
}

impl<F: Signs, C: Clock> Stop for FileStop<'_, F, C> {
    ghost may = { λ stop. MayBeAny (F.may_be stop.signs.now) stop.name };

    fn asks(&self) -> bool {
        let Some(name) = &self.name else {
            return false;
        };
        if !self.is_due() {
            return false;
        }
        let is_there = self.signs.is_there(name);
        if is_there {
            self.due.store(0, Ordering::SeqCst);
        }
        is_there
    }
}
