//! A stop in memory.
ghost use Rattle.std.specs.Prelude.{◌≡◌, ◌<◌, true, length, Contains};

use crate::stop::Stop;
use std::sync::atomic::{AtomicUsize, Ordering};
use tea_base::List;

/// Answers in order.
pub type Answers = List<bool>;

/// Gives the answers of a list in order, and then the last one again and again. Threads that share it take them in the order of their calls.
#[derive(Drop)]
pub struct ListStop {
    answers: Answers,
    given: AtomicUsize,
    ghost some: { 0 < length answers },
}

impl ListStop {
    /// A stop of these answers, which are not none. Takes no memory.
    pub fn new(answers: Answers) -> ListStop
        requires { 0 < length answers }
        ensures { result.answers ≡ answers }
    {
        ListStop {
            answers,
            given: AtomicUsize::new(0),
        }
    }
}

impl Stop for ListStop {
    ghost may = { λ stop. Contains stop.answers true };

    fn asks(&self) -> bool {
        let answers = self.answers.as_slice();
        let place = self.given.fetch_add(1, Ordering::SeqCst);
        answers[place.min(answers.len() - 1)]
    }
}
