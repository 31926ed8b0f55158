//! A counter that contracts alone see.
ghost use Rattle.std.specs.Prelude.{◌≡◌, ◌+◌, ◌<◌};

use std::marker::Model;
use std::sync::ledger::{Blank, Book, Ledger, Share};

/// Counts what is done step by step, as the comparisons of a call. Contracts see the number of its ticks; the program holds
/// nothing of it. Each ledger has one counter at most, so none is put in place of another.
///
/// It is made inside a function over the ledger, which others call at `Brand` with a blank of its own. A caller that does not
/// look at the count does so too:
///
/// ```text
/// fn take(queue: &mut Queue) -> Option<Message> {
///     take_counted::<Brand>(queue, Blank::new(1))
/// }
///
/// fn take_counted<L: Ledger>(queue: &mut Queue, blank: Blank) -> Option<Message>
///     requires name { blank.name ≡ L.name }
///     requires parts { blank.parts ≡ L.parts }
///     requires some { 0 < blank.parts }
/// {
///     queue.take_least(&mut Steps::<L>::new(blank))
/// }
/// ```
///
/// Where `take` is proved, proofs/take/Invariants.antt picks the ledger:
/// `ghosts-take_counted a = record { name = a.blank.name; parts = a.blank.parts }`.
#[derive(Drop)]
pub struct Steps<L: Ledger> {
    ticks: Book<L>,
    share: Share<L>,
}

impl<L: Ledger> Model for Steps<L> {
    ghost use Rattle.std.specs.Prelude.{ℕ, ◌<◌};

    ghost Value = { ℕ };

    ghost view = { λ s. s.ticks.total };

    ghost invariant = { λ s. 0 < s.share.parts };
}

impl<L: Ledger> Steps<L> {
    /// A counter without ticks, from the blank of its ledger, which has a part at least. Takes no memory.
    pub fn new(blank: Blank) -> Steps<L>
        requires name { blank.name ≡ L.name }
        requires parts { blank.parts ≡ L.parts }
        requires some { 0 < blank.parts }
        ensures { result ≡ 0 }
    {
        let (ticks, share) = blank.open::<L>();
        Steps { ticks, share }
    }

    /// Counts one step more. Takes no memory.
    pub fn tick(&mut self)
        ensures { self.new ≡ self.old + 1 }
    {
        let Steps { ticks, share } = self;
        ticks.add(share, 1);
    }
}
