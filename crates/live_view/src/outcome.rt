//! What a step did, and what is wanted then.
ghost use Rattle.std.specs.Prelude.{◌≡◌, [], string_bytes};

use std::alloc::Global;
use tea_base::{Blob, List};
use view_shell::ViewEnd;

/// What a step did.
#[derive(Drop)]
pub struct LiveOutcome {
    /// The frames that are to be sent, in order.
    pub frames: List<Blob>,
    /// The text that is to be printed.
    pub text: String,
    /// Whether a line `here` is to be printed behind it: the view has come to the entry by which it joined, and what was printed before
    /// is the past.
    pub here: bool,
}

impl LiveOutcome {
    /// Nothing was done yet. Takes no memory.
    pub(crate) fn new(alloc: Global) -> LiveOutcome
        ensures frames { result.frames ≡ [] }
        ensures text { string_bytes result.text ≡ [] }
    {
        LiveOutcome {
            frames: List::new(alloc),
            text: String::new(alloc),
            here: false,
        }
    }
}

/// What a live view wants next.
#[derive(Clone, Copy, Debug, PartialEq, Eq)]
pub enum LiveWant {
    /// To be told something.
    Input,
    /// A link. The one that it had, if any, is done with.
    Link,
    /// Nothing: it has ended.
    Over(ViewEnd),
}
