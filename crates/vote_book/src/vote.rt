//! How a vote is answered, and what votes come to.
use tea_base::List;

/// The answer to a vote on an entry.
#[derive(Clone, Copy, Debug, PartialEq, Eq)]
pub enum Vote {
    /// It is the first on that entry.
    First,
    /// It names the digest that the first one names, which is the entry `first`.
    Agreed { first: u32 },
    /// It names another digest than the first one does, which is the entry `first` and names `digest`.
    Diverged { first: u32, digest: [u8; 32] },
    /// Its view has voted on that entry before, by the entry `first`. It does not count.
    Repeated { first: u32 },
}

/// What the votes on an entry come to.
#[derive(Clone, Copy, Debug, PartialEq, Eq)]
pub struct Verdict {
    /// The entry that they are on.
    pub at: u32,
    /// How many they are.
    pub votes: u32,
    /// If two of them name different digests: the entry of the first vote, and of the first that differs from it.
    pub split: Option<(u32, u32)>,
}

/// Verdicts in order.
pub type Verdicts = List<Verdict>;
