//! Ways to join.

/// How a view joins.
#[derive(Clone, Copy, Debug, PartialEq, Eq)]
pub enum How {
    /// From the kept snapshot, or from the first entry where none is kept.
    Fresh,
    /// From the first entry.
    Whole,
    /// From the world that it has.
    Resume,
}
