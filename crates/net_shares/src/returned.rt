//! What was given back to a net in memory.

use crate::mem_share::MemShare;
use tea_io::MemLink;

/// What was given back to a net in memory.
#[derive(Drop)]
pub enum Returned {
    /// A link that the net itself has given.
    Link(MemLink),
    /// A share, with the links that were given back to it.
    Share(MemShare),
}
