//! What a post has.
use crate::counting::EndCounts;
use host_server::Row;

/// What a post has: its share of the net, its row of passes, and how many of its links have ended in each way.
#[derive(Drop)]
pub struct Post<S: Drop, K> {
    pub share: S,
    pub row: Row<K>,
    pub counts: EndCounts,
}
