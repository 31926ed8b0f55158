//! How far a worker has come.
use crate::worker::Worker;

/// How far a worker has come in its turns.
#[derive(Clone, Copy, Debug, PartialEq, Eq)]
pub enum Course {
    /// It has made all its turns so far.
    Whole,
    /// A Send was refused. It makes no further turn.
    SendRefused,
    /// A Join was refused, so its replica awaits a Sync. It makes no further turn.
    JoinRefused,
}

/// A worker that has ended.
#[derive(Drop)]
pub struct Finished {
    pub worker: Worker,
    /// Whether its replica has taken the Sync of its newest Join.
    pub is_synced: bool,
}
