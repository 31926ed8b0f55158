//! A topic and its handling.
use tea_base::Text;

/// How a view handles the events of a topic.
#[derive(Clone, Copy, Debug, PartialEq, Eq)]
pub enum Handling {
    /// Every event, in order.
    Queued,
    /// Of the events that are handled together, the last alone.
    OncePerFrame,
}

/// What a view is subscribed to: the events of a name that are published in a scope.
#[derive(Debug, Drop)]
pub struct Topic {
    pub scope: Text,
    pub event: Text,
    pub handling: Handling,
}
