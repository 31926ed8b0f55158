//! What passes know. No value of this type is made: it stands in proofs alone.
use std::collections::LinkedList;
use tea_base::SessionId;

/// What one pass knows.
pub struct Knowledge {
    /// How many parts of all parts it has. A pass that was merged into another has none.
    pub parts: u64,
    /// The ids that it has put into the list, with those of the passes that were merged into it.
    pub made: LinkedList<SessionId>,
    /// The list as it has seen it.
    pub seen: LinkedList<SessionId>,
    /// While a merge is under way, the list as the other pass has seen it.
    pub also: LinkedList<SessionId>,
    /// It has the list in hand.
    pub holding: bool,
}
