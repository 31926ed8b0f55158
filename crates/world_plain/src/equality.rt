//! Subscriptions compared and hashed, so that a set can hold them.
ghost use Rattle.std.specs.Cmp.{partial_equiv_from_equiv};
ghost use Rattle.world_plain.specs.ValidTest.{same_subscription};
ghost use Rattle.world_plain.specs.Equality.{same_equiv, same_writes, subscription_writes};

use crate::message::Subscription;
use std::hash::{Hash, Hasher};

impl PartialEq for Subscription {
    ghost eq = { same_subscription };

    ghost laws = { partial_equiv_from_equiv same_equiv };

    fn eq(&self, other: &Subscription) -> bool {
        self.scope.is_text(&other.scope)
            && self.event.is_text(&other.event)
            && self.object == other.object
            && self.method.is_text(&other.method)
    }
}

impl Eq for Subscription {
    ghost laws = { same_equiv };
}

impl Hash for Subscription {
    ghost hash_input = { subscription_writes };

    ghost respects_eq = { same_writes };

    fn hash<H: Hasher>(&self, state: &mut H) {
        self.scope.as_str().hash(state);
        self.event.as_str().hash(state);
        self.object.hash(state);
        self.method.as_str().hash(state);
    }
}
