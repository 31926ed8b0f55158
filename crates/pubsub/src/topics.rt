//! The topics of a world.
ghost use Rattle.std.specs.Prelude.{◌≡◌, ◌+◌, ◌++◌, ◌<◌, ◌∷◌, [], length, IfOk, OnOk, OnErr, MatchBool, false};
ghost use Rattle.world_plain.specs.World.{subscription_weight, total_weight};
ghost use Rattle.world_plain.specs.Valid.{most_subscriptions};
ghost use Rattle.pubsub.specs.Topics.{AreTopics, IsLightSubscription, Subscribes, handlers_of, is_subscribed as holds, without_subscription, without_subscriber};

use crate::handler::{Handlers, copy_handlers};
use crate::index::TopicIndex;
use crate::subscription::{subscription_weight, weight_of};
use indexmap::IndexSet;
use std::alloc::Global;
use std::marker::Model;
use tea_base::{Text, WantOfMemory};
use world_plain::{MOST_SUBSCRIPTIONS, StoreRefusal, Subscription};

/// The subscriptions of a world. Contracts see them as a list in the order in which they were made. Who handles an event
/// is found by an index, and whether a subscription is held by its hash.
#[derive(Drop)]
pub struct Topics {
    alloc: Global,
    held: IndexSet<Subscription>,
    index: TopicIndex,
    // What the subscriptions weigh together, so that it need not be summed anew.
    weight: u64,
}

impl Model for Topics {
    ghost use Rattle.std.specs.Prelude.{List};
    ghost use Rattle.std.specs.Coded.{coded_list};
    ghost use Rattle.world_plain.specs.WorldCode.{coded_subscription};
    ghost use Rattle.world_plain.specs.declared.message.Subscription.{Subscription};
    ghost use Rattle.pubsub.specs.Held.{HoldsTopics};

    ghost Value = { List Subscription };

    ghost coded = { coded_list coded_subscription };

    ghost view = { λ t. t.held.keys };

    ghost invariant = { λ t. HoldsTopics t.held.keys t.index t.weight };
}

impl Topics {
    /// No subscriptions. Takes no memory.
    pub fn new(alloc: Global) -> Topics
        ensures { result ≡ [] }
    {
        Topics {
            alloc,
            held: IndexSet::new(alloc),
            index: TopicIndex::new(alloc),
            weight: 0,
        }
    }

    /// Adds a subscription behind all others, and tells whether it is new. It weighs at most 131,072, as much as a world
    /// may, which three texts of values in bounds do.
    ///
    /// Where an equal one is held, nothing changes. Otherwise `Full` comes where 16,384 are held. A refusal changes
    /// nothing but that the subscription is dropped.
    pub fn subscribe(&mut self, s: Subscription) -> Result<bool, StoreRefusal>
        requires { IsLightSubscription s }
        ensures { Subscribes result s self.old self.new }
    {
        if self.holds(&s) {
            return Ok(false);
        }
        if self.is_full() {
            return Err(StoreRefusal::Full {
                count: MOST_SUBSCRIPTIONS as u32,
            });
        }
        if self.hold(s).is_err() {
            return Err(StoreRefusal::WantOfMemory);
        }
        Ok(true)
    }

    /// Holds a new subscription behind all others. Without memory it is dropped, and nothing changes.
    fn hold(&mut self, s: Subscription) -> Result<(), WantOfMemory>
        requires light { IsLightSubscription s }
        requires new { holds s self.old ≡ false }
        requires few { length self.old < most_subscriptions }
        ensures ok { OnOk result (self.new ≡ self.old ++ s ∷ []) }
        ensures err { OnErr result (self.new ≡ self.old) }
    {
        self.held.reserve(1)?;
        self.index.add(&s)?;
        self.weight += subscription_weight(&s);
        self.held.insert(s).unwrap();
        Ok(())
    }

    /// Whether no more can be held.
    fn is_full(&self) -> bool
        ensures { MatchBool result (length self.now ≡ most_subscriptions) (length self.now < most_subscriptions) }
    {
        self.held.len() == MOST_SUBSCRIPTIONS
    }

    /// The subscriptions in order. Takes no memory.
    pub fn subscriptions(&self) -> &[Subscription]
        ensures { result.now ≡ self.now }
    {
        self.held.as_slice()
    }

    /// Whether an equal subscription is held. Takes no memory.
    pub fn holds(&self, s: &Subscription) -> bool
        ensures { result ≡ holds s.now self.now }
    {
        self.held.contains(s)
    }

    /// Takes away the subscription equal to this one, and tells whether it was held. Takes no memory.
    pub fn unsubscribe(&mut self, s: &Subscription) -> bool
        ensures held { result ≡ holds s.now self.old }
        ensures topics { self.new ≡ without_subscription s.now self.old }
    {
        if !self.held.shift_remove(s) {
            return false;
        }
        self.index.remove(s);
        self.weight -= subscription_weight(s);
        true
    }

    /// Takes away the subscriptions of an object, and gives their number. Takes no memory.
    pub fn drop_object(&mut self, object: u32) -> u32
        ensures count { result + length self.new ≡ length self.old }
        ensures topics { self.new ≡ without_subscriber object self.old }
    {
        let before = self.held.len();
        self.held.retain(|s| s.object != object);
        let left = self.held.len();
        if left == before {
            return 0;
        }
        self.index.remove_object(object);
        self.weight = weight_of(self.held.as_slice());
        (before - left) as u32
    }

    /// The methods that handle an event in a scope, in the order of subscription.
    pub fn handlers(&self, scope: &Text, event: &Text) -> Result<Handlers, WantOfMemory>
        ensures { IfOk result (λ found. found ≡ handlers_of scope.now event.now self.now) }
    {
        copy_handlers(self.alloc, self.index.find(scope, event))
    }

    /// How much the subscriptions weigh together: each 2 and its three texts. Takes no memory.
    ///
    /// In all topics subscriptions differ, each is as `subscribe` wants it, and at most 16,384 are held.
    pub fn weight(&self) -> u64
        ensures weight { result ≡ total_weight subscription_weight self.now }
        ensures topics { AreTopics self.now }
    {
        self.weight
    }
}
