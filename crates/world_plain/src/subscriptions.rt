//! What is asked of the subscriptions of a world.
ghost use Rattle.std.specs.Prelude.{◌≡◌, ◌≤◌, ◌↔◌, map, length, slice_get, IsTrue};
ghost use Rattle.std.specs.Option.{option_cmp};
ghost use Rattle.world_plain.specs.Valid.{most_subscriptions, SubscriptionsDiffer, SubscriptionFits, SubscriptionsFit};
ghost use Rattle.world_plain.specs.World.{object_record};
ghost use Rattle.world_plain.specs.Ids.{HaveRisingIds};
ghost use Rattle.world_plain.specs.Order.{subscription_order};

use crate::limits::MOST_SUBSCRIPTIONS;
use crate::message::Subscription;
use crate::objects::is_held;
use crate::places::number_places;
use crate::world::PlainObject;
use model_value::text_fits;
use std::cmp::Ordering;

/// Whether no two subscriptions are the same. It sorts their places, and takes no memory.
pub fn subscriptions_differ(subscriptions: &[Subscription]) -> bool
    requires { length subscriptions.now ≤ most_subscriptions }
    ensures { IsTrue result ↔ SubscriptionsDiffer subscriptions.now }
{
    let mut all = [0; MOST_SUBSCRIPTIONS];
    let places = &mut all[..subscriptions.len()];
    number_places(places);
    places.sort_unstable_by(|a, b| order_at(subscriptions, *a, *b));
    places.is_sorted_by(|a, b| order_at(subscriptions, *a, *b).is_lt())
}

/// How the subscriptions at two places compare. A place without one stands first.
fn order_at(subscriptions: &[Subscription], a: u16, b: u16) -> Ordering
    ensures { result ≡ option_cmp subscription_order (slice_get subscriptions.now a) (slice_get subscriptions.now b) }
{
    let a = subscriptions.get(usize::from(a));
    let b = subscriptions.get(usize::from(b));
    match (a, b) {
        (Some(a), Some(b)) => order(a, b),
        (a, b) => a.is_some().cmp(&b.is_some()),
    }
}

/// By the object, then by the scope, the event and the method.
fn order(a: &Subscription, b: &Subscription) -> Ordering
    ensures { result ≡ subscription_order a.now b.now }
{
    a.object
        .cmp(&b.object)
        .then_with(|| a.scope.order(&b.scope))
        .then_with(|| a.event.order(&b.event))
        .then_with(|| a.method.order(&b.method))
}

/// Whether each subscription has texts that fit, and is of an object that is held.
pub fn subscriptions_fit(subscriptions: &[Subscription], objects: &[PlainObject]) -> bool
    requires { HaveRisingIds (map object_record objects.now) }
    ensures { IsTrue result ↔ SubscriptionsFit (map object_record objects.now) subscriptions.now }
{
    for subscription in subscriptions {
        if !is_valid_subscription(subscription, objects) {
            return false;
        }
    }
    true
}

fn is_valid_subscription(subscription: &Subscription, objects: &[PlainObject]) -> bool
    requires { HaveRisingIds (map object_record objects.now) }
    ensures { IsTrue result ↔ SubscriptionFits (map object_record objects.now) subscription.now }
{
    text_fits(&subscription.scope)
        && text_fits(&subscription.event)
        && text_fits(&subscription.method)
        && is_held(objects, subscription.object)
}
