//! Subscriptions weighed.
ghost use Rattle.std.specs.Prelude.{◌≡◌, ◌≤◌, length};
ghost use Rattle.world_plain.specs.Valid.{most_subscriptions};
ghost use Rattle.world_plain.specs.World.{subscription_weight as weight_of_subscription, total_weight};
ghost use Rattle.pubsub.specs.Topics.{IsLightSubscription, AreLightSubscriptions};

use model_value::text_weight;
use world_plain::Subscription;

/// How much subscriptions weigh together.
pub fn weight_of(subscriptions: &[Subscription]) -> u64
    requires light { AreLightSubscriptions subscriptions.now }
    requires few { length subscriptions.now ≤ most_subscriptions }
    ensures { result ≡ total_weight weight_of_subscription subscriptions.now }
{
    let mut sum = 0;
    for subscription in subscriptions {
        sum += subscription_weight(subscription);
    }
    sum
}

/// How much a subscription weighs.
pub fn subscription_weight(subscription: &Subscription) -> u64
    requires { IsLightSubscription subscription.now }
    ensures { result ≡ weight_of_subscription subscription.now }
{
    2 + text_weight(&subscription.scope)
        + text_weight(&subscription.event)
        + text_weight(&subscription.method)
}
