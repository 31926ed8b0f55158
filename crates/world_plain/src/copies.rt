//! Copies of messages, subscriptions and known names, in memory of their own.
ghost use Rattle.std.specs.Prelude.{◌≡◌, map, IfOk};
ghost use Rattle.world_plain.specs.Messages.{plain_message};

use crate::message::{Message, Messages, Subscription, Subscriptions};
use crate::world::{Known, KnownNames};
use model_value::copy_values;
use std::alloc::Global;
use tea_base::{List, Numbers, WantOfMemory};

/// The same message.
pub fn copy_message(alloc: Global, message: &Message) -> Result<Message, WantOfMemory>
    ensures { IfOk result (λ new. plain_message new ≡ plain_message message.now) }
{
    let method = message.method.clone()?;
    let args = copy_values(alloc, &message.args)?;
    Ok(Message {
        time: message.time,
        number: message.number,
        object: message.object,
        method,
        args,
    })
}

/// The same subscription.
pub fn copy_subscription(subscription: &Subscription) -> Result<Subscription, WantOfMemory>
    ensures { IfOk result (λ new. new ≡ subscription.now) }
{
    let scope = subscription.scope.clone()?;
    let event = subscription.event.clone()?;
    let method = subscription.method.clone()?;
    Ok(Subscription {
        scope,
        event,
        object: subscription.object,
        method,
    })
}

/// The same known name.
fn copy_known(known: &Known) -> Result<Known, WantOfMemory>
    ensures { IfOk result (λ new. new ≡ known.now) }
{
    Ok(Known {
        name: known.name.clone()?,
        object: known.object,
    })
}

/// The same numbers.
pub fn copy_numbers(alloc: Global, numbers: &[u32]) -> Result<Numbers, WantOfMemory>
    ensures { IfOk result (λ new. new ≡ numbers.now) }
{
    Ok(List::from_vec(Vec::from_slice(alloc, numbers)?))
}

/// The same known names.
pub fn copy_known_names(alloc: Global, known: &[Known]) -> Result<KnownNames, WantOfMemory>
    ensures { IfOk result (λ new. new ≡ known.now) }
{
    let mut copies = Vec::with_capacity(alloc, known.len())?;
    for one in known {
        copies.push(copy_known(one)?)?;
    }
    Ok(List::from_vec(copies))
}

/// The same subscriptions.
pub fn copy_subscriptions(
    alloc: Global,
    subscriptions: &[Subscription],
) -> Result<Subscriptions, WantOfMemory>
    ensures { IfOk result (λ new. new ≡ subscriptions.now) }
{
    let mut copies = Vec::with_capacity(alloc, subscriptions.len())?;
    for subscription in subscriptions {
        copies.push(copy_subscription(subscription)?)?;
    }
    Ok(List::from_vec(copies))
}

/// The same messages.
pub fn copy_messages(alloc: Global, messages: &[Message]) -> Result<Messages, WantOfMemory>
    ensures { IfOk result (λ new. map plain_message new ≡ map plain_message messages.now) }
{
    let mut copies = Vec::with_capacity(alloc, messages.len())?;
    for message in messages {
        copies.push(copy_message(alloc, message)?)?;
    }
    Ok(List::from_vec(copies))
}
