//! Who handles an event.
ghost use Rattle.std.specs.Prelude.{◌≡◌, IfOk};
ghost use Rattle.pubsub.specs.Index.{handler_of, is_by as comes_from, without_handler, without_handlers_of};

use std::alloc::Global;
use tea_base::{List, Text, WantOfMemory};
use world_plain::Subscription;

/// A method that handles an event.
#[derive(Drop)]
pub struct Handler {
    /// The number of the object.
    pub object: u32,
    /// The name of its method.
    pub method: Text,
}

/// Handlers in order.
pub type Handlers = List<Handler>;

/// The handler of a subscription, in memory of its own.
pub fn handler_of(subscription: &Subscription) -> Result<Handler, WantOfMemory>
    ensures { IfOk result (λ handler. handler ≡ handler_of subscription.now) }
{
    let method = subscription.method.try_clone()?;
    Ok(Handler {
        object: subscription.object,
        method,
    })
}

/// The same handlers in memory of their own.
pub fn copy_handlers(alloc: Global, handlers: &[Handler]) -> Result<Handlers, WantOfMemory>
    ensures { IfOk result (λ copy. copy ≡ handlers.now) }
{
    let mut copy = List::new(alloc);
    for handler in handlers {
        let method = handler.method.try_clone()?;
        copy.push(Handler {
            object: handler.object,
            method,
        })?;
    }
    Ok(copy)
}

/// Takes away the handlers of an object.
pub fn remove_object(handlers: &mut Vec<Handler>, object: u32)
    ensures { handlers.new.items ≡ without_handlers_of object handlers.old.items }
{
    handlers.retain(|handler| handler.object != object);
}

/// Takes away the handler of a subscription.
pub fn remove_handler(handlers: &mut Vec<Handler>, subscription: &Subscription)
    ensures { handlers.new.items ≡ without_handler subscription.now handlers.old.items }
{
    handlers.retain(|handler| !is_by(handler, subscription));
}

/// Whether a subscription is by this handler.
#[tactic(auto, using(crate::proofs::Subscriptions::by_texts))]
fn is_by(handler: &Handler, subscription: &Subscription) -> bool
    ensures { result ≡ comes_from subscription.now handler.now }
{
    handler.object == subscription.object && handler.method.is_text(&subscription.method)
}
