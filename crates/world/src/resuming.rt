//! A world that goes on from plain data.
ghost use Rattle.std.specs.Prelude.{◌≡◌, ◌<◌, ◌++◌, ◌∷◌, [], ℕ, List, false, length, IfOk, OnOk};
ghost use Rattle.world_plain.specs.Valid.{Valid, most_subscriptions};
ghost use Rattle.world_plain.specs.World.{world_record};
ghost use Rattle.pubsub.specs.Topics.{IsLightSubscription, is_subscribed};
ghost use Rattle.world.specs.Worlds.{take_up};
ghost use Rattle.world.specs.View.{scene};

use known_names::Names;
use message_queue::Queue;
use model_value::{copy, copy_values};
use object_store::Store;
use pubsub::Topics;
use saved_value::Saved;
use std::alloc::Global;
use tea_base::{List, WantOfMemory};
use world_plain::{
    PlainWorld, StoreRefusal, Subscription, copy_known_names, copy_message, copy_numbers,
    copy_subscription,
};
use world_state::State;

/// The world that plain data tells, on which nothing was published yet.
pub fn from_plain(alloc: Global, plain: &PlainWorld) -> Result<State, WantOfMemory>
    requires { (counts : List ℕ) × Valid counts (world_record plain.now) }
    ensures { IfOk result (λ state. scene state ≡ take_up (world_record plain.now)) }
{
    let views = copy_numbers(alloc, plain.views.as_slice())?;
    let objects = put_objects(alloc, plain)?;
    let known = put_names(alloc, plain)?;
    let topics = put_subscriptions(alloc, plain)?;
    let pending = put_messages(alloc, plain)?;
    let saved = Saved::of(copy(alloc, &plain.saved)?);
    Ok(State {
        id: plain.id,
        time: plain.time,
        random: plain.random,
        turns: plain.turns,
        faults: plain.faults,
        views,
        objects,
        known,
        topics,
        pending,
        saved,
        published: List::new(alloc),
    })
}

/// The objects under their ids, and the id that the next one gets.
fn put_objects(alloc: Global, plain: &PlainWorld) -> Result<Store, WantOfMemory>
    requires { (counts : List ℕ) × Valid counts (world_record plain.now) }
    ensures { let world = world_record plain.now in
        IfOk result (λ store. store ≡ record { objects = world.objects; next = world.next_object }) }
{
    let mut store = Store::resume(alloc, plain.next_object);
    for object in plain.objects.as_slice() {
        let fields = copy_values(alloc, &object.fields)?;
        store.put_back(object.id, object.class, fields)?;
    }
    Ok(store)
}

/// The names by which objects are known.
fn put_names(alloc: Global, plain: &PlainWorld) -> Result<Names, WantOfMemory>
    requires { (counts : List ℕ) × Valid counts (world_record plain.now) }
    ensures { IfOk result (λ names. names ≡ (world_record plain.now).known) }
{
    let names = copy_known_names(alloc, plain.known.as_slice())?;
    Ok(Names::take_up(names))
}

/// The subscriptions in their order.
fn put_subscriptions(alloc: Global, plain: &PlainWorld) -> Result<Topics, WantOfMemory>
    requires { (counts : List ℕ) × Valid counts (world_record plain.now) }
    ensures { IfOk result (λ topics. topics ≡ (world_record plain.now).subscriptions) }
{
    let mut topics = Topics::new(alloc);
    for subscription in plain.subscriptions.as_slice() {
        put_subscription(&mut topics, copy_subscription(subscription)?)?;
    }
    Ok(topics)
}

/// Adds a subscription, which is new and for which there is room, behind all others.
fn put_subscription(topics: &mut Topics, subscription: Subscription) -> Result<(), WantOfMemory>
    requires new { is_subscribed subscription topics.old ≡ false }
    requires few { length topics.old < most_subscriptions }
    requires light { IsLightSubscription subscription }
    ensures { OnOk result (topics.new ≡ topics.old ++ subscription ∷ []) }
{
    match topics.subscribe(subscription) {
        Ok(_) => Ok(()),
        Err(StoreRefusal::WantOfMemory) => Err(WantOfMemory),
        Err(StoreRefusal::Full { .. } | StoreRefusal::Spent) => unreachable!(),
    }
}

/// The messages to come under their numbers, and the number that the next one gets.
fn put_messages(alloc: Global, plain: &PlainWorld) -> Result<Queue, WantOfMemory>
    requires { (counts : List ℕ) × Valid counts (world_record plain.now) }
    ensures { let world = world_record plain.now in
        IfOk result (λ queue. queue ≡ record { messages = world.pending; next = world.next_number }) }
{
    let mut queue = Queue::resume(alloc, plain.next_number);
    for message in plain.pending.as_slice() {
        queue.put_back(copy_message(alloc, message)?)?;
    }
    Ok(queue)
}
