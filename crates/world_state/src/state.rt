//! What a message runs on, and what it may take.
ghost use Rattle.std.specs.Prelude.{◌≡◌, IfOk, map};
ghost use Rattle.world_plain.specs.World.{world_record, world_weight, most_world_weight, object_record};
ghost use Rattle.model_value.specs.Room.{IsRoomBehind};
ghost use Rattle.object_store.specs.View.{objects_seen};
ghost use Rattle.world_state.specs.Running.{most_fuel, most_open};
ghost use Rattle.world_state.specs.Answer.{world_of};

use known_names::Names;
use message_queue::Queue;
use model_value::{copy, copy_all};
use object_store::{Object, Store};
use pubsub::Topics;
use saved_value::Saved;
use std::alloc::Global;
use tea_base::{List, Numbers, SessionId, WantOfMemory};
use world_plain::{
    MOST_WORLD_WEIGHT, PlainObject, PlainObjects, PlainWorld, Published, copy_known_names,
    copy_numbers, copy_subscriptions,
};

/// A world, and what its models published since the list was last taken.
#[derive(Drop)]
pub struct State {
    /// The session whose world it is.
    pub id: SessionId,
    /// Microseconds of TeaTime since the session's founding, below 2^53.
    pub time: u64,
    /// The state of the world's random numbers.
    pub random: u64,
    /// How many messages ran at this time, counted to 1,024.
    pub turns: u32,
    /// How often each kind of fault ended a message.
    pub faults: [u64; 14],
    /// The views that are here, rising.
    pub views: Numbers,
    /// The objects, and the number that the next one gets.
    pub objects: Store,
    /// The names by which objects are known, rising by their characters.
    pub known: Names,
    /// Who handles which events, in the order of subscription.
    pub topics: Topics,
    /// The messages to come, and the number that the next one gets.
    pub pending: Queue,
    /// The value that is saved for a later session, nil where there is none.
    pub saved: Saved,
    /// What was published.
    pub published: Published,
}

impl State {
    /// The world as plain data, in memory of its own.
    pub fn to_plain(&self, alloc: Global) -> Result<PlainWorld, WantOfMemory>
        ensures { IfOk result (λ plain. world_record plain ≡ world_of self.now) }
    {
        let views = copy_numbers(alloc, self.views.as_slice())?;
        let objects = copy_objects(alloc, self.objects.objects())?;
        let known = copy_known_names(alloc, self.known.names())?;
        let subscriptions = copy_subscriptions(alloc, self.topics.subscriptions())?;
        let pending = self.pending.copy_in_order(alloc)?;
        let saved = copy(alloc, self.saved.value())?;
        Ok(PlainWorld {
            id: self.id,
            time: self.time,
            next_object: self.objects.next(),
            next_number: self.pending.next(),
            random: self.random,
            turns: self.turns,
            faults: self.faults,
            views,
            objects,
            known,
            subscriptions,
            pending,
            saved,
        })
    }

    /// What the weight of the world leaves of the room, or None where it is greater. Takes no memory.
    pub fn room_behind(&self, room: u32) -> Option<u32>
        ensures { IsRoomBehind result room (world_weight (world_of self.now)) }
    {
        let left = u64::from(room).checked_sub(self.objects.weight())?;
        let left = left.checked_sub(self.pending.weight())?;
        let left = left.checked_sub(self.topics.weight())?;
        let left = left.checked_sub(self.known.weight())?;
        let left = left.checked_sub(u64::from(self.saved.weight()))?;
        Some(left as u32)
    }

    /// How much more weight the world may hold, or None where it is heavier than a world may be. Takes no memory.
    pub fn room(&self) -> Option<u32>
        ensures { IsRoomBehind result most_world_weight (world_weight (world_of self.now)) }
    {
        self.room_behind(MOST_WORLD_WEIGHT)
    }
}

/// The same objects, as plain data.
fn copy_objects(alloc: Global, objects: &[Object]) -> Result<PlainObjects, WantOfMemory>
    ensures { IfOk result (λ new. map object_record new ≡ objects_seen objects.now) }
{
    let mut copies = Vec::with_capacity(alloc, objects.len())?;
    for object in objects {
        let fields = List::from_vec(copy_all(alloc, &object.fields)?);
        copies.push(PlainObject {
            id: object.id,
            class: object.class,
            fields,
        })?;
    }
    Ok(List::from_vec(copies))
}

/// The steps of a message.
const MOST_FUEL: u32 = 100_000;

/// The most statements and expressions that are open at a time.
const MOST_OPEN: u32 = 512;

/// What is left of what a message may take.
#[derive(Clone, Copy, Debug, PartialEq, Eq)]
pub struct Budget {
    /// The steps that are left.
    pub fuel: u32,
    /// How many more statements and expressions may be open.
    pub room: u32,
}

impl Budget {
    /// The budget of a whole message: 100,000 steps, and 512 statements and expressions open at a time.
    pub fn new() -> Budget
        ensures fuel { result.fuel ≡ most_fuel }
        ensures room { result.room ≡ most_open }
    {
        Budget {
            fuel: MOST_FUEL,
            room: MOST_OPEN,
        }
    }
}
