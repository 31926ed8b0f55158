//! Which worlds are valid for a program.
ghost use Rattle.std.specs.Prelude.{◌≡◌, ◌≤◌, ◌<◌, ◌↔◌, length, map, IsTrue};
ghost use Rattle.world_plain.specs.ValidTest.{is_valid};
ghost use Rattle.tea_base.specs.Limits.{time_limit, most_here};
ghost use Rattle.world_plain.specs.Valid.{most_turns, most_objects, most_subscriptions, most_messages, RiseFrom, ObjectsFit, KnownRise, KnownFit, SubscriptionsFit, AreInOrder, MessagesFit, Valid};
ghost use Rattle.world_plain.specs.Messages.{plain_message};
ghost use Rattle.world_plain.specs.World.{object_record, world_record, world_weight, most_world_weight};
ghost use Rattle.world_plain.specs.Ids.{HaveRisingIds};

use crate::limits::{MOST_MESSAGES, MOST_OBJECTS, MOST_SUBSCRIPTIONS, MOST_TURNS, MOST_VIEWS};
use crate::messages::{are_in_order, messages_fit, numbers_differ};
use crate::objects::{ids_rise, names_fit, names_rise, objects_fit};
use crate::subscriptions::{subscriptions_differ, subscriptions_fit};
use crate::weights::room;
use crate::world::PlainWorld;
use saved_value::can_be_saved;
use tea_base::TIME_LIMIT;

/// Whether a world is valid for a program, which is told by the numbers of fields of its classes, in their order. Any world
/// may be asked about, and it takes no memory.
///
/// - Its time is below 2^53 microseconds, the next object's number is at least 1, and at most 1,024 turns are counted.
/// - Its views rise, and none is 0. There are at most 1,024.
/// - Its objects stand by rising number from 1, each below the next object's number. There are at most 4,096. Each is of
///   a class of the program, has as many fields as that declares, and holds values in bounds.
/// - Its known names rise by their characters, and each names an object that is held.
/// - Its subscriptions differ from each other, and each is of an object that is held. There are at most 16,384.
/// - Its pending messages stand by rising time and number. There are at most 16,384. None is due before the world's time,
///   or at 2^53 or later. Their numbers differ from each other, and are below the next message's number. Each is for an
///   object that is held, and has at most 16 arguments, each in bounds.
/// - Its saved value is in bounds, and there is no object in it.
/// - Each text weighs at most 4,096, and the world at most 131,072.
pub fn valid(world: &PlainWorld, counts: &[u32]) -> bool
    ensures valid { IsTrue result ↔ Valid counts.now (world_record world.now) }
    ensures test { result ≡ is_valid counts.now (world_record world.now) }
{
    has_valid_parts(world, counts)
}

fn has_valid_parts(world: &PlainWorld, counts: &[u32]) -> bool
    ensures { IsTrue result ↔ Valid counts.now (world_record world.now) }
{
    // Each value is found in bounds before the world is weighed, since weighing goes as deep as its lists nest. The counts
    // come first, and the sorts last, so that what is sorted is few and light.
    has_few_parts(world)
        && has_fit_numbers(world)
        && rise(world.views.as_slice())
        && has_fit_objects(world, counts)
        && has_fit_names(world)
        && has_fit_subscriptions(world)
        && has_fit_messages(world)
        && can_be_saved(&world.saved)
        && is_light(world)
        && subscriptions_differ(world.subscriptions.as_slice())
        && numbers_differ(world.pending.as_slice())
}

/// Whether there are no more views, objects, subscriptions and pending messages than there may be.
fn has_few_parts(world: &PlainWorld) -> bool
    ensures { let w = world_record world.now in
        IsTrue result ↔ ((length w.views ≤ most_here) × (length w.objects ≤ most_objects)
        × (length w.subscriptions ≤ most_subscriptions) × (length w.pending ≤ most_messages)) }
{
    world.views.len() <= MOST_VIEWS
        && world.objects.len() <= MOST_OBJECTS
        && world.subscriptions.len() <= MOST_SUBSCRIPTIONS
        && world.pending.len() <= MOST_MESSAGES
}

fn has_fit_numbers(world: &PlainWorld) -> bool
    ensures { let w = world_record world.now in
        IsTrue result ↔ ((w.time < time_limit) × (1 ≤ w.next_object) × (w.turns ≤ most_turns)) }
{
    world.time < TIME_LIMIT && 1 <= world.next_object && world.turns <= MOST_TURNS
}

fn is_light(world: &PlainWorld) -> bool
    ensures { IsTrue result ↔ world_weight (world_record world.now) ≤ most_world_weight }
{
    room(world).is_some()
}

/// Whether numbers rise from 1 at least.
fn rise(numbers: &[u32]) -> bool
    ensures { IsTrue result ↔ RiseFrom 0 numbers.now }
{
    let mut last = 0;
    for number in numbers {
        if *number <= last {
            return false;
        }
        last = *number;
    }
    true
}

fn has_fit_objects(world: &PlainWorld, counts: &[u32]) -> bool
    ensures { let objects = map object_record world.now.objects in
        IsTrue result ↔ (HaveRisingIds objects × ObjectsFit counts.now world.now.next_object objects) }
{
    let objects = world.objects.as_slice();
    ids_rise(objects) && objects_fit(objects, world.next_object, counts)
}

fn has_fit_names(world: &PlainWorld) -> bool
    requires { HaveRisingIds (map object_record world.now.objects) }
    ensures { IsTrue result ↔ (KnownRise world.now.known
        × KnownFit (map object_record world.now.objects) world.now.known) }
{
    let known = world.known.as_slice();
    names_rise(known) && names_fit(known, world.objects.as_slice())
}

fn has_fit_subscriptions(world: &PlainWorld) -> bool
    requires { HaveRisingIds (map object_record world.now.objects) }
    ensures { IsTrue result ↔ SubscriptionsFit (map object_record world.now.objects) world.now.subscriptions }
{
    subscriptions_fit(world.subscriptions.as_slice(), world.objects.as_slice())
}

fn has_fit_messages(world: &PlainWorld) -> bool
    requires { HaveRisingIds (map object_record world.now.objects) }
    ensures { let messages = map plain_message world.now.pending in
        IsTrue result ↔ (AreInOrder messages
        × MessagesFit world.now.time world.now.next_number (map object_record world.now.objects) messages) }
{
    let messages = world.pending.as_slice();
    are_in_order(messages) && messages_fit(world, messages)
}
