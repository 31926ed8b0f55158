//! What is asked of the pending messages of a world.
ghost use Rattle.std.specs.Prelude.{◌≡◌, ◌≤◌, ◌<◌, ◌↔◌, map, length, slice_get, IsTrue};
ghost use Rattle.std.specs.Option.{option_map};
ghost use Rattle.world_plain.specs.Messages.{plain_message};
ghost use Rattle.world_plain.specs.Valid.{most_messages, Precedes, AreInOrder, NumbersDiffer, MessageFits, MessagesFit};
ghost use Rattle.world_plain.specs.World.{object_record};
ghost use Rattle.world_plain.specs.Ids.{HaveRisingIds};

use crate::limits::{MOST_ARGUMENTS, MOST_MESSAGES};
use crate::message::Message;
use crate::objects::is_held;
use crate::places::number_places;
use crate::world::PlainWorld;
use model_value::{are_in_bounds, text_fits};
use tea_base::TIME_LIMIT;

/// Whether messages stand by rising time and number.
pub fn are_in_order(messages: &[Message]) -> bool
    ensures { IsTrue result ↔ AreInOrder (map plain_message messages.now) }
{
    // The order is transitive, so neighbours tell.
    for i in 1..messages.len() {
        if !precedes(&messages[i - 1], &messages[i]) {
            return false;
        }
    }
    true
}

fn precedes(message: &Message, other: &Message) -> bool
    ensures { IsTrue result ↔ Precedes (plain_message message.now) (plain_message other.now) }
{
    message.time < other.time || (message.time == other.time && message.number < other.number)
}

/// Whether no two messages have the same number. It sorts their places, and takes no memory.
pub fn numbers_differ(messages: &[Message]) -> bool
    requires { length messages.now ≤ most_messages }
    ensures { IsTrue result ↔ NumbersDiffer (map plain_message messages.now) }
{
    let mut all = [0; MOST_MESSAGES];
    let places = &mut all[..messages.len()];
    number_places(places);
    places.sort_unstable_by_key(|place| number_at(messages, *place));
    places.is_sorted_by(|a, b| number_at(messages, *a) < number_at(messages, *b))
}

/// The number of the message at a place, if one is there.
fn number_at(messages: &[Message], place: u16) -> Option<u64>
    ensures { result ≡ option_map (λ m. m.number) (slice_get (map plain_message messages.now) place) }
{
    Some(messages.get(usize::from(place))?.number)
}

/// Whether each message is one that is still to come in the world, for an object that is held.
pub fn messages_fit(world: &PlainWorld, messages: &[Message]) -> bool
    requires { HaveRisingIds (map object_record world.now.objects) }
    ensures { IsTrue result ↔ MessagesFit world.now.time world.now.next_number (map object_record world.now.objects)
        (map plain_message messages.now) }
{
    for message in messages {
        if !is_valid_message(world, message) {
            return false;
        }
    }
    true
}

fn is_valid_message(world: &PlainWorld, message: &Message) -> bool
    requires { HaveRisingIds (map object_record world.now.objects) }
    ensures { IsTrue result ↔ MessageFits world.now.time world.now.next_number (map object_record world.now.objects)
        (plain_message message.now) }
{
    world.time <= message.time
        && message.time < TIME_LIMIT
        && message.number < world.next_number
        && is_held(world.objects.as_slice(), message.object)
        && text_fits(&message.method)
        && message.args.len() <= MOST_ARGUMENTS
        && are_in_bounds(message.args.as_slice())
}
