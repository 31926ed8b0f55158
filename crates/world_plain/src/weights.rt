//! The weight of a world, and what may still be added to it.
ghost use Rattle.std.specs.Prelude.{◌≤◌, ◌↔◌, ◌+◌, map, IsTrue};
ghost use Rattle.world_plain.specs.Messages.{plain_message};
ghost use Rattle.model_value.specs.Room.{IsRoomBehind};
ghost use Rattle.model_value.specs.View.{plain, plain_values};
ghost use Rattle.world_plain.specs.World.{object_record, world_record, object_weight, message_weight, subscription_weight, known_weight, total_weight, world_weight, most_world_weight};
ghost use Rattle.saved_value.specs.Saving.{saved_weight};
ghost use Rattle.model_value.specs.Plain.{weight as weight_of, text_weight, values_weight};

use crate::limits::MOST_WORLD_WEIGHT;
use crate::message::{Message, Subscription};
use crate::world::{Known, PlainObject, PlainWorld};
use model_value::{Value, Values, room_behind_text, room_behind_value, room_behind_values};
use tea_base::Text;

/// How much more weight a world may hold, from 0 to [`MOST_WORLD_WEIGHT`], or None where it is heavier than a world
/// may be.
///
/// An object weighs 2 and its fields. A pending message weighs 3, its method's name and its arguments. A subscription
/// weighs 2 and its three texts, and a known name 1 and its text. A saved value weighs as it does, and nil nothing. Texts
/// and values weigh as [`weight`](model_value::weight) says. Any world may be asked about.
pub fn room(world: &PlainWorld) -> Option<u32>
    ensures { IsRoomBehind result most_world_weight (world_weight (world_record world.now)) }
{
    let left = room_behind_objects(world.objects.as_slice(), MOST_WORLD_WEIGHT)?;
    let left = room_behind_messages(world.pending.as_slice(), left)?;
    let left = room_behind_subscriptions(world.subscriptions.as_slice(), left)?;
    let left = room_behind_known(world.known.as_slice(), left)?;
    room_behind_saved(&world.saved, left)
}

/// Whether a value fits into so much room: it weighs no more. Any value may be asked about.
pub fn value_fits(room: u32, value: &Value) -> bool
    ensures { IsTrue result ↔ weight_of (plain value.now) ≤ room }
{
    room_behind_value(value, room).is_some()
}

/// Whether an object with these fields fits into so much room: it weighs 2 and its fields.
pub fn object_fits(room: u32, fields: &Values) -> bool
    ensures { IsTrue result ↔ 2 + values_weight (plain_values fields.now) ≤ room }
{
    room_behind_fields(fields, room).is_some()
}

/// Whether a message with this method and these arguments fits into so much room: it weighs 3, its method's name and its
/// arguments.
pub fn message_fits(room: u32, method: &Text, args: &Values) -> bool
    ensures { IsTrue result ↔ 3 + text_weight method.now + values_weight (plain_values args.now) ≤ room }
{
    room_behind_call(method, args, room).is_some()
}

/// Whether a subscription fits into so much room: it weighs 2 and its three texts.
pub fn subscription_fits(room: u32, subscription: &Subscription) -> bool
    ensures { IsTrue result ↔ subscription_weight subscription.now ≤ room }
{
    room_behind_subscription(subscription, room).is_some()
}

/// What the weight of an object with these fields leaves of the room. So below for each kind.
fn room_behind_fields(fields: &Values, room: u32) -> Option<u32>
    ensures { IsRoomBehind result room (2 + values_weight (plain_values fields.now)) }
{
    room_behind_values(fields, room.checked_sub(2)?)
}

fn room_behind_objects(objects: &[PlainObject], room: u32) -> Option<u32>
    ensures { IsRoomBehind result room (total_weight object_weight (map object_record objects.now)) }
{
    let mut left = room;
    for object in objects {
        left = room_behind_fields(&object.fields, left)?;
    }
    Some(left)
}

fn room_behind_call(method: &Text, args: &Values, room: u32) -> Option<u32>
    ensures { IsRoomBehind result room (3 + text_weight method.now + values_weight (plain_values args.now)) }
{
    let left = room_behind_text(method, room.checked_sub(3)?)?;
    room_behind_values(args, left)
}

fn room_behind_messages(messages: &[Message], room: u32) -> Option<u32>
    ensures { IsRoomBehind result room (total_weight message_weight (map plain_message messages.now)) }
{
    let mut left = room;
    for message in messages {
        left = room_behind_call(&message.method, &message.args, left)?;
    }
    Some(left)
}

fn room_behind_subscription(subscription: &Subscription, room: u32) -> Option<u32>
    ensures { IsRoomBehind result room (subscription_weight subscription.now) }
{
    let left = room_behind_text(&subscription.scope, room.checked_sub(2)?)?;
    let left = room_behind_text(&subscription.event, left)?;
    room_behind_text(&subscription.method, left)
}

fn room_behind_subscriptions(subscriptions: &[Subscription], room: u32) -> Option<u32>
    ensures { IsRoomBehind result room (total_weight subscription_weight subscriptions.now) }
{
    let mut left = room;
    for subscription in subscriptions {
        left = room_behind_subscription(subscription, left)?;
    }
    Some(left)
}

fn room_behind_known(known: &[Known], room: u32) -> Option<u32>
    ensures { IsRoomBehind result room (total_weight known_weight known.now) }
{
    let mut left = room;
    for one in known {
        left = room_behind_name(one, left)?;
    }
    Some(left)
}

fn room_behind_name(known: &Known, room: u32) -> Option<u32>
    ensures { IsRoomBehind result room (known_weight known.now) }
{
    room_behind_text(&known.name, room.checked_sub(1)?)
}

fn room_behind_saved(saved: &Value, room: u32) -> Option<u32>
    ensures { IsRoomBehind result room (saved_weight (plain saved.now)) }
{
    match saved {
        Value::Nil => Some(room),
        _ => room_behind_value(saved, room),
    }
}
