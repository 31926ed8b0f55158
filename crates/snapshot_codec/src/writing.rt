//! The spelling of a world.
ghost use Rattle.std.specs.Prelude.{◌≡◌, ◌≤◌, ◌<◌, ◌^◌, ◌++◌, ◌∷◌, OnOk, IfOk, length, map};
ghost use Rattle.std.specs.Int.{to_be_bytes, w32, w64};
ghost use Rattle.std.specs.List.{flat_map, AllByRecursion};
ghost use Rattle.world_plain.specs.Messages.{plain_message};
ghost use Rattle.model_value.specs.Spelling.{value_spelling, IsValue};
ghost use Rattle.world_plain.specs.Valid.{most_arguments};
ghost use Rattle.model_value.specs.View.{plain, plain_values};
ghost use Rattle.world_plain.specs.World.{object_record, world_record, object_weight, message_weight, subscription_weight, known_weight, total_weight, most_world_weight};
ghost use Rattle.model_value.specs.Plain.{values_weight};
ghost use Rattle.saved_value.specs.Saving.{saved_weight};
ghost use Rattle.snapshot_codec.specs.Answer.{IsKnown, IsMessage, IsObject, IsSubscription, IsWorld};
ghost use Rattle.snapshot_codec.specs.Conditions.{IsValid, IsSmall, MessageHasFewArguments};
ghost use Rattle.tea_base.specs.Limits.{most_snapshot};
ghost use Rattle.byte_fields.specs.Fields.{list_of};
ghost use Rattle.snapshot_codec.specs.Spelling.{object_spelling, known_spelling, subscription_spelling, message_spelling, saved_spelling, world_spelling};

use byte_fields::Writer;
use model_value::{Value, Values, put_value};
use std::alloc::Global;
use tea_base::{Blob, WantOfMemory};
use world_plain::{Known, Message, PlainObject, PlainWorld, Subscription};

/// The one spelling of a world, in memory of its own. Numbers are big-endian. In this order:
///
/// - the id of the session, 32 bytes
/// - the time, 8 bytes
/// - the number of the next object, 4 bytes
/// - the number of the next message, 8 bytes
/// - the state of the random numbers, 8 bytes
/// - the turns, 4 bytes
/// - how often each of the 14 kinds of fault came, 8 bytes each
/// - the list of views: 4 bytes each
/// - the list of objects: the id in 4 bytes, the class in 2, and its fields as values
/// - the list of known names: a text, and the object in 4 bytes
/// - the list of subscriptions: the scope and the event as texts, the object in 4 bytes, and the method as a text
/// - the list of pending messages: the time in 8 bytes, the number in 8, the object in 4, the method as a text, how many
///   arguments there are in one byte, and these as values
/// - the saved value, where it is not nil
///
/// A text is how many bytes of UTF-8 (RFC 3629) it has, in 4 bytes, and these. A list is how many items it has, in 4
/// bytes, and these. A value is spelled as [`encode`](model_value::encode) spells it.
///
/// The world has to be valid for some program. There are at most 4,194,304 bytes. Fails for want of memory alone.
pub fn snapshot(alloc: Global, world: &PlainWorld) -> Result<Blob, WantOfMemory>
    requires { IsValid (world_record world.now) }
    ensures spelled { IfOk result (λ bytes. bytes ≡ world_spelling (world_record world.now)) }
    ensures short { IfOk result (λ bytes. length bytes ≤ most_snapshot) }
    // What is written is read again.
    ensures world { IfOk result (λ _. IsWorld (world_record world.now)) }
{
    let mut out = Writer::new(alloc);
    put_world(&mut out, world)?;
    Ok(out.done())
}

// Each writer below adds one spelling behind what was written before.

/// Writes a world.
#[tactic(auto, using(crate::proofs::Rows::by_rows, crate::proofs::Sizes::by_size))]
pub(crate) fn put_world(out: &mut Writer, world: &PlainWorld) -> Result<(), WantOfMemory>
    requires { IsSmall (world_record world.now) }
    ensures spelled { OnOk result (out.new ≡ out.old ++ world_spelling (world_record world.now)) }
    ensures short { OnOk result (length (world_spelling (world_record world.now)) ≤ most_snapshot) }
    ensures world { OnOk result (IsWorld (world_record world.now)) }
{
    put_id(out, &world.id.0)?;
    out.put_u64(world.time)?;
    out.put_u32(world.next_object)?;
    out.put_u64(world.next_number)?;
    out.put_u64(world.random)?;
    out.put_u32(world.turns)?;
    put_faults(out, &world.faults)?;
    put_views(out, world.views.as_slice())?;
    put_objects(out, world.objects.as_slice())?;
    put_known_names(out, world.known.as_slice())?;
    put_subscriptions(out, world.subscriptions.as_slice())?;
    put_messages(out, world.pending.as_slice())?;
    put_saved(out, &world.saved)
}

fn put_id(out: &mut Writer, id: &[u8; 32]) -> Result<(), WantOfMemory>
    ensures spelled { OnOk result (out.new ≡ out.old ++ id.now) }
    ensures bytes { length id.now ≡ 32 }
{
    out.put_bytes(id)
}

fn put_saved(out: &mut Writer, saved: &Value) -> Result<(), WantOfMemory>
    requires { saved_weight (plain saved.now) ≤ most_world_weight }
    ensures spelled { OnOk result (out.new ≡ out.old ++ saved_spelling (plain saved.now)) }
    ensures value { OnOk result (IsValue (plain saved.now)) }
{
    match saved {
        Value::Nil => Ok(()),
        _ => put_value(out, saved),
    }
}

fn put_faults(out: &mut Writer, faults: &[u64; 14]) -> Result<(), WantOfMemory>
    ensures spelled { OnOk result (out.new ≡ out.old ++ flat_map (to_be_bytes w64) faults.now) }
    ensures kinds { length faults.now ≡ 14 }
    ensures faults { OnOk result (AllByRecursion (λ n. n < 2 ^ 64) faults.now) }
{
    for count in faults {
        out.put_u64(*count)?;
    }
    Ok(())
}

fn put_views(out: &mut Writer, views: &[u32]) -> Result<(), WantOfMemory>
    requires { length views.now < 2 ^ 32 }
    ensures spelled { OnOk result (out.new ≡ out.old ++ list_of (to_be_bytes w32) views.now) }
    ensures views { OnOk result (AllByRecursion (λ n. n < 2 ^ 32) views.now) }
{
    out.put_count(views.len())?;
    for view in views {
        out.put_u32(*view)?;
    }
    Ok(())
}

fn put_values(out: &mut Writer, values: &Values) -> Result<(), WantOfMemory>
    requires { values_weight (plain_values values.now) ≤ most_world_weight }
    ensures spelled { OnOk result (out.new ≡ out.old ++ flat_map value_spelling (plain_values values.now)) }
    ensures values { OnOk result (AllByRecursion IsValue (plain_values values.now)) }
{
    for value in values.as_slice() {
        put_value(out, value)?;
    }
    Ok(())
}

#[tactic(auto, unfolding(crate::specs::Spelling::object_spelling))]
fn put_object(out: &mut Writer, object: &PlainObject) -> Result<(), WantOfMemory>
    requires { object_weight (object_record object.now) ≤ most_world_weight }
    ensures spelled { OnOk result (out.new ≡ out.old ++ object_spelling (object_record object.now)) }
    ensures object { OnOk result (IsObject (object_record object.now)) }
{
    out.put_u32(object.id)?;
    out.put_u16(object.class)?;
    put_values(out, &object.fields)
}

#[tactic(auto, using(crate::proofs::Sizes::by_count))]
fn put_objects(out: &mut Writer, objects: &[PlainObject]) -> Result<(), WantOfMemory>
    requires { total_weight object_weight (map object_record objects.now) ≤ most_world_weight }
    ensures spelled { OnOk result (out.new ≡ out.old ++ list_of object_spelling (map object_record objects.now)) }
    ensures objects { OnOk result (AllByRecursion IsObject (map object_record objects.now)) }
{
    out.put_count(objects.len())?;
    for object in objects {
        put_object(out, object)?;
    }
    Ok(())
}

#[tactic(auto, unfolding(crate::specs::Spelling::known_spelling))]
fn put_known(out: &mut Writer, known: &Known) -> Result<(), WantOfMemory>
    requires { known_weight known.now ≤ most_world_weight }
    ensures spelled { OnOk result (out.new ≡ out.old ++ known_spelling known.now) }
    ensures known { OnOk result (IsKnown known.now) }
{
    out.put_text(&known.name)?;
    out.put_u32(known.object)
}

#[tactic(auto, using(crate::proofs::Sizes::by_count))]
fn put_known_names(out: &mut Writer, known: &[Known]) -> Result<(), WantOfMemory>
    requires { total_weight known_weight known.now ≤ most_world_weight }
    ensures spelled { OnOk result (out.new ≡ out.old ++ list_of known_spelling known.now) }
    ensures known { OnOk result (AllByRecursion IsKnown known.now) }
{
    out.put_count(known.len())?;
    for one in known {
        put_known(out, one)?;
    }
    Ok(())
}

#[tactic(auto, unfolding(crate::specs::Spelling::subscription_spelling))]
fn put_subscription(out: &mut Writer, subscription: &Subscription) -> Result<(), WantOfMemory>
    requires { subscription_weight subscription.now ≤ most_world_weight }
    ensures spelled { OnOk result (out.new ≡ out.old ++ subscription_spelling subscription.now) }
    ensures subscription { OnOk result (IsSubscription subscription.now) }
{
    out.put_text(&subscription.scope)?;
    out.put_text(&subscription.event)?;
    out.put_u32(subscription.object)?;
    out.put_text(&subscription.method)
}

#[tactic(auto, using(crate::proofs::Sizes::by_count))]
fn put_subscriptions(out: &mut Writer, subscriptions: &[Subscription]) -> Result<(), WantOfMemory>
    requires { total_weight subscription_weight subscriptions.now ≤ most_world_weight }
    ensures spelled { OnOk result (out.new ≡ out.old ++ list_of subscription_spelling subscriptions.now) }
    ensures subscriptions { OnOk result (AllByRecursion IsSubscription subscriptions.now) }
{
    out.put_count(subscriptions.len())?;
    for subscription in subscriptions {
        put_subscription(out, subscription)?;
    }
    Ok(())
}

#[tactic(auto, using(crate::proofs::Rows::by_rows))]
fn put_message(out: &mut Writer, message: &Message) -> Result<(), WantOfMemory>
    requires few { MessageHasFewArguments (plain_message message.now) }
    requires light { message_weight (plain_message message.now) ≤ most_world_weight }
    ensures spelled { OnOk result (out.new ≡ out.old ++ message_spelling (plain_message message.now)) }
    ensures message { OnOk result (IsMessage (plain_message message.now)) }
{
    out.put_u64(message.time)?;
    out.put_u64(message.number)?;
    out.put_u32(message.object)?;
    out.put_text(&message.method)?;
    put_arguments(out, &message.args)
}

fn put_arguments(out: &mut Writer, arguments: &Values) -> Result<(), WantOfMemory>
    requires few { length (plain_values arguments.now) ≤ most_arguments }
    requires light { values_weight (plain_values arguments.now) ≤ most_world_weight }
    ensures spelled { OnOk result (out.new ≡ out.old ++ length (plain_values arguments.now)
        ∷ flat_map value_spelling (plain_values arguments.now)) }
    ensures values { OnOk result (AllByRecursion IsValue (plain_values arguments.now)) }
{
    out.put_u8(arguments.len() as u8)?;
    put_values(out, arguments)
}

#[tactic(auto, using(crate::proofs::Sizes::by_count))]
fn put_messages(out: &mut Writer, messages: &[Message]) -> Result<(), WantOfMemory>
    requires few { AllByRecursion MessageHasFewArguments (map plain_message messages.now) }
    requires light { total_weight message_weight (map plain_message messages.now) ≤ most_world_weight }
    ensures spelled { OnOk result (out.new ≡ out.old ++ list_of message_spelling (map plain_message messages.now)) }
    ensures messages { OnOk result (AllByRecursion IsMessage (map plain_message messages.now)) }
{
    out.put_count(messages.len())?;
    for message in messages {
        put_message(out, message)?;
    }
    Ok(())
}
