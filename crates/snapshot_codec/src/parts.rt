//! The parts of a world, read from their spelling. No count is trusted: memory is taken only as items come.
ghost use Rattle.std.specs.Prelude.{◌≡◌, [], length, map, slice_get};
ghost use Rattle.std.specs.Int.{w32};
ghost use Rattle.std.specs.Option.{option_map};
ghost use Rattle.byte_fields.specs.Fields.{Decodes, byte_at, bytes_at, number_at, headed_at, items_at, list_at};
ghost use Rattle.world_plain.specs.Messages.{plain_message};
ghost use Rattle.model_value.specs.View.{plain, plain_values};
ghost use Rattle.world_plain.specs.World.{object_record, world_record};
ghost use Rattle.model_value.specs.declared.fault.ValueFault.TheVariants.{BadValue};
ghost use Rattle.snapshot_codec.specs.Reading.{values_at, fields_at, object_record_at, known_at, subscription_at, message_at, singles_at, faults_at, rows_at, something_at, saved_in, world_in};

use crate::values::is_nil;
use byte_fields::{bytes_at, u8_at, u16_at, u32_at, u64_at};
use model_value::{Value, ValueFault, Values, bounded_at, owned_text_at};
use std::alloc::Global;
use tea_base::{List, Numbers, SessionId};
use world_plain::{
    Known, KnownNames, Message, Messages, PlainObject, PlainObjects, PlainWorld, Subscription,
    Subscriptions,
};

/// The world that all of the bytes spell, valid or not; of a class of the program each object has as many fields as that
/// declares.
#[tactic(auto, unfolding(crate::specs::Reading::world_in, crate::specs::Reading::front_at))]
pub fn read_all(alloc: Global, counts: &[u32], bytes: &[u8]) -> Result<PlainWorld, ValueFault>
    ensures { Decodes BadValue world_record result (world_in counts.now bytes.now) }
{
    let (id, rest) = id_at(bytes).ok_or(ValueFault::BadValue)?;
    let (singles, rest) = singles_at(rest).ok_or(ValueFault::BadValue)?;
    let (faults, rest) = faults_at(rest).ok_or(ValueFault::BadValue)?;
    let (rows, rest) = rows_at(alloc, counts, rest)?;
    let saved = saved_in(alloc, rest)?;
    Ok(PlainWorld {
        id,
        time: singles.time,
        next_object: singles.next_object,
        next_number: singles.next_number,
        random: singles.random,
        turns: singles.turns,
        faults,
        views: rows.views,
        objects: rows.objects,
        known: rows.known,
        subscriptions: rows.subscriptions,
        pending: rows.pending,
        saved,
    })
}

/// The saved value that all of the bytes spell: nil where there are none, and else another value.
#[tactic(auto, unfolding(crate::specs::Reading::saved_in))]
fn saved_in(alloc: Global, bytes: &[u8]) -> Result<Value, ValueFault>
    ensures { Decodes BadValue plain result (saved_in bytes.now) }
{
    if bytes.is_empty() {
        return Ok(Value::Nil);
    }
    let (value, rest) = something_at(alloc, bytes)?;
    if !rest.is_empty() {
        return Err(ValueFault::BadValue);
    }
    Ok(value)
}

// Each reader below gives what its bytes begin with, and the bytes behind it.

/// A value other than nil.
fn something_at(alloc: Global, bytes: &[u8]) -> Result<(Value, &[u8]), ValueFault>
    ensures { Decodes BadValue (λ x. (plain x.0, x.1.now)) result (something_at bytes.now) }
{
    let (value, rest) = bounded_at(alloc, bytes)?;
    if is_nil(&value) {
        return Err(ValueFault::BadValue);
    }
    Ok((value, rest))
}

/// The id of a session.
pub fn id_at(bytes: &[u8]) -> Option<(SessionId, &[u8])>
    ensures { option_map (λ x. (x.0.0, x.1.now)) result ≡ bytes_at 32 bytes.now }
{
    let (front, rest) = bytes_at(bytes, 32)?;
    Some((id_of(front), rest))
}

fn id_of(bytes: &[u8]) -> SessionId
    requires { length bytes.now ≡ 32 }
    ensures { result.0 ≡ bytes.now }
{
    let mut id = [0; 32];
    id.copy_from_slice(bytes);
    SessionId(id)
}

/// The numbers of a world that it has one of.
#[derive(Clone, Copy)]
struct Singles {
    time: u64,
    next_object: u32,
    next_number: u64,
    random: u64,
    turns: u32,
}

#[tactic(auto, unfolding(crate::specs::Reading::singles_at))]
fn singles_at(bytes: &[u8]) -> Option<(Singles, &[u8])>
    ensures { option_map (λ x. ((x.0.time, (x.0.next_object, (x.0.next_number, (x.0.random, x.0.turns)))), x.1.now))
        result ≡ singles_at bytes.now }
{
    let (time, rest) = u64_at(bytes)?;
    let (next_object, rest) = u32_at(rest)?;
    let (next_number, rest) = u64_at(rest)?;
    let (random, rest) = u64_at(rest)?;
    let (turns, rest) = u32_at(rest)?;
    let singles = Singles {
        time,
        next_object,
        next_number,
        random,
        turns,
    };
    Some((singles, rest))
}

fn faults_at(bytes: &[u8]) -> Option<([u64; 14], &[u8])>
    ensures { option_map (λ x. (x.0, x.1.now)) result ≡ faults_at bytes.now }
{
    let mut faults = [0; 14];
    let mut rest = bytes;
    for i in 0..14 {
        let (count, after) = u64_at(rest)?;
        faults[i] = count;
        rest = after;
    }
    Some((faults, rest))
}

/// What a world lists.
#[derive(Drop)]
struct Rows {
    views: Numbers,
    objects: PlainObjects,
    known: KnownNames,
    subscriptions: Subscriptions,
    pending: Messages,
}

#[tactic(auto, unfolding(crate::specs::Reading::rows_at))]
fn rows_at<'a>(
    alloc: Global,
    counts: &[u32],
    bytes: &'a [u8],
) -> Result<(Rows, &'a [u8]), ValueFault>
    ensures { Decodes BadValue (λ x. (
      (x.0.views, (map object_record x.0.objects, (x.0.known, (x.0.subscriptions, map plain_message x.0.pending)))),
      x.1.now,
    )) result
        (rows_at counts.now bytes.now) }
{
    let (views, rest) = views_at(alloc, bytes)?;
    let (objects, rest) = objects_at(alloc, counts, rest)?;
    let (known, rest) = known_names_at(alloc, rest)?;
    let (subscriptions, rest) = subscriptions_at(alloc, rest)?;
    let (pending, rest) = messages_at(alloc, rest)?;
    let rows = Rows {
        views,
        objects,
        known,
        subscriptions,
        pending,
    };
    Ok((rows, rest))
}

fn views_at(alloc: Global, bytes: &[u8]) -> Result<(Numbers, &[u8]), ValueFault>
    ensures { Decodes BadValue (λ x. (x.0, x.1.now)) result (list_at (λ _. number_at w32) bytes.now) }
{
    let (count, rest) = u32_at(bytes).ok_or(ValueFault::BadValue)?;
    views_of(alloc, count, rest)
}

fn views_of(alloc: Global, count: u32, bytes: &[u8]) -> Result<(Numbers, &[u8]), ValueFault>
    ensures { Decodes BadValue (λ x. (x.0, x.1.now)) result (items_at (λ _. number_at w32) [] count bytes.now) }
{
    let mut views = List::new(alloc);
    let mut rest = bytes;
    for _ in 0..count {
        let (view, after) = u32_at(rest).ok_or(ValueFault::BadValue)?;
        views.push(view)?;
        rest = after;
    }
    Ok((views, rest))
}

fn objects_at<'a>(
    alloc: Global,
    counts: &[u32],
    bytes: &'a [u8],
) -> Result<(PlainObjects, &'a [u8]), ValueFault>
    ensures { Decodes BadValue (λ x. (map object_record x.0, x.1.now)) result
        (list_at (λ _. object_record_at counts.now) bytes.now) }
{
    let (count, rest) = u32_at(bytes).ok_or(ValueFault::BadValue)?;
    objects_of(alloc, counts, count, rest)
}

fn objects_of<'a>(
    alloc: Global,
    counts: &[u32],
    count: u32,
    bytes: &'a [u8],
) -> Result<(PlainObjects, &'a [u8]), ValueFault>
    ensures { Decodes BadValue (λ x. (map object_record x.0, x.1.now)) result
        (items_at (λ _. object_record_at counts.now) [] count bytes.now) }
{
    let mut objects = List::new(alloc);
    let mut rest = bytes;
    for _ in 0..count {
        let (object, after) = plain_object_at(alloc, counts, rest)?;
        objects.push(object)?;
        rest = after;
    }
    Ok((objects, rest))
}

#[tactic(auto, unfolding(crate::specs::Reading::object_record_at))]
fn plain_object_at<'a>(
    alloc: Global,
    counts: &[u32],
    bytes: &'a [u8],
) -> Result<(PlainObject, &'a [u8]), ValueFault>
    ensures { Decodes BadValue (λ x. (object_record x.0, x.1.now)) result (object_record_at counts.now bytes.now) }
{
    let (id, rest) = u32_at(bytes).ok_or(ValueFault::BadValue)?;
    let (class, rest) = u16_at(rest).ok_or(ValueFault::BadValue)?;
    let (fields, rest) = fields_at(alloc, counts, class, rest)?;
    Ok((PlainObject { id, class, fields }, rest))
}

/// The fields of an object of a class.
fn fields_at<'a>(
    alloc: Global,
    counts: &[u32],
    class: u16,
    bytes: &'a [u8],
) -> Result<(Values, &'a [u8]), ValueFault>
    ensures { Decodes BadValue (λ x. (plain_values x.0, x.1.now)) result
        (fields_at (slice_get counts.now class) bytes.now) }
{
    match counts.get(class as usize) {
        Some(count) => values_at(alloc, *count, bytes),
        None => Err(ValueFault::BadValue),
    }
}

fn values_at(alloc: Global, count: u32, bytes: &[u8]) -> Result<(Values, &[u8]), ValueFault>
    ensures { Decodes BadValue (λ x. (plain_values x.0, x.1.now)) result (values_at count bytes.now) }
{
    let mut values = List::new(alloc);
    let mut rest = bytes;
    for _ in 0..count {
        let (value, after) = bounded_at(alloc, rest)?;
        values.push(value)?;
        rest = after;
    }
    Ok((values, rest))
}

fn known_names_at(alloc: Global, bytes: &[u8]) -> Result<(KnownNames, &[u8]), ValueFault>
    ensures { Decodes BadValue (λ x. (x.0, x.1.now)) result (list_at (λ _. known_at) bytes.now) }
{
    let (count, rest) = u32_at(bytes).ok_or(ValueFault::BadValue)?;
    known_names_of(alloc, count, rest)
}

fn known_names_of(
    alloc: Global,
    count: u32,
    bytes: &[u8],
) -> Result<(KnownNames, &[u8]), ValueFault>
    ensures { Decodes BadValue (λ x. (x.0, x.1.now)) result (items_at (λ _. known_at) [] count bytes.now) }
{
    let mut names = List::new(alloc);
    let mut rest = bytes;
    for _ in 0..count {
        let (name, after) = known_at(alloc, rest)?;
        names.push(name)?;
        rest = after;
    }
    Ok((names, rest))
}

#[tactic(auto, unfolding(crate::specs::Reading::known_at))]
fn known_at(alloc: Global, bytes: &[u8]) -> Result<(Known, &[u8]), ValueFault>
    ensures { Decodes BadValue (λ x. (x.0, x.1.now)) result (known_at bytes.now) }
{
    let (name, rest) = owned_text_at(alloc, bytes)?;
    let (object, rest) = u32_at(rest).ok_or(ValueFault::BadValue)?;
    Ok((Known { name, object }, rest))
}

fn subscriptions_at(alloc: Global, bytes: &[u8]) -> Result<(Subscriptions, &[u8]), ValueFault>
    ensures { Decodes BadValue (λ x. (x.0, x.1.now)) result (list_at (λ _. subscription_at) bytes.now) }
{
    let (count, rest) = u32_at(bytes).ok_or(ValueFault::BadValue)?;
    subscriptions_of(alloc, count, rest)
}

fn subscriptions_of(
    alloc: Global,
    count: u32,
    bytes: &[u8],
) -> Result<(Subscriptions, &[u8]), ValueFault>
    ensures { Decodes BadValue (λ x. (x.0, x.1.now)) result (items_at (λ _. subscription_at) [] count bytes.now) }
{
    let mut subscriptions = List::new(alloc);
    let mut rest = bytes;
    for _ in 0..count {
        let (subscription, after) = subscription_at(alloc, rest)?;
        subscriptions.push(subscription)?;
        rest = after;
    }
    Ok((subscriptions, rest))
}

#[tactic(auto, unfolding(crate::specs::Reading::subscription_at))]
fn subscription_at(alloc: Global, bytes: &[u8]) -> Result<(Subscription, &[u8]), ValueFault>
    ensures { Decodes BadValue (λ x. (x.0, x.1.now)) result (subscription_at bytes.now) }
{
    let (scope, rest) = owned_text_at(alloc, bytes)?;
    let (event, rest) = owned_text_at(alloc, rest)?;
    let (object, rest) = u32_at(rest).ok_or(ValueFault::BadValue)?;
    let (method, rest) = owned_text_at(alloc, rest)?;
    let subscription = Subscription {
        scope,
        event,
        object,
        method,
    };
    Ok((subscription, rest))
}

fn messages_at(alloc: Global, bytes: &[u8]) -> Result<(Messages, &[u8]), ValueFault>
    ensures { Decodes BadValue (λ x. (map plain_message x.0, x.1.now)) result (list_at (λ _. message_at) bytes.now) }
{
    let (count, rest) = u32_at(bytes).ok_or(ValueFault::BadValue)?;
    messages_of(alloc, count, rest)
}

fn messages_of(alloc: Global, count: u32, bytes: &[u8]) -> Result<(Messages, &[u8]), ValueFault>
    ensures { Decodes BadValue (λ x. (map plain_message x.0, x.1.now)) result
        (items_at (λ _. message_at) [] count bytes.now) }
{
    let mut messages = List::new(alloc);
    let mut rest = bytes;
    for _ in 0..count {
        let (message, after) = message_at(alloc, rest)?;
        messages.push(message)?;
        rest = after;
    }
    Ok((messages, rest))
}

#[tactic(auto, unfolding(crate::specs::Reading::message_at))]
fn message_at(alloc: Global, bytes: &[u8]) -> Result<(Message, &[u8]), ValueFault>
    ensures { Decodes BadValue (λ x. (plain_message x.0, x.1.now)) result (message_at bytes.now) }
{
    let (time, rest) = u64_at(bytes).ok_or(ValueFault::BadValue)?;
    let (number, rest) = u64_at(rest).ok_or(ValueFault::BadValue)?;
    let (object, rest) = u32_at(rest).ok_or(ValueFault::BadValue)?;
    let (method, rest) = owned_text_at(alloc, rest)?;
    let (args, rest) = arguments_at(alloc, rest)?;
    let message = Message {
        time,
        number,
        object,
        method,
        args,
    };
    Ok((message, rest))
}

fn arguments_at(alloc: Global, bytes: &[u8]) -> Result<(Values, &[u8]), ValueFault>
    ensures { Decodes BadValue (λ x. (plain_values x.0, x.1.now)) result (headed_at byte_at values_at bytes.now) }
{
    let (count, rest) = u8_at(bytes).ok_or(ValueFault::BadValue)?;
    values_at(alloc, u32::from(count), rest)
}
