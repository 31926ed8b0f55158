//! Messages as a heap: none is due before its parent, which for the message at index k > 0 is at (k - 1) / 2.
ghost use Rattle.std.specs.Prelude.{◌≡◌, ◌≤◌, ◌<◌, ◌+◌, ◌*◌, ◌-◌, [], ◌∷◌, length, slice_index_or, IfSome, IfNone, OnOk, OnErr};
ghost use Rattle.std.specs.Ordering.{is_lt};
ghost use Rattle.std.specs.List.Sorted.{IsPermutation, IsSortedBy};
ghost use Rattle.std.specs.Slice.Heapsort.{IsHeapWithin, IsNotBelowChildren};
ghost use Rattle.world_plain.specs.Messages.{plain_message};
ghost use Rattle.world_plain.specs.ValidTest.{is_due_before as is_before};
ghost use Rattle.message_queue.specs.Heap.{IsHeap, CountsFew, is_sooner, is_later};

use crate::steps::Steps;
use std::cmp::Ordering;
use std::marker::Brand;
use std::sync::ledger::{Blank, Ledger};
use tea_base::WantOfMemory;
use world_plain::Message;

/// How a message stands to another: by time, and at one time by number.
fn due_order(one: &Message, other: &Message) -> Ordering
    ensures { is_lt result ≡ is_before (plain_message one.now) (plain_message other.now) }
{
    one.time
        .cmp(&other.time)
        .then(one.number.cmp(&other.number))
}

/// Whether a message is due before another: at a lower time, or at the same time with a lower number.
fn precedes(one: &Message, other: &Message) -> bool
    ensures { result ≡ is_before (plain_message one.now) (plain_message other.now) }
{
    due_order(one, other).is_lt()
}

/// Whether a message is due before another. The comparison is counted.
fn precedes_counted<L: Ledger>(one: &Message, other: &Message, steps: &mut Steps<L>) -> bool
    ensures answer { result ≡ is_before (plain_message one.now) (plain_message other.now) }
    ensures count { steps.new ≡ steps.old + 1 }
{
    steps.tick(); // for the prover
    precedes(one, other)
}

/// Sorts messages by time, and at one time by number. Takes no memory.
pub fn put_in_order(messages: &mut Vec<Message>)
    ensures held { IsPermutation messages.old.items messages.new.items }
    ensures sorted { IsSortedBy is_sooner messages.new.items }
{
    messages.sort_unstable_by(due_order);
}

/// Makes a heap of messages, in time linear in their number. Takes no memory.
pub fn make_heap(messages: &mut Vec<Message>)
    ensures held { IsPermutation messages.old.items messages.new.items }
    ensures heap { IsHeap messages.new.items }
{
    sink_all::<Brand>(messages.as_mut_slice(), Blank::new(1));
}

/// Adds a message to a heap. Without memory the messages stay as they were.
pub fn insert(messages: &mut Vec<Message>, message: Message) -> Result<(), WantOfMemory>
    requires { IsHeap messages.old.items }
    ensures held { OnOk result (IsPermutation (message ∷ messages.old.items) messages.new.items) }
    ensures heap { OnOk result (IsHeap messages.new.items) }
    ensures err { OnErr result (messages.new.items ≡ messages.old.items) }
{
    messages.push(message)?;
    rise(messages.as_mut_slice());
    Ok(())
}

/// Takes the first message out of a heap, if there is one. Takes no memory.
pub fn take_first<L: Ledger>(messages: &mut Vec<Message>, steps: &mut Steps<L>) -> Option<Message>
    requires { IsHeap messages.old.items }
    ensures held { IfSome result (λ m. IsPermutation messages.old.items (m ∷ messages.new.items)) }
    ensures first { IfSome result (λ m. m ≡ slice_index_or messages.old.items 0 m) }
    ensures none { IfNone result ((messages.old.items ≡ []) × (messages.new.items ≡ [])) }
    ensures heap { IsHeap messages.new.items }
    ensures count { CountsFew (length messages.old.items) steps.old steps.new }
{
    if messages.is_empty() {
        return None;
    }
    let first = messages.swap_remove(0);
    sink(messages.as_mut_slice(), 0, steps);
    Some(first)
}

/// Moves the last message up, where those before it are a heap, until it is not due before its parent.
fn rise(messages: &mut [Message])
    requires { IsHeapWithin is_later messages.old 0 (length messages.old - 1) }
    ensures held { IsPermutation messages.old messages.new }
    ensures heap { IsHeap messages.new }
{
    let mut at = messages.len().saturating_sub(1);
    while at > 0 {
        let parent = (at - 1) / 2;
        if !precedes(&messages[at], &messages[parent]) {
            return;
        }
        messages.swap(at, parent);
        at = parent;
    }
}

/// Moves each message down that has a child, the last one first. Comparisons are counted by a counter of its own.
fn sink_all<L: Ledger>(messages: &mut [Message], blank: Blank)
    requires name { blank.name ≡ L.name }
    requires parts { blank.parts ≡ L.parts }
    requires some { 0 < blank.parts }
    ensures held { IsPermutation messages.old messages.new }
    ensures heap { IsHeap messages.new }
{
    let mut steps = Steps::<L>::new(blank);
    let mut at = messages.len() / 2;
    while at > 0 {
        at -= 1;
        sink(messages, at, &mut steps);
    }
}

/// Moves the message at a place down, where those behind it are in heap order, until no child is due before it.
fn sink<L: Ledger>(messages: &mut [Message], place: usize, steps: &mut Steps<L>)
    requires within { place ≤ length messages.old }
    requires behind { IsHeapWithin is_later messages.old (place + 1) (length messages.old) }
    ensures held { IsPermutation messages.old messages.new }
    ensures heap { IsHeapWithin is_later messages.new place (length messages.new) }
    ensures count { CountsFew (length messages.old) steps.old steps.new }
{
    let mut at = place;
    while at < messages.len() / 2 {
        let child = sooner_child(messages, at, steps);
        if !precedes_counted(&messages[child], &messages[at], steps) {
            return;
        }
        messages.swap(at, child);
        at = child;
    }
}

/// The child of a message that is due before the other one, or the only one.
fn sooner_child<L: Ledger>(messages: &[Message], at: usize, steps: &mut Steps<L>) -> usize
    requires { at * 2 + 1 < length messages.now }
    ensures child { (at * 2 + 1 ≤ result) × (result ≤ at * 2 + 2) × (result < length messages.now) }
    ensures sooner { IsNotBelowChildren is_later messages.now at result (length messages.now) }
    ensures count { (steps.old ≤ steps.new) × (steps.new ≤ steps.old + 1) }
{
    let left = 2 * at + 1;
    let right = left + 1;
    if right == messages.len() {
        return left;
    }
    if precedes_counted(&messages[right], &messages[left], steps) {
        right
    } else {
        left
    }
}
