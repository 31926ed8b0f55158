//! The queue of a world's messages.
ghost use Rattle.std.specs.Prelude.{◌≡◌, ◌<◌, ◌≤◌, ◌+◌, length, map, IfOk, OnOk, OnErr};
ghost use Rattle.std.specs.Option.{option_map};
ghost use Rattle.world_plain.specs.Messages.{plain_message};
ghost use Rattle.model_value.specs.View.{plain_values};
ghost use Rattle.world_plain.specs.Valid.{IsUnused, most_messages};
ghost use Rattle.world_plain.specs.World.{message_weight, total_weight};
ghost use Rattle.std.specs.List.Sorted.{IsPermutation};
ghost use Rattle.message_queue.specs.Queue.{AreLightMessages, IsLightMessage, IsQueue, TakesLeast, Pushes, empty_queue, least_of, new_message, queue_with, without_calls, without_messages_to};
ghost use Rattle.message_queue.specs.Heap.{CountsFew, IsHeap};
ghost use Rattle.message_queue.specs.View.{messages_seen};

use crate::heap::{insert, make_heap, put_in_order, take_first};
use crate::pending::{message_weight_of, remove_calls, remove_object, weight_of};
use crate::steps::Steps;
use model_value::Values;
use std::alloc::Global;
use std::marker::Model;
use std::sync::ledger::Ledger;
use tea_base::{List, Text, WantOfMemory};
use world_plain::{MOST_MESSAGES, Message, Messages, StoreRefusal, copy_messages};

/// The messages to come of a world. Contracts see them as a list by rising time, and at one time by rising number, with
/// the number that the next message gets.
///
/// The numbers that `push` gives begin at 0, rise, and are not given again when a message is gone; `put_back` alone puts a
/// message back under its own number.
#[derive(Drop)]
pub struct Queue {
    messages: Vec<Message>,
    next: u64,
    // What the messages weigh together, so that it need not be summed anew.
    weight: u64,
}

impl Model for Queue {
    ghost use Rattle.message_queue.specs.Queue.{QueueRecord, coded_queue};
    ghost use Rattle.message_queue.specs.View.{queue_seen, HoldsQueue};

    ghost Value = { QueueRecord };

    ghost coded = { coded_queue };

    ghost view = { λ q. queue_seen q.messages.items q.next };

    ghost invariant = { λ q. HoldsQueue q.messages.items q.next q.weight };
}

impl Queue {
    /// The queue of a new world, without messages. The first one gets the number 0. Takes no memory.
    pub fn new(alloc: Global) -> Queue
        ensures { result ≡ empty_queue 0 }
    {
        Queue::resume(alloc, 0)
    }

    /// A queue without messages, whose next message gets this number. Takes no memory.
    pub fn resume(alloc: Global, next: u64) -> Queue
        ensures { result ≡ empty_queue next }
    {
        Queue {
            messages: Vec::new(alloc),
            next,
            weight: 0,
        }
    }

    /// Adds a message, in its place, under a number that it had before: below the next one, and of no message that is held.
    /// Without memory the queue stays as it was.
    ///
    /// The message weighs at most 131,072, as much as a world may. One whose name fits, with at most 16 arguments that are
    /// in bounds, always weighs less.
    pub fn put_back(&mut self, m: Message) -> Result<(), WantOfMemory>
        requires below { (plain_message m).number < self.old.next }
        requires unused { IsUnused (plain_message m).number self.old.messages }
        requires few { length self.old.messages < most_messages }
        requires light { IsLightMessage (plain_message m) }
        ensures ok { OnOk result (self.new ≡ queue_with (plain_message m) self.old) }
        ensures err { OnErr result (self.new ≡ self.old) }
    {
        let weight = message_weight_of(&m);
        insert(&mut self.messages, m)?;
        self.weight += weight;
        Ok(())
    }

    /// Adds a call of an object's method, in its place, at a time in microseconds of TeaTime since the session's founding,
    /// and gives its number.
    ///
    /// The call weighs at most 131,072, as much as a world may. One whose name fits, with at most 16 arguments that are in
    /// bounds, always weighs less.
    ///
    /// `Full` comes where 16,384 messages are held, otherwise `Spent` where the next number is 2^64 - 1. A refusal
    /// changes nothing but that the name and the arguments are dropped.
    pub fn push(
        &mut self,
        time: u64,
        object: u32,
        method: Text,
        args: Values,
    ) -> Result<u64, StoreRefusal>
        requires { IsLightMessage (new_message time object method (plain_values args) self.old) }
        ensures { Pushes result time object method (plain_values args) self.old self.new }
    {
        if self.messages.len() == MOST_MESSAGES {
            return Err(StoreRefusal::Full {
                count: MOST_MESSAGES as u32,
            });
        }
        if self.next == u64::MAX {
            return Err(StoreRefusal::Spent);
        }
        let number = self.next;
        let message = Message {
            time,
            number,
            object,
            method,
            args,
        };
        let weight = message_weight_of(&message);
        insert(&mut self.messages, message)?;
        self.weight += weight;
        self.next += 1;
        Ok(number)
    }

    /// The number that the next message gets. Takes no memory.
    pub fn next(&self) -> u64
        ensures { result ≡ self.now.next }
    {
        self.next
    }

    /// The messages by rising time and number, in memory of their own.
    pub fn copy_in_order(&self, alloc: Global) -> Result<Messages, WantOfMemory>
        ensures { IfOk result (λ messages. map plain_message messages ≡ self.now.messages) }
    {
        let mut copies = copy_messages(alloc, &self.messages)?.into_vec();
        put_in_order(&mut copies);
        Ok(List::from_vec(copies))
    }

    /// The time and the number of the message that is due first: of those of the least time that of the least number.
    /// None where no message is held. Takes no memory.
    ///
    /// In each queue the first message precedes all others. Comparisons of messages are counted: over a number of messages
    /// of d binary digits at most 2d + 2.
    pub fn least<L: Ledger>(&self, steps: &mut Steps<L>) -> Option<(u64, u64)>
        ensures least { result ≡ least_of self.now.messages }
        ensures queue { IsQueue self.now }
        ensures count { CountsFew (length self.now.messages) steps.old steps.new }
    {
        let first = self.messages.first()?;
        Some((first.time, first.number))
    }

    /// Takes out the message that is due first. None where no message is held, and the queue stays as it was. Takes no
    /// memory.
    ///
    /// Comparisons of messages are counted: over a number of messages of d binary digits at most 2d + 2.
    pub fn take_least<L: Ledger>(&mut self, steps: &mut Steps<L>) -> Option<Message>
        ensures taken { TakesLeast (option_map plain_message result) self.old self.new }
        ensures count { CountsFew (length self.old.messages) steps.old steps.new }
    {
        let first = take_first(&mut self.messages, steps)?;
        self.weight -= message_weight_of(&first);
        Some(first)
    }

    /// Takes away all calls of a method of an object, and gives their number. Takes no memory.
    pub fn cancel(&mut self, object: u32, method: &Text) -> u32
        ensures number { result + length self.new.messages ≡ length self.old.messages }
        ensures queue { self.new ≡ without_calls object method.now self.old }
    {
        let before = self.messages.len();
        remove_calls(&mut self.messages, object, method);
        rebuild(&mut self.messages, &mut self.weight, before)
    }

    /// Takes away all messages to an object, and gives their number. Takes no memory.
    pub fn drop_object(&mut self, object: u32) -> u32
        ensures number { result + length self.new.messages ≡ length self.old.messages }
        ensures queue { self.new ≡ without_messages_to object self.old }
    {
        let before = self.messages.len();
        remove_object(&mut self.messages, object);
        rebuild(&mut self.messages, &mut self.weight, before)
    }

    /// How much the messages weigh together: each 3, its method's name and its arguments. Takes no memory.
    ///
    /// In each queue each message precedes all behind it, numbers differ and are below the next one, at most 16,384
    /// messages are held, and each weighs at most 131,072.
    pub fn weight(&self) -> u64
        ensures weight { result ≡ total_weight message_weight self.now.messages }
        ensures queue { IsQueue self.now }
    {
        self.weight
    }
}

/// Makes a heap again of the messages that are left of so many, weighs them anew, and gives how many are gone. Where none
/// is gone, nothing changes.
fn rebuild(messages: &mut Vec<Message>, weight: &mut u64, before: usize) -> u32
    requires left { length messages.old.items ≤ before }
    requires few { before ≤ most_messages }
    requires light { AreLightMessages (messages_seen messages.old.items) }
    ensures number { result + length messages.new.items ≡ before }
    ensures held { IsPermutation messages.old.items messages.new.items }
    ensures fewer { length messages.old.items < before → IsHeap messages.new.items
        × (weight.new ≡ total_weight message_weight (messages_seen messages.new.items)) }
    ensures all { length messages.old.items ≡ before → (messages.new.items ≡ messages.old.items)
        × (weight.new ≡ weight.old) }
{
    let gone = before - messages.len();
    if gone == 0 {
        return 0;
    }
    *weight = weight_of(messages);
    make_heap(messages);
    gone as u32
}
