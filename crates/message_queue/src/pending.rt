//! Messages in memory: those that are taken away, and what they weigh.
ghost use Rattle.std.specs.Prelude.{◌≡◌, ◌≤◌, length, not, nat_eq};
ghost use Rattle.std.specs.List.{filter};
ghost use Rattle.world_plain.specs.Messages.{plain_message};
ghost use Rattle.world_plain.specs.Valid.{most_messages};
ghost use Rattle.world_plain.specs.World.{message_weight, total_weight};
ghost use Rattle.message_queue.specs.Queue.{AreLightMessages, IsLightMessage, calls};
ghost use Rattle.message_queue.specs.View.{messages_seen};

use model_value::{text_weight, values_weight};
use tea_base::Text;
use world_plain::Message;

/// Takes away the calls of a method of an object.
pub fn remove_calls(messages: &mut Vec<Message>, object: u32, method: &Text)
    ensures kept { messages_seen messages.new.items
        ≡ filter (λ m. not (calls object method.now m)) (messages_seen messages.old.items) }
    ensures fewer { length messages.new.items ≤ length messages.old.items }
{
    messages.retain(|message| !is_call(message, object, method));
}

/// Whether a message is a call of this method of this object.
#[tactic(auto, using(crate::proofs::Messages::by_text))]
fn is_call(message: &Message, object: u32, method: &Text) -> bool
    ensures { result ≡ calls object method.now (plain_message message.now) }
{
    message.object == object && message.method.is_text(method)
}

/// Takes away the messages to an object.
pub fn remove_object(messages: &mut Vec<Message>, object: u32)
    ensures kept { messages_seen messages.new.items
        ≡ filter (λ m. not (nat_eq m.object object)) (messages_seen messages.old.items) }
    ensures fewer { length messages.new.items ≤ length messages.old.items }
{
    messages.retain(|message| message.object != object);
}

/// How much messages weigh together.
pub fn weight_of(messages: &[Message]) -> u64
    requires light { AreLightMessages (messages_seen messages.now) }
    requires few { length messages.now ≤ most_messages }
    ensures { result ≡ total_weight message_weight (messages_seen messages.now) }
{
    let mut sum = 0;
    for message in messages {
        sum += message_weight_of(message);
    }
    sum
}

/// How much a message weighs: 3, its method's name and its arguments.
pub fn message_weight_of(message: &Message) -> u64
    requires { IsLightMessage (plain_message message.now) }
    ensures { result ≡ message_weight (plain_message message.now) }
{
    3 + text_weight(&message.method) + values_weight(message.args.as_slice())
}
