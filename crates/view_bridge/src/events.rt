//! Topics compared and searched, and the events that they handle.
ghost use Rattle.std.specs.Prelude.{◌≡◌, map, position, IfOk};
ghost use Rattle.world_plain.specs.Messages.{plain_outgoing};
ghost use Rattle.view_bridge.specs.Topics.{is_topic as is_topic_of, handling_of as handling_among, unsubscribes, is_of as is_event_of, is_published as is_published_among, is_handled as is_handled_before, handled_events};

use crate::topic::{Handling, Topic};
use std::alloc::Global;
use std::collections::VecDeque;
use tea_base::{List, Text, WantOfMemory};
use world_plain::{Outgoing, Published};

/// Whether a topic is of this event in this scope.
#[tactic(auto, using(crate::proofs::TopicLaws::by_texts))]
fn is_topic(topic: &Topic, scope: &Text, event: &Text) -> bool
    ensures { result ≡ is_topic_of scope.now event.now topic.now }
{
    topic.scope.is_text(scope) && topic.event.is_text(event)
}

/// Where the first topic of this event in this scope stands.
pub fn place_of(topics: &[Topic], scope: &Text, event: &Text) -> Option<usize>
    ensures { result ≡ position (is_topic_of scope.now event.now) topics.now }
{
    topics
        .iter()
        .position(|topic| is_topic(topic, scope, event))
}

/// Takes away the topics of this event in this scope.
pub fn remove(topics: &mut Vec<Topic>, scope: &Text, event: &Text)
    ensures { topics.new.items ≡ unsubscribes topics.old.items scope.now event.now }
{
    topics.retain(|topic| !is_topic(topic, scope, event));
}

/// How the events of this name in this scope are handled, if they are.
fn handling_of(topics: &[Topic], scope: &Text, event: &Text) -> Option<Handling>
    ensures { result ≡ handling_among topics.now scope.now event.now }
{
    for topic in topics {
        if is_topic(topic, scope, event) {
            return Some(topic.handling);
        }
    }
    None
}

/// Whether an event has this name and was published in this scope.
#[tactic(auto, using(crate::proofs::TopicLaws::by_texts))]
fn is_of(outgoing: &Outgoing, scope: &Text, event: &Text) -> bool
    ensures { result ≡ is_event_of scope.now event.now (plain_outgoing outgoing.now) }
{
    outgoing.scope.is_text(scope) && outgoing.event.is_text(event)
}

/// Whether an event of this name was published in this scope. It is sought from the first on.
fn is_published(events: &VecDeque<Outgoing>, scope: &Text, event: &Text) -> bool
    ensures { result ≡ is_published_among scope.now event.now (map plain_outgoing events.now.items) }
{
    for i in 0..events.len() {
        if is_of(&events[i], scope, event) {
            return true;
        }
    }
    false
}

/// Whether an event is handled before these later ones.
fn is_handled(topics: &[Topic], outgoing: &Outgoing, later: &VecDeque<Outgoing>) -> bool
    ensures { result ≡ is_handled_before topics.now (plain_outgoing outgoing.now) (map plain_outgoing later.now.items) }
{
    match handling_of(topics, &outgoing.scope, &outgoing.event) {
        None => false,
        Some(Handling::Queued) => true,
        Some(Handling::OncePerFrame) => !is_published(later, &outgoing.scope, &outgoing.event),
    }
}

/// The events that topics handle, in order.
///
/// Each event is compared with the topics, and one that is handled once a frame with those behind it up to the next of its
/// topic: for each topic each event is looked at once.
pub fn handle(alloc: Global, topics: &[Topic], events: Published) -> Result<Published, WantOfMemory>
    ensures { IfOk result (λ handled. map plain_outgoing handled
        ≡ handled_events topics.now (map plain_outgoing events)) }
{
    let mut handled = Vec::new(alloc);
    let mut later = VecDeque::from(events.into_vec());
    while let Some(outgoing) = later.pop_front() {
        if is_handled(topics, &outgoing, &later) {
            handled.push(outgoing)?;
        }
    }
    Ok(List::from_vec(handled))
}
