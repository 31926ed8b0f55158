//! The topics of a view.
ghost use Rattle.std.specs.Prelude.{◌≡◌, [], map, IfOk, OnOk, OnErr};
ghost use Rattle.world_plain.specs.Messages.{plain_outgoing};
ghost use Rattle.view_bridge.specs.Topics.{subscribes, unsubscribes, has_topic, handled_events};

use crate::events::{handle, place_of, remove};
use crate::topic::{Handling, Topic};
use std::alloc::Global;
use std::marker::Model;
use tea_base::{Text, WantOfMemory, push};
use world_plain::Published;

/// The topics that a view is subscribed to. Contracts see them as a list in the order in which they were made.
#[derive(Debug, Drop)]
pub struct ViewTopics {
    alloc: Global,
    topics: Vec<Topic>,
}

impl Model for ViewTopics {
    ghost use Rattle.std.specs.Prelude.{List};
    ghost use Rattle.std.specs.Coded.{coded_list};
    ghost use Rattle.view_bridge.specs.declared.topic.Topic.{Topic};
    ghost use Rattle.view_bridge.specs.TopicCode.{coded_topic};

    ghost Value = { List Topic };

    ghost coded = { coded_list coded_topic };

    ghost view = { λ t. t.topics.items };
}

impl ViewTopics {
    /// No topics. Takes no memory.
    pub fn new(alloc: Global) -> ViewTopics
        ensures { result ≡ [] }
    {
        ViewTopics {
            alloc,
            topics: Vec::new(alloc),
        }
    }

    /// Subscribes to an event in a scope. A topic of this scope and event gets the new handling where it stands;
    /// otherwise the topic stands behind all others. Want of memory changes nothing.
    pub fn subscribe(
        &mut self,
        scope: Text,
        event: Text,
        handling: Handling,
    ) -> Result<(), WantOfMemory>
        ensures ok { OnOk result (self.new ≡ subscribes self.old scope event handling) }
        ensures err { OnErr result (self.new ≡ self.old) }
    {
        match place_of(&self.topics, &scope, &event) {
            Some(place) => {
                self.topics[place].handling = handling;
                Ok(())
            }
            None => push(
                &mut self.topics,
                Topic {
                    scope,
                    event,
                    handling,
                },
            ),
        }
    }

    /// Takes away the topic of this scope and event, and tells whether there was one. Takes no memory.
    pub fn unsubscribe(&mut self, scope: &Text, event: &Text) -> bool
        ensures held { result ≡ has_topic self.old scope.now event.now }
        ensures topics { self.new ≡ unsubscribes self.old scope.now event.now }
    {
        let held = place_of(&self.topics, scope, event).is_some();
        remove(&mut self.topics, scope, event);
        held
    }

    /// The events that the view handles, of those that were published since the last time, in order: each of a queued
    /// topic, and of a topic that is handled once a frame the last alone.
    pub fn update(&self, events: Published) -> Result<Published, WantOfMemory>
        ensures { IfOk result (λ handled. map plain_outgoing handled
            ≡ handled_events self.now (map plain_outgoing events)) }
    {
        handle(self.alloc, &self.topics, events)
    }
}
