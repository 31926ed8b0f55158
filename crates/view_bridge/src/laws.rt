//! What handling events keeps.
ghost use Rattle.std.specs.Prelude.{◌≡◌, ℕ, List};
ghost use Rattle.world_plain.specs.Messages.{PlainOutgoing};
ghost use Rattle.view_bridge.specs.declared.topic.Topic.{Topic};
ghost use Rattle.view_bridge.specs.Topics.{handling_of, handled_events, of_topic, IsSublist, shown_together};

/// Which events a view handles, told a topic at a time: of a queued topic all, of a topic that is handled once a frame
/// the last alone, and of what it is not subscribed to none. And no event is moved or made: those that are handled stand
/// among those that were published, in the same order.
pub fn events_are_handled_by_topic()
    ensures topic { (topics : List Topic) (events : List PlainOutgoing) (scope event : List ℕ) →
        of_topic scope event (handled_events topics events)
        ≡ shown_together (handling_of topics scope event) (of_topic scope event events) }
    ensures order { (topics : List Topic) (events : List PlainOutgoing)
        → IsSublist (handled_events topics events) events }
{}
