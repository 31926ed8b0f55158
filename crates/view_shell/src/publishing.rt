//! The events that a view publishes.
ghost use Rattle.std.specs.Prelude.{◌≡◌, ◌≤◌, ◌<◌, ◌+◌, length, IfOk, IfErr, OnOk};
ghost use Rattle.sha2.specs.Sha256.{sha256};
ghost use Rattle.snapshot_codec.specs.Spelling.{world_spelling};
ghost use Rattle.model_value.specs.Payload.{payload_spelling};
ghost use Rattle.model_value.specs.Plain.{InBounds};
ghost use Rattle.model_value.specs.View.{plain};
ghost use Rattle.replica_plain.specs.Calls.{publishes};
ghost use Rattle.replica.specs.View.{with_plain};
ghost use Rattle.tea_base.specs.Limits.{most_payload};
ghost use Rattle.view_script.specs.PlainLine.{most_publishes, payload_length};
ghost use Rattle.vote_event.specs.VotePayload.{payload_of, vote_payload};
ghost use Rattle.view_shell.specs.Phases.{vote_spelling};
ghost use Rattle.view_shell.specs.Viewers.{HasHeard, IsReady, KnowsItself};

use crate::ending::ViewEnd;
use crate::watcher::Watcher;
use model_value::Value;
use replica_plain::PublishRefusal;
use snapshot_codec::digest;
use tea_base::{Text, WantOfMemory};
use vote_event::{VoteEvent, vote_event};

/// Puts an event behind those that were published.
fn put_event(
    watcher: &mut Watcher,
    scope: &Text,
    event: &Text,
    value: &Value,
) -> Result<(), ViewEnd>
    requires knows { KnowsItself watcher.old }
    requires bounds { InBounds (plain value.now) }
    requires short { payload_length scope.now event.now (plain value.now) ≤ most_payload }
    requires room { watcher.old.published < most_publishes }
    ensures kept { watcher.new ≡ record watcher.old {
      replica = watcher.new.replica;
      published = watcher.new.published;
    } }
    ensures count { OnOk result (watcher.new.published ≡ watcher.old.published + 1) }
    ensures knows { KnowsItself watcher.new }
    ensures publishes { OnOk result (watcher.new.replica ≡ with_plain watcher.old.replica
        (publishes watcher.old.replica.plain
        (payload_spelling (record { scope = scope.now; event = event.now; value = plain value.now })))) }
    ensures want { IfErr result (λ end. end ≡ ViewEnd.WantOfMemory) }
{
    match watcher.replica.publish(scope, event, value) {
        Ok(number) => {
            watcher.published = number;
            Ok(())
        }
        Err(PublishRefusal::WantOfMemory) => Err(ViewEnd::WantOfMemory),
        // A script publishes no payload that is too long, and no event too many.
        Err(PublishRefusal::TooLong { .. } | PublishRefusal::Full { .. }) => unreachable!(),
    }
}

/// Publishes an event.
pub fn publish(
    watcher: &mut Watcher,
    scope: &Text,
    event: &Text,
    value: &Value,
) -> Result<(), ViewEnd>
    requires ready { IsReady watcher.old }
    requires bounds { InBounds (plain value.now) }
    requires short { payload_length scope.now event.now (plain value.now) ≤ most_payload }
    requires room { watcher.old.published < most_publishes }
    ensures kept { watcher.new ≡ record watcher.old {
      replica = watcher.new.replica;
      published = watcher.new.published;
    } }
    ensures count { OnOk result (watcher.new.published ≡ watcher.old.published + 1) }
    ensures ready { OnOk result (IsReady watcher.new) }
    ensures knows { KnowsItself watcher.new }
    ensures publishes { OnOk result (watcher.new.replica ≡ with_plain watcher.old.replica
        (publishes watcher.old.replica.plain
        (payload_spelling (record { scope = scope.now; event = event.now; value = plain value.now })))) }
    ensures want { IfErr result (λ end. end ≡ ViewEnd.WantOfMemory) }
{
    put_event(watcher, scope, event, value)
}

/// The event by which a view votes on an entry: it names the digest that its world has now.
fn world_vote(watcher: &Watcher, at: u32) -> Result<VoteEvent, WantOfMemory>
    ensures vote { IfOk result (λ vote. payload_of vote
        ≡ vote_payload at (sha256 (world_spelling watcher.now.replica.plain.world))) }
    ensures bounds { IfOk result (λ vote. InBounds (plain vote.value)) }
    ensures length { IfOk result (λ vote. length (payload_spelling (payload_of vote)) ≡ 102) }
{
    match watcher.replica.snap() {
        Ok(snapshot) => vote_event(watcher.alloc, at, &digest(snapshot.bytes())),
        // A replica is broken for want of memory alone.
        Err(_) => Err(WantOfMemory),
    }
}

/// Votes on an entry: publishes the digest that the view's world has now.
pub fn vote(watcher: &mut Watcher, at: u32) -> Result<(), ViewEnd>
    requires heard { HasHeard watcher.old }
    requires room { watcher.old.published < most_publishes }
    ensures kept { watcher.new ≡ record watcher.old {
      replica = watcher.new.replica;
      published = watcher.new.published;
    } }
    ensures count { OnOk result (watcher.new.published ≡ watcher.old.published + 1) }
    ensures heard { HasHeard watcher.new }
    ensures votes { OnOk result (watcher.new.replica ≡ with_plain watcher.old.replica
        (publishes watcher.old.replica.plain (vote_spelling at watcher.old.replica.plain.world))) }
    ensures want { IfErr result (λ end. end ≡ ViewEnd.WantOfMemory) }
{
    let vote = world_vote(watcher, at)?;
    put_event(watcher, &vote.scope, &vote.event, &vote.value)
}
