//! What is read off a live view between two things that it is told.
ghost use Rattle.std.specs.Prelude.{◌≡◌, ℕ, false, length, List, Some, IfOk, OnErr, OnOk, string_bytes};
ghost use Rattle.view_script.specs.PlainLine.{PlainLine};
ghost use Rattle.view_shell.specs.Phases.{world_text as text_of_world};
ghost use Rattle.view_shell.specs.Viewers.{KnowsItself, viewer};
ghost use Rattle.live_view.specs.Doing.{IsReadyAt};
ghost use Rattle.live_view.specs.Looking.{Forgets, joined_at as has_joined_at, joined_for as has_joined_for, rested_at};
ghost use Rattle.live_view.specs.View.{IsLive, left};

use crate::facts::{seen_of, time_of};
use crate::input::{Goal, Place};
use crate::machine::LiveView;
use tea_base::WantOfMemory;
use view_shell::{Watcher, rest, world_text};

/// Whether a view that hears its link for this has joined on it.
fn joined_for(goal: Goal) -> bool
    ensures { result ≡ has_joined_for goal }
{
    match goal {
        Goal::Join(_) => false,
        Goal::Reach(_) => true,
        Goal::Settle => true,
        Goal::CatchUp => true,
        Goal::Snap => true,
        Goal::See(_) => true,
    }
}

/// Whether a view that waits here has joined on a link.
fn joined_at(place: Place) -> bool
    ensures { result ≡ has_joined_at place }
{
    match place {
        Place::Unlinked(_) => false,
        Place::Hears(goal) => joined_for(goal),
        Place::Gone(_) => false,
    }
}

/// A view that has joined on its link rests.
fn rest_joined(watcher: &mut Watcher, place: Place) -> Result<(), WantOfMemory>
    requires ready { IsReadyAt (Some place) watcher.old }
    requires knows { KnowsItself watcher.old }
    ensures ready { OnOk result (IsReadyAt (Some place) watcher.new) }
    ensures knows { KnowsItself watcher.new }
    ensures kept { watcher.new ≡ record watcher.old { replica = watcher.new.replica } }
    ensures rests { OnOk result ((address : List ℕ) (lines : List PlainLine)
        → viewer address watcher.new lines ≡ rested_at place (viewer address watcher.old lines)) }
{
    if !joined_at(place) {
        return Ok(());
    }
    match rest(watcher) {
        Ok(()) => {}
        Err(_) => return Err(WantOfMemory),
    }
    Ok(())
}

/// The text of the world of a view, once it rests.
fn rested_text(watcher: &mut Watcher, place: Place) -> Result<String, WantOfMemory>
    requires ready { IsReadyAt (Some place) watcher.old }
    requires knows { KnowsItself watcher.old }
    ensures ready { OnOk result (IsReadyAt (Some place) watcher.new) }
    ensures knows { KnowsItself watcher.new }
    ensures kept { watcher.new ≡ record watcher.old { replica = watcher.new.replica } }
    ensures rests { (address : List ℕ) (lines : List PlainLine)
        → OnOk result (viewer address watcher.new lines ≡ rested_at place (viewer address watcher.old lines)) }
    ensures text { (address : List ℕ) (lines : List PlainLine)
        → IfOk result (λ text. string_bytes text ≡ text_of_world (viewer address watcher.new lines)) }
{
    rest_joined(watcher, place)?;
    world_text(watcher)
}

impl LiveView {
    /// The time of its world, in microseconds. Takes no memory.
    pub fn time(&self) -> u64
        ensures { result ≡ self.now.watcher.replica.plain.world.time }
    {
        time_of(&self.watcher.replica)
    }

    /// How many entries of its session's log it has. Takes no memory.
    pub fn seen(&self) -> u32
        ensures { result ≡ self.now.watcher.replica.plain.seen }
    {
        seen_of(&self.watcher.replica)
    }

    /// How many events that it published are not acknowledged. Takes no memory.
    pub fn unacknowledged(&self) -> usize
        ensures { result ≡ length self.now.watcher.replica.plain.outbox }
    {
        self.watcher.replica.unacknowledged()
    }

    /// The world of the view in full, as the line `show` prints it. A view that has joined on its link rests first, so that the text is that
    /// of the replay to its time; what its models publish by that is told by the next step. It waits for no line.
    ///
    /// # Errors
    ///
    /// Once memory was wanted each call answers so, until a link is there.
    pub fn look(&mut self) -> Result<String, WantOfMemory>
        requires live { IsLive self.old }
        ensures live { IsLive self.new }
        ensures kept { OnOk result (self.new ≡ record self.old { watcher = self.new.watcher }) }
        ensures whole { OnOk result (self.old.lost ≡ false) }
        ensures rests { (address : List ℕ)
            → OnOk result (viewer address self.new.watcher (left self.new)
            ≡ rested_at self.old.place (viewer address self.old.watcher (left self.old))) }
        ensures text { (address : List ℕ)
            → IfOk result (λ text. string_bytes text
            ≡ text_of_world (rested_at self.old.place (viewer address self.old.watcher (left self.old)))) }
        ensures err { OnErr result (Forgets self.old self.new) }
    {
        if self.lost {
            self.lose();
            return Err(WantOfMemory);
        }
        match rested_text(&mut self.watcher, self.place) {
            Ok(text) => Ok(text),
            Err(WantOfMemory) => {
                self.lose();
                Err(WantOfMemory)
            }
        }
    }

    /// Memory was wanted for what the view was to be told: it is as behind a step that wanted memory. Takes no memory.
    pub fn forget(&mut self)
        requires live { IsLive self.old }
        ensures live { IsLive self.new }
        ensures forgets { Forgets self.old self.new }
    {
        self.lose();
    }
}
