//! A live view of which is known what is so of every live view.
ghost use Rattle.std.specs.Prelude.{◌≡◌, ℕ, false, length, true, List, IfOk, OnErr, OnOk, string_bytes};
ghost use Rattle.std.specs.Arc.{arc_value};
ghost use Rattle.model_solved.specs.Founding.{founding_of};
ghost use Rattle.view_shell.specs.Phases.{world_text};
ghost use Rattle.view_shell.specs.Viewers.{viewer};
ghost use Rattle.live_view.specs.declared.input.LiveInput.TheVariants as tells;
ghost use Rattle.live_view.specs.Live.{live_step, wanted};
ghost use Rattle.live_view.specs.Looking.{Forgets, rested_at};
ghost use Rattle.live_view.specs.Script.{first_state};
ghost use Rattle.live_view.specs.View.{IsLost, left, live_state, told_by};

use live_view::{LiveInput, LiveOutcome, LiveView, LiveWant};
use model_solved::Checked;
use std::alloc::Global;
use std::marker::Model;
use std::sync::Arc;
use tea_base::{SessionId, WantOfMemory};

/// A live view. Contracts see the view itself.
#[derive(Drop)]
pub struct Living {
    held: LiveView,
}

impl Model for Living {
    ghost use Rattle.live_view.specs.declared.machine.LiveView.{LiveView};
    ghost use Rattle.live_view.specs.contracts.machine.LiveView.{the_row as view_row};
    ghost use Rattle.live_view.specs.View.{IsLive};

    ghost Value = { LiveView };

    ghost coded = { view_row.coded };

    ghost view = { λ living. living.held };

    ghost invariant = { λ living. IsLive living.held };
}

impl Living {
    /// A view of a session, by its number, which is not 0. It wants a link. Fails for want of memory alone.
    pub fn found(
        alloc: Global,
        program: Arc<Checked, Global>,
        id: SessionId,
        view: u32,
    ) -> Result<Living, WantOfMemory>
        ensures { (address : List ℕ)
            → IfOk result (λ living. live_state address living
            ≡ first_state (founding_of (arc_value program)) id.0 view address) }
    {
        let held = LiveView::found(alloc, program, id, view)?;
        Ok(Living { held })
    }

    /// Tells the view one thing, and answers what it does.
    ///
    /// # Errors
    ///
    /// Once memory was wanted each call answers so, until a link is there.
    pub fn step(&mut self, input: &LiveInput) -> Result<LiveOutcome, WantOfMemory>
        ensures ok { (address : List ℕ)
            → IfOk result (λ out. told_by address out self.new ≡ live_step (live_state address self.old) input.now) }
        ensures err { OnErr result (IsLost self.new self.old input.now) }
        ensures wants { self.old.lost ≡ true → (input.now ≡ tells.Linked → ⊥) → OnOk result ⊥ }
    {
        self.held.step(input)
    }

    /// The world of the view in full, once it rests.
    ///
    /// # Errors
    ///
    /// Once memory was wanted each call answers so, until a link is there.
    pub fn look(&mut self) -> Result<String, WantOfMemory>
        ensures kept { OnOk result (self.new ≡ record self.old { watcher = self.new.watcher }) }
        ensures whole { OnOk result (self.old.lost ≡ false) }
        ensures rests { (address : List ℕ)
            → OnOk result (viewer address self.new.watcher (left self.new)
            ≡ rested_at self.old.place (viewer address self.old.watcher (left self.old))) }
        ensures text { (address : List ℕ)
            → IfOk result (λ text. string_bytes text
            ≡ world_text (rested_at self.old.place (viewer address self.old.watcher (left self.old)))) }
        ensures err { OnErr result (Forgets self.old self.new) }
    {
        self.held.look()
    }

    /// Memory was wanted for what the view was to be told. Takes no memory.
    pub fn forget(&mut self)
        ensures { Forgets self.old self.new }
    {
        self.held.forget();
    }

    /// What the view wants next.
    pub fn wanted(&self) -> LiveWant
        ensures { (address : List ℕ) → result ≡ wanted (live_state address self.now).phase }
    {
        self.held.wanted()
    }

    /// The time of its world, in microseconds.
    pub fn time(&self) -> u64
        ensures { result ≡ self.now.watcher.replica.plain.world.time }
    {
        self.held.time()
    }

    /// How many entries it has.
    pub fn seen(&self) -> u32
        ensures { result ≡ self.now.watcher.replica.plain.seen }
    {
        self.held.seen()
    }

    /// How many events that it published are not acknowledged.
    pub fn unacknowledged(&self) -> usize
        ensures { result ≡ length self.now.watcher.replica.plain.outbox }
    {
        self.held.unacknowledged()
    }
}
