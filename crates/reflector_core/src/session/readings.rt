//! What the entries tell of a view.
ghost use Rattle.std.specs.Prelude.{◌≡◌, ◌≤◌, option_map};
ghost use Rattle.tea_base.specs.Readings.{current, is_here, here_count, last_number, view_event};
ghost use Rattle.tea_base.specs.Limits.{most_entries};

use crate::session::Session;

impl Session {
    /// The seq of the last Join or Exit of a view, 0 if there is none.
    pub(super) fn current(&self, view: u32) -> u32
        ensures { result ≡ current self.now.plain.log view }
    {
        self.resend.current(view)
    }

    /// Whether a view is here: its last Join or Exit is a Join.
    pub(super) fn is_here(&self, view: u32) -> bool
        ensures { result ≡ is_here self.now.plain.log view }
    {
        self.resend.here(view)
    }

    /// How many views are here.
    pub(super) fn here_count(&self) -> u32
        ensures { result ≡ here_count self.now.plain.log }
    {
        self.resend.here_count()
    }

    /// How many Events a view sent, which is the number of the last one.
    pub(super) fn last_number(&self, view: u32) -> u32
        ensures number { result ≡ last_number self.now.plain.log view }
        ensures bound { result ≤ most_entries }
    {
        // `len` is called for its clause that the log has at most so many entries.
        let _len = self.log.len(); // for the prover
        self.resend.last(view)
    }

    /// The seq of the Event of a view with a number, counted from 1, if there is one.
    pub(super) fn seq_of(&self, view: u32, number: u32) -> Option<u32>
        ensures { result ≡ option_map (λ entry. entry.seq)
            (view_event self.now.plain.log view number) }
    {
        self.resend.seq_of(view, number)
    }
}
