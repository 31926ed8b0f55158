//! The coming and going of views.
ghost use Rattle.std.specs.Prelude.{◌≡◌, ◌≢◌, ◌<◌, false, length, IfOk, OnErr};
ghost use Rattle.tea_base.specs.Readings.{current, here_count, is_here};
ghost use Rattle.tea_base.specs.Limits.{most_here, most_open_entries, end_of_time};
ghost use Rattle.reflector_core.specs.SessionState.{UsesAtMost};
ghost use Rattle.reflector_core.specs.Answer.{with_reply, is_stale, is_closed, log_full, joins, join, leave};
ghost use Rattle.reflector_core.specs.Keeping.{FoundMemory, HasCause, KeepsPace};

use crate::keeper::{CallFault, Keeper};
use crate::request::{Refusal, Reply};
use crate::session::Session;
use entry_fields::LentWhat;
use tea_base::{END_OF_TIME, MOST_HERE, MOST_OPEN_ENTRIES};
use wire_frames::Want;

impl Session {
    /// Whether the view is not here, or has another Join or Exit after the caller's Join.
    pub(super) fn is_stale(&self, view: u32, joined: u32) -> bool
        ensures { result ≡ is_stale self.now.plain.log view joined }
    {
        self.current(view) != joined || !self.is_here(view)
    }

    /// The refusal of a caller that is stale.
    pub(super) fn stale(&self, view: u32) -> Refusal
        ensures { result ≡ Refusal.Stale (current self.now.plain.log view) }
    {
        Refusal::Stale {
            current: self.current(view),
        }
    }

    /// Whether nothing is added to the log but Exits.
    pub(super) fn is_closed(&self) -> bool
        ensures { result ≡ is_closed self.now.plain.log }
    {
        self.log.len() >= MOST_OPEN_ENTRIES
    }

    /// The refusal of a full log.
    pub(super) fn log_full(&self) -> Refusal
        ensures { result ≡ log_full self.now.plain.log }
    {
        Refusal::LogFull {
            entries: self.log.len(),
            bytes: self.log.bytes(),
        }
    }

    /// Answers a Join.
    pub(super) fn join<K: Keeper>(
        &mut self,
        keeper: &mut K,
        view: u32,
        now: u64,
        want: Want,
    ) -> Result<Reply, CallFault>
        ensures ok { IfOk result (λ reply. with_reply self.new.plain reply ≡
            join self.old.plain view now want) }
        ensures used { UsesAtMost self.old self.new 1 0 }
        ensures err { OnErr result (self.new.plain ≡ self.old.plain) }
        ensures cause { HasCause (join self.old.plain view now want).reply (K.shut keeper.new) result }
        ensures pace { KeepsPace K.holds K.writes K.settled K.shut K.faults keeper.old keeper.new
            self.old.plain self.new.plain }
    {
        if view == 0 {
            return Ok(Reply::Refused(Refusal::BadView));
        }
        if self.is_ahead(want) {
            return Ok(Reply::Refused(Refusal::Ahead {
                horizon: self.horizon,
            }));
        }
        if !self.is_here(view) && self.here_count() >= MOST_HERE {
            return Ok(Reply::Refused(Refusal::ViewsFull {
                here: self.here_count(),
            }));
        }
        if self.is_closed() {
            return Ok(Reply::Refused(self.log_full()));
        }
        if self.horizon >= END_OF_TIME {
            return Ok(Reply::Refused(Refusal::TimeEnd {
                horizon: self.horizon,
            }));
        }
        self.append_join(keeper, view, now, want)
    }

    /// Appends a Join that nothing refuses.
    fn append_join<K: Keeper>(
        &mut self,
        keeper: &mut K,
        view: u32,
        now: u64,
        want: Want,
    ) -> Result<Reply, CallFault>
        requires named { view ≢ 0 }
        requires room { is_here self.old.plain.log view ≡ false →
            here_count self.old.plain.log < most_here }
        requires unfilled { length self.old.plain.log < most_open_entries }
        requires before_end { self.old.plain.horizon < end_of_time }
        ensures ok { IfOk result (λ reply. with_reply self.new.plain reply ≡
            joins self.old.plain view now want) }
        ensures used { UsesAtMost self.old self.new 1 0 }
        ensures err { OnErr result (self.new.plain ≡ self.old.plain) }
        ensures cause { HasCause (joins self.old.plain view now want).reply (K.shut keeper.new) result }
        ensures pace { KeepsPace K.holds K.writes K.settled K.shut K.faults keeper.old keeper.new
            self.old.plain self.new.plain }
    {
        // opens the session, whose invariant tells that it is sound
        let _ = &self.horizon; // for the prover
        let base = self.base_for(want)?;
        let from = self.from_for(want);
        let last = self.last_number(view);
        let (seq, time) = self.append(keeper, view, LentWhat::Join, now)?;
        Ok(Reply::Joined {
            seq,
            time,
            last,
            from,
            base,
        })
    }

    /// Answers a Leave. A view that is here can always leave: its Exit has room in the log, and
    /// time.
    pub(super) fn leave<K: Keeper>(
        &mut self,
        keeper: &mut K,
        view: u32,
        joined: u32,
        now: u64,
    ) -> Result<Reply, CallFault>
        ensures ok { IfOk result (λ reply. with_reply self.new.plain reply ≡
            leave self.old.plain view joined now) }
        ensures prepared { 0 < self.old.ready_entries → FoundMemory result }
        ensures used { UsesAtMost self.old self.new 1 0 }
        ensures err { OnErr result (self.new.plain ≡ self.old.plain) }
        ensures cause { HasCause (leave self.old.plain view joined now).reply (K.shut keeper.new) result }
        ensures pace { KeepsPace K.holds K.writes K.settled K.shut K.faults keeper.old keeper.new
            self.old.plain self.new.plain }
    {
        if self.is_stale(view, joined) {
            return Ok(Reply::Refused(self.stale(view)));
        }
        // opens the session, whose invariant tells that it is sound
        let _ = &self.horizon; // for the prover
        let (seq, time) = self.append(keeper, view, LentWhat::Exit, now)?;
        Ok(Reply::Left { seq, time })
    }
}
