//! The kept snapshot, and what a joining view gets of it.
ghost use Rattle.std.specs.Prelude.{◌≡◌, ◌≤◌, length, IfOk, OnErr};
ghost use Rattle.tea_base.specs.Limits.{most_snapshot};
ghost use Rattle.reflector_core.specs.declared.request.Reply.{Reply};
ghost use Rattle.reflector_core.specs.SessionState.{UsesAtMost};
ghost use Rattle.reflector_core.specs.Answer.{with_reply, is_ahead, from_for, base_for, offer};
ghost use Rattle.reflector_core.specs.Keeping.{HasCause, KeepsPace, with_snapshot};

use crate::keeper::{CallFault, Keeper};
use crate::request::{Refusal, Reply};
use crate::session::Session;
use crate::session::events::cap_len;
use tea_base::{Blob, MOST_SNAPSHOT, WantOfMemory};
use wire_frames::{Base, Want};

impl Session {
    /// Answers an Offer.
    pub(super) fn offer<K: Keeper>(
        &mut self,
        keeper: &mut K,
        view: u32,
        joined: u32,
        time: u64,
        bytes: &Blob,
    ) -> Result<Reply, CallFault>
        ensures ok { IfOk result (λ reply. with_reply self.new.plain reply ≡
            offer self.old.plain view joined time bytes.now) }
        ensures used { UsesAtMost self.old self.new 0 0 }
        ensures err { OnErr result (self.new.plain ≡ self.old.plain) }
        ensures cause { HasCause (offer self.old.plain view joined time bytes.now).reply
            (K.shut keeper.new) result }
        ensures pace { KeepsPace K.holds K.writes K.settled K.shut K.faults keeper.old keeper.new
            self.old.plain self.new.plain }
    {
        if self.is_stale(view, joined) {
            return Ok(Reply::Refused(self.stale(view)));
        }
        if bytes.len() > MOST_SNAPSHOT {
            return Ok(Reply::Refused(Refusal::TooLong {
                len: cap_len(bytes.len()),
            }));
        }
        if self.horizon < time {
            return Ok(Reply::Refused(Refusal::Ahead {
                horizon: self.horizon,
            }));
        }
        if let Some(base) = &self.kept {
            if time <= base.time {
                return Ok(Reply::Refused(Refusal::Older { kept: base.time }));
            }
        }
        self.keep_offered(keeper, time, bytes)
    }

    /// Keeps a snapshot in place of the one before it, once the keeper has kept it.
    fn keep_offered<K: Keeper>(
        &mut self,
        keeper: &mut K,
        time: u64,
        bytes: &Blob,
    ) -> Result<Reply, CallFault>
        requires past { time ≤ self.old.plain.horizon }
        requires short { length bytes.now ≤ most_snapshot }
        ensures ok { IfOk result (λ reply. with_reply self.new.plain reply ≡
            with_reply (with_snapshot self.old.plain time bytes.now) Reply.Kept) }
        ensures used { UsesAtMost self.old self.new 0 0 }
        ensures err { OnErr result (self.new.plain ≡ self.old.plain) }
        ensures cause { HasCause Reply.Kept (K.shut keeper.new) result }
        ensures pace { KeepsPace K.holds K.writes K.settled K.shut K.faults keeper.old keeper.new
            self.old.plain self.new.plain }
    {
        let Ok(copied) = bytes.clone() else {
            return Err(CallFault::WantOfMemory);
        };
        match keeper.keep_snapshot(time, bytes.bytes()) {
            Err(_) => Err(CallFault::Unkept),
            Ok(()) => {
                self.kept = Some(Base {
                    time,
                    bytes: copied,
                });
                Ok(Reply::Kept)
            }
        }
    }

    /// Whether a want asks for what comes after a time that has not come.
    pub(super) fn is_ahead(&self, want: Want) -> bool
        ensures { result ≡ is_ahead self.now.plain.horizon want }
    {
        match want {
            Want::Fresh | Want::Whole => false,
            Want::After(time) => self.horizon < time,
        }
    }

    /// The seq after which the entries of a joining view begin.
    pub(super) fn from_for(&self, want: Want) -> u32
        ensures { result ≡ from_for self.now.plain.log want self.now.plain.kept }
    {
        match want {
            Want::Fresh => match &self.kept {
                None => 0,
                Some(base) => self.log.count_until(base.time),
            },
            Want::Whole => 0,
            Want::After(time) => self.log.count_until(time),
        }
    }

    /// The snapshot from which a joining view starts.
    pub(super) fn base_for(&self, want: Want) -> Result<Option<Base>, WantOfMemory>
        ensures { IfOk result (λ base. base ≡ base_for want self.now.plain.kept) }
    {
        match want {
            Want::Fresh => Ok(self.kept.clone()?),
            Want::Whole | Want::After(_) => Ok(None),
        }
    }
}
