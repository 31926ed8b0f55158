//! The times that a session gives.
ghost use Rattle.std.specs.Prelude.{◌≡◌, ◌<◌, IfOk, OnErr};
ghost use Rattle.tea_base.specs.Limits.{time_limit};
ghost use Rattle.reflector_core.specs.SessionState.{UsesAtMost};
ghost use Rattle.reflector_core.specs.Answer.{with_reply, stamp, tick};
ghost use Rattle.reflector_core.specs.Keeping.{HasCause, KeepsPace};

use crate::keeper::{CallFault, Keeper};
use crate::request::Reply;
use crate::session::Session;
use tea_base::END_OF_TIME;

/// The time of the next entry.
pub(super) fn stamp(horizon: u64, now: u64) -> u64
    requires { horizon < time_limit }
    ensures { result ≡ stamp horizon now }
{
    now.min(END_OF_TIME).max(horizon + 1)
}

impl Session {
    /// Answers a Tick.
    pub(super) fn tick<K: Keeper>(&mut self, keeper: &mut K, now: u64) -> Result<Reply, CallFault>
        ensures ok { IfOk result (λ reply. with_reply self.new.plain reply ≡ tick self.old.plain now) }
        ensures used { UsesAtMost self.old self.new 0 0 }
        ensures err { OnErr result (self.new.plain ≡ self.old.plain) }
        ensures cause { HasCause (tick self.old.plain now).reply (K.shut keeper.new) result }
        ensures pace { KeepsPace K.holds K.writes K.settled K.shut K.faults keeper.old keeper.new self.old.plain
            self.new.plain }
    {
        let time = self.horizon.max(now.min(END_OF_TIME));
        match keeper.keep_tick(time) {
            Err(_) => Err(CallFault::Unkept),
            Ok(()) => {
                self.horizon = time;
                Ok(Reply::Ticked { time })
            }
        }
    }
}
