//! The entries that views are sent.
ghost use Rattle.std.specs.Prelude.{◌≡◌, ◌+◌, ◌≤◌, length, take, drop, IfOk, OnErr};
ghost use Rattle.tea_base.specs.Limits.{most_entries};
ghost use Rattle.reflector_core.specs.Answer.{with_reply, MayWantMemory, pull};

use crate::request::{Refusal, Reply};
use crate::session::Session;
use session_log::{GetRefusal, Log};
use std::alloc::Global;
use tea_base::{Entries, WantOfMemory};

impl Session {
    /// Answers a Pull.
    pub(super) fn pull(&self, after: u32, limit: u32) -> Result<Reply, WantOfMemory>
        ensures ok { IfOk result (λ reply. with_reply self.now.plain reply ≡
            pull self.now.plain after limit) }
        ensures memory { OnErr result (MayWantMemory (pull self.now.plain after limit).reply) }
    {
        let len = self.log.len();
        if len < after {
            return Ok(Reply::Refused(Refusal::NoSuchSeq { len }));
        }
        let entries = entries_after(self.alloc, &self.log, after, limit.min(len - after))?;
        let tick = if len - after <= limit {
            Some(self.horizon)
        } else {
            None
        };
        Ok(Reply::Batch { entries, tick })
    }
}

/// The next entries of a log.
fn entries_after(alloc: Global, log: &Log, after: u32, count: u32) -> Result<Entries, WantOfMemory>
    requires there { after + count ≤ length log.now.entries }
    requires bound { length log.now.entries ≤ most_entries }
    ensures { IfOk result (λ entries. entries ≡ take count (drop after log.now.entries)) }
{
    let mut entries = Entries::new(alloc);
    for i in 0..count {
        match log.get(after + i + 1) {
            Ok(entry) => entries.push(entry)?,
            Err(GetRefusal::NoSuchSeq) => unreachable!(),
            Err(GetRefusal::WantOfMemory) => return Err(WantOfMemory),
        }
    }
    Ok(entries)
}
