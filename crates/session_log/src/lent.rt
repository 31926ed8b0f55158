//! Entries as they are read from bytes, before a log has them.
ghost use Rattle.std.specs.Prelude.{◌≡◌, List};
ghost use Rattle.std.specs.Option.{option_map};
ghost use Rattle.tea_base.specs.declared.entry.Entry.{Entry};
ghost use Rattle.session_log.specs.Lent.{lent_entry};
ghost use Rattle.session_log.specs.Reading.{log_entry_at};

use byte_fields::{u32_at, u64_at};
use entry_fields::{LentWhat, what_at};

/// An entry but for its seq.
#[derive(Clone, Copy, Debug)]
pub struct LentLogEntry<'a> {
    pub time: u64,
    pub view: u32,
    pub what: LentWhat<'a>,
}

/// An entry, whatever stands before it.
#[tactic(auto, unfolding(crate::specs::Reading::log_entry_at))]
pub fn entry_at(bytes: &[u8]) -> Option<(LentLogEntry<'_>, &[u8])>
    ensures { (log : List Entry) →
        option_map (λ x. (lent_entry log x.0, x.1.now)) result ≡ log_entry_at log bytes.now }
{
    let (time, rest) = u64_at(bytes)?;
    let (view, rest) = u32_at(rest)?;
    let (what, rest) = what_at(rest)?;
    Some((LentLogEntry { time, view, what }, rest))
}
