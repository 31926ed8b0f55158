//! Writing the entries of a log as bytes.
ghost use Rattle.std.specs.Prelude.{◌≤◌, length, map};
ghost use Rattle.std.specs.List.{flat_map};
ghost use Rattle.session_log.specs.Heads.{entry_of, IsKindWithin, AreWithin};
ghost use Rattle.session_log.specs.Room.{Fills};
ghost use Rattle.session_log.specs.Spelling.{log_entry_spelling};

use crate::filling::Filling;
use crate::heads::Head;
use crate::payloads::put_stored;
use event_region::Region;

/// Writes an entry.
#[tactic(auto, unfolding(crate::specs::Spelling::log_entry_spelling))]
fn write_entry(out: &mut Filling, payloads: &Region, head: &Head)
    requires within { IsKindWithin (length payloads.now.bytes) head.now.kind }
    requires room { length (log_entry_spelling (entry_of payloads.now.bytes head.now)) ≤ out.old.spare }
    ensures { Fills out.old out.new (log_entry_spelling (entry_of payloads.now.bytes head.now)) }
{
    out.put_u64(head.time);
    out.put_u32(head.view);
    put_stored(out, payloads, head.kind);
}

/// Writes entries, one after the other.
pub fn write_entries(out: &mut Filling, payloads: &Region, heads: &[Head])
    requires within { AreWithin (length payloads.now.bytes) heads.now }
    requires room { length (flat_map log_entry_spelling (map (entry_of payloads.now.bytes) heads.now)) ≤ out.old.spare }
    ensures { Fills out.old out.new
        (flat_map log_entry_spelling (map (entry_of payloads.now.bytes) heads.now)) }
{
    for head in heads {
        write_entry(out, payloads, head);
    }
}
