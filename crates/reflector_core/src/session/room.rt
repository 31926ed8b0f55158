//! The room for entries to come.
ghost use Rattle.std.specs.Prelude.{◌≡◌, ◌≤◌, IsOk, OnOk};
ghost use Rattle.tea_base.specs.Limits.{most_open_entries, most_bytes};
ghost use Rattle.resend_table.specs.Noted.{KeepsNoted, spare_of};

use resend_table::Resend;
use session_log::Log;
use tea_base::WantOfMemory;

/// Makes room for so many more entries in a log and in its table, and for so many payload bytes in
/// the log. Room that is there already is kept, and needs no memory.
pub(super) fn make_room(
    log: &mut Log,
    resend: &mut Resend,
    entries: u32,
    bytes: u64,
) -> Result<(), WantOfMemory>
    requires entries_bound { entries ≤ most_open_entries }
    requires bytes_bound { bytes ≤ most_bytes }
    ensures same { log.new.entries ≡ log.old.entries }
    ensures noted { KeepsNoted resend.old resend.new }
    ensures entries { OnOk result (entries ≤ log.new.spare_entries) }
    ensures bytes { OnOk result (bytes ≤ log.new.spare_bytes) }
    ensures notes { OnOk result (entries ≤ spare_of resend.new) }
    ensures entries_kept { log.old.spare_entries ≤ log.new.spare_entries }
    ensures bytes_kept { log.old.spare_bytes ≤ log.new.spare_bytes }
    ensures notes_kept { spare_of resend.old ≤ spare_of resend.new }
    ensures succeeds { entries ≤ log.old.spare_entries → entries ≤ spare_of resend.old →
        bytes ≤ log.old.spare_bytes → IsOk result }
{
    log.reserve(entries, bytes)?;
    resend.reserve(entries)
}
