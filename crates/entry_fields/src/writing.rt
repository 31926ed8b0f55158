//! Writing what an entry records.
ghost use Rattle.std.specs.Prelude.{◌≡◌, ◌++◌, OnOk};
ghost use Rattle.entry_fields.specs.Lent.{lent_what};
ghost use Rattle.entry_fields.specs.Spelling.{what_spelling, FitsWhat};

use crate::lent::LentWhat;
use byte_fields::Writer;
use tea_base::WantOfMemory;

/// Writes what an entry records behind what was written before: 1 for a Join, 2 for an Exit, and for an Event 3, its
/// number in four bytes, how many bytes its payload has in four, and these. Fails for want of memory alone, and then
/// nothing is said of what the writer holds.
pub fn put_what(out: &mut Writer, what: LentWhat<'_>) -> Result<(), WantOfMemory>
    requires { FitsWhat (lent_what what) }
    ensures { OnOk result (out.new ≡ out.old ++ what_spelling (lent_what what.entry)) }
{
    match what {
        LentWhat::Join => out.put_u8(1),
        LentWhat::Exit => out.put_u8(2),
        LentWhat::Event { number, payload } => {
            out.put_u8(3)?;
            out.put_u32(number)?;
            out.put_blob(payload)
        }
    }
}
