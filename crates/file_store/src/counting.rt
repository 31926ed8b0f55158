//! The count of the calls that were not done.
ghost use Rattle.std.specs.Prelude.{◌≡◌, ◌≤◌, ◌↔◌};
ghost use Rattle.std.specs.IoError.{error_kind};
ghost use Rattle.tea_io.specs.Told.{count_up, Rose};

use std::io::{self, ErrorKind};
use store_io::StoreFault;

/// Counts a call that was not done.
pub(crate) fn count(faults: &mut u64, fault: StoreFault) -> StoreFault
    ensures same { result ≡ fault }
    ensures counted { faults.new ≡ count_up faults.old }
    ensures later { faults.old ≤ faults.new }
    ensures rose { Rose faults.old faults.new }
{
    *faults = faults.saturating_add(1);
    fault
}

/// Why the system did not do a call.
pub(crate) fn fault_of(error: io::Error) -> StoreFault
    ensures { result ≡ StoreFault.WantOfMemory ↔ error_kind error ≡ ErrorKind.OutOfMemory }
{
    if error.kind() == ErrorKind::OutOfMemory {
        return StoreFault::WantOfMemory;
    }
    StoreFault::Failed
}
