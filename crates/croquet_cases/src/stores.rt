//! The stores of a case.
use crate::faults::Faults;
use std::alloc::Global;
use store_io::MemStores;
use tea_base::{Numbers, WantOfMemory};
use tea_io::NamedBlobs;

/// Stores without a file, of which one call fails, and one of the journal that is opened.
pub(crate) fn stores_of(alloc: Global, faults: Faults) -> Result<MemStores, WantOfMemory> {
    let failing = Numbers::from_vec(vec![in alloc; faults.failing_store]?);
    let failing_opened = Numbers::from_vec(vec![in alloc; faults.failing_journal]?);
    Ok(MemStores::new(alloc, NamedBlobs::new(alloc), failing, failing_opened, 0))
}
