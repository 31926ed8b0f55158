//! What fails in a case.
use case_lines::WantingSink;
use std::alloc::Global;
use tea_base::{Numbers, WantOfMemory};
use tea_io::MemSink;

/// Which call of the net, of the files, of the stores, of the journal that was opened, of the output and of the feed fails, and which wants memory, counted from 1; 0 is none.
#[derive(Clone, Copy)]
pub(crate) struct Faults {
    pub(crate) failing_net: u32,
    pub(crate) failing_file: u32,
    pub(crate) failing_store: u32,
    pub(crate) failing_journal: u32,
    pub(crate) failing_output: u32,
    pub(crate) failing_feed: u32,
    pub(crate) wanting_file: u32,
    pub(crate) wanting_output: u32,
}

/// All calls go well.
pub(crate) const NONE: Faults = Faults {
    failing_net: 0,
    failing_file: 0,
    failing_store: 0,
    failing_journal: 0,
    failing_output: 0,
    failing_feed: 0,
    wanting_file: 0,
    wanting_output: 0,
};

impl Faults {
    /// Which call of the files fails, counted with so many writes that put what they hold there.
    pub(crate) fn failing_file_behind(&self, writes: u32) -> u32 {
        match self.failing_file {
            0 => 0,
            number => number.saturating_add(writes),
        }
    }

    /// An output of which one call fails, and one wants memory.
    pub(crate) fn output(&self, alloc: Global) -> Result<WantingSink, WantOfMemory> {
        let failing = Numbers::from_vec(vec![in alloc; self.failing_output]?);
        Ok(WantingSink {
            out: MemSink::new(alloc, failing),
            calls: 0,
            wanting: self.wanting_output,
            wants: 0,
        })
    }
}
