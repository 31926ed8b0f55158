//! A sink in memory.
ghost use Rattle.std.specs.Prelude.{◌≡◌, ◌↔◌, [], Some, OnOk, OnErr, IsErrOf, IsTrue};
ghost use Rattle.tea_io.specs.Told.{with_more};
ghost use Rattle.tea_io.specs.Sink.{GrowsWithin, SinkCause, SinkWant};
ghost use Rattle.tea_io.specs.Calls.{fails_at};
ghost use Rattle.tea_io.specs.MemSink.{sink_after};

use crate::calls::is_failing;
use crate::sink::{Sink, SinkFault};
use std::alloc::Global;
use std::marker::Model;
use tea_base::{Blob, Numbers};

/// A sink that keeps what is written. The calls whose numbers it was given fail and write nothing.
/// They are counted from 1. A call that answers want of memory writes nothing, and is not among them.
#[derive(Drop)]
pub struct MemSink {
    written: Vec<u8>,
    failing: Numbers,
    next_call: u64,
    faults: u64,
    wants: u64,
}

impl Model for MemSink {
    ghost use Rattle.tea_io.specs.MemSink.{MemSinkState};

    ghost Value = { MemSinkState };

    ghost view = { λ sink. record {
      written = sink.written.items;
      failing = sink.failing;
      next_call = sink.next_call;
      faults = sink.faults;
      wants = sink.wants;
    } };
}

impl MemSink {
    /// An empty sink whose calls of these numbers fail. Takes no memory.
    pub fn new(alloc: Global, fail: Numbers) -> MemSink
        ensures written { result.written ≡ [] }
        ensures failing { result.failing ≡ fail }
        ensures first { result.next_call ≡ 1 }
        ensures faults { result.faults ≡ 0 }
        ensures wants { result.wants ≡ 0 }
    {
        MemSink {
            written: Vec::new(alloc),
            failing: fail,
            next_call: 1,
            faults: 0,
            wants: 0,
        }
    }

    /// The bytes written so far.
    pub fn bytes(&self) -> &[u8]
        ensures { result.now ≡ self.now.written }
    {
        self.written.as_slice()
    }

    /// The bytes written so far, which takes no memory.
    pub fn into_bytes(self) -> Blob
        ensures { result ≡ self.written }
    {
        let MemSink { written, .. } = self;
        Blob::from_vec(written)
    }
}

impl Sink for MemSink {
    ghost written = { λ sink. Some sink.written };

    ghost faults = { λ sink. sink.faults };

    ghost wants = { λ sink. sink.wants };

    fn write(&mut self, bytes: &[u8]) -> Result<(), SinkFault>
        ensures ok { OnOk result (Some self.new.written ≡ with_more (Some self.old.written) bytes.now) }
        ensures part { OnErr result
            (GrowsWithin (Some self.old.written) (Some self.new.written) bytes.now) }
        ensures cause { SinkCause self.old.faults self.new.faults result }
        ensures want { SinkWant self.old.wants self.new.wants result }

        // A call fails exactly where its number stands in the list.
        ensures fails { IsErrOf result SinkFault.Failed
            ↔ IsTrue (fails_at self.old.failing self.old.next_call) }
        ensures leaves { self.new ≡ sink_after result self.old bytes.now }
    {
        if is_failing(self.failing.as_slice(), self.next_call) {
            self.next_call = self.next_call.saturating_add(1);
            self.faults = self.faults.saturating_add(1);
            return Err(SinkFault::Failed);
        }
        if self.written.extend_from_slice(bytes).is_err() {
            self.wants = self.wants.saturating_add(1);
            return Err(SinkFault::WantOfMemory);
        }
        self.next_call = self.next_call.saturating_add(1);
        Ok(())
    }
}
