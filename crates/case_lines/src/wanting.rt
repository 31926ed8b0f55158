//! Files and an output in memory, of which one call wants memory.
ghost use Rattle.std.specs.Prelude.{Some};
ghost use Rattle.tea_io.specs.MemFiles.{content_of};

use tea_base::{Blob, Text};
use tea_io::{FileFault, Files, MemFiles, MemSink, Sink, SinkFault};

/// Files of which the call with this number, counted from 1, answers want of memory.
#[derive(Drop)]
pub struct WantingFiles {
    pub files: MemFiles,
    pub calls: u32,
    pub wanting: u32,
    pub wants: u64,
}

impl Files for WantingFiles {
    ghost held = { λ all. content_of all.files };

    ghost asked = { λ all. Some all.files.asked };

    ghost faults = { λ all. all.files.faults };

    ghost wants = { λ all. all.wants };

    fn read(&mut self, name: &Text, limit: u64) -> Result<Blob, FileFault> {
        self.calls = self.calls.saturating_add(1);
        if self.calls == self.wanting {
            self.wants = self.wants.saturating_add(1);
            return Err(FileFault::WantOfMemory);
        }
        match self.files.read(name, limit) {
            Ok(bytes) => Ok(bytes),
            Err(FileFault::Failed) => Err(FileFault::Failed),
            Err(FileFault::TooLarge { len }) => Err(FileFault::TooLarge { len }),
            Err(FileFault::WantOfMemory) => {
                self.wants = self.wants.saturating_add(1);
                Err(FileFault::WantOfMemory)
            }
        }
    }

    fn write(&mut self, name: &Text, bytes: &[u8]) -> Result<(), FileFault> {
        self.calls = self.calls.saturating_add(1);
        if self.calls == self.wanting {
            self.wants = self.wants.saturating_add(1);
            return Err(FileFault::WantOfMemory);
        }
        match self.files.write(name, bytes) {
            Ok(()) => Ok(()),
            Err(FileFault::Failed) => Err(FileFault::Failed),
            Err(FileFault::TooLarge { len }) => Err(FileFault::TooLarge { len }),
            Err(FileFault::WantOfMemory) => {
                self.wants = self.wants.saturating_add(1);
                Err(FileFault::WantOfMemory)
            }
        }
    }

    fn look(&mut self, name: &Text) -> Result<(), FileFault> {
        self.calls = self.calls.saturating_add(1);
        if self.calls == self.wanting {
            self.wants = self.wants.saturating_add(1);
            return Err(FileFault::WantOfMemory);
        }
        match self.files.look(name) {
            Ok(()) => Ok(()),
            Err(FileFault::Failed) => Err(FileFault::Failed),
            Err(FileFault::TooLarge { len }) => Err(FileFault::TooLarge { len }),
            Err(FileFault::WantOfMemory) => {
                self.wants = self.wants.saturating_add(1);
                Err(FileFault::WantOfMemory)
            }
        }
    }
}

/// An output of which the call with this number, counted from 1, answers want of memory.
#[derive(Drop)]
pub struct WantingSink {
    pub out: MemSink,
    pub calls: u32,
    pub wanting: u32,
    pub wants: u64,
}

impl Sink for WantingSink {
    ghost written = { λ all. Some all.out.written };

    ghost faults = { λ all. all.out.faults };

    ghost wants = { λ all. all.wants };

    fn write(&mut self, bytes: &[u8]) -> Result<(), SinkFault> {
        self.calls = self.calls.saturating_add(1);
        if self.calls == self.wanting {
            self.wants = self.wants.saturating_add(1);
            return Err(SinkFault::WantOfMemory);
        }
        match self.out.write(bytes) {
            Ok(()) => Ok(()),
            Err(SinkFault::Failed) => Err(SinkFault::Failed),
            Err(SinkFault::WantOfMemory) => {
                self.wants = self.wants.saturating_add(1);
                Err(SinkFault::WantOfMemory)
            }
        }
    }
}
