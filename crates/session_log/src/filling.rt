//! Writing fields into memory that was taken before. Numbers are big-endian.
ghost use Rattle.std.specs.Prelude.{◌≡◌, ◌≤◌, ◌∷◌, [], length, IfOk};
ghost use Rattle.std.specs.Int.{to_be_bytes, w32, w64};
ghost use Rattle.session_log.specs.Room.{Fills};

use std::alloc::Global;
use std::marker::Model;
use tea_base::{Blob, WantOfMemory};

/// Bytes that are written into memory that was taken before. So no write is out of memory. Contracts see those that were
/// written, and for how many more there is memory.
#[derive(Drop)]
pub struct Filling {
    written: Vec<u8>,
}

impl Model for Filling {
    ghost use Rattle.std.specs.Prelude.{◌-◌, vec_len, vec_capacity};
    ghost use Rattle.session_log.specs.Room.{FillingState};

    ghost Value = { FillingState };

    ghost view = { λ filling. record {
      bytes = filling.written.items;
      spare = vec_capacity filling.written - vec_len filling.written;
    } };
}

impl Filling {
    /// Nothing written, and memory for so many bytes.
    pub fn new(alloc: Global, len: usize) -> Result<Filling, WantOfMemory>
        ensures bytes { IfOk result (λ filling. filling.bytes ≡ []) }
        ensures spare { IfOk result (λ filling. filling.spare ≡ len) }
    {
        Ok(Filling {
            written: Vec::with_capacity(alloc, len)?,
        })
    }

    /// Adds these bytes.
    pub fn put_bytes(&mut self, bytes: &[u8])
        requires { length bytes.now ≤ self.old.spare }
        ensures { Fills self.old self.new bytes.now }
    {
        match self.written.extend_from_slice(bytes) {
            Ok(()) => {}
            Err(_) => unreachable!(),
        }
    }

    /// Adds a byte.
    pub fn put_u8(&mut self, value: u8)
        requires { 1 ≤ self.old.spare }
        ensures { Fills self.old self.new (value ∷ []) }
    {
        self.put_bytes(&[value]);
    }

    /// Adds four bytes.
    pub fn put_u32(&mut self, value: u32)
        requires { 4 ≤ self.old.spare }
        ensures { Fills self.old self.new (to_be_bytes w32 value) }
    {
        self.put_bytes(&value.to_be_bytes());
    }

    /// Adds eight bytes.
    pub fn put_u64(&mut self, value: u64)
        requires { 8 ≤ self.old.spare }
        ensures { Fills self.old self.new (to_be_bytes w64 value) }
    {
        self.put_bytes(&value.to_be_bytes());
    }

    /// All that was written.
    pub fn done(self) -> Blob
        ensures { result ≡ self.bytes }
    {
        let Filling { written } = self;
        Blob::from_vec(written)
    }
}
