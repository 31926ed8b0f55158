//! Writing fields to the end of a buffer. Numbers are big-endian.
ghost use Rattle.std.specs.Prelude.{◌≡◌, ◌<◌, ◌^◌, ◌++◌, ◌∷◌, [], List, ℕ, OnOk, OnErr, true};
ghost use Rattle.std.specs.Int.{to_be_bytes, w16, w32, w64};
ghost use Rattle.std.specs.Str.{all_scalars, encode_utf8_all};
ghost use Rattle.byte_fields.specs.Fields.{FitsBlob, blob, text_field};

use std::alloc::Global;
use std::marker::Model;
use tea_base::{Blob, Text, WantOfMemory};

/// A writer of bytes. Contracts see it as the list of those that were written. A write without memory adds nothing.
#[derive(Drop)]
pub struct Writer {
    written: Vec<u8>,
}

impl Model for Writer {
    ghost Value = { List ℕ };

    ghost view = { λ writer. writer.written.items };
}

impl Writer {
    /// Nothing written. Takes no memory.
    pub fn new(alloc: Global) -> Writer
        ensures { result ≡ [] }
    {
        Writer {
            written: Vec::new(alloc),
        }
    }

    /// Adds these bytes.
    pub fn put_bytes(&mut self, bytes: &[u8]) -> Result<(), WantOfMemory>
        ensures ok { OnOk result (self.new ≡ self.old ++ bytes.now) }
        ensures err { OnErr result (self.new ≡ self.old) }
    {
        self.written.extend_from_slice(bytes)?;
        Ok(())
    }

    /// Adds a byte.
    pub fn put_u8(&mut self, value: u8) -> Result<(), WantOfMemory>
        ensures ok { OnOk result (self.new ≡ self.old ++ value ∷ []) }
        ensures err { OnErr result (self.new ≡ self.old) }
    {
        self.written.push(value)?;
        Ok(())
    }

    /// Adds two bytes.
    pub fn put_u16(&mut self, value: u16) -> Result<(), WantOfMemory>
        ensures ok { OnOk result (self.new ≡ self.old ++ to_be_bytes w16 value) }
        ensures err { OnErr result (self.new ≡ self.old) }
    {
        self.put_bytes(&value.to_be_bytes())
    }

    /// Adds four bytes.
    pub fn put_u32(&mut self, value: u32) -> Result<(), WantOfMemory>
        ensures ok { OnOk result (self.new ≡ self.old ++ to_be_bytes w32 value) }
        ensures err { OnErr result (self.new ≡ self.old) }
    {
        self.put_bytes(&value.to_be_bytes())
    }

    /// Adds eight bytes.
    pub fn put_u64(&mut self, value: u64) -> Result<(), WantOfMemory>
        ensures ok { OnOk result (self.new ≡ self.old ++ to_be_bytes w64 value) }
        ensures err { OnErr result (self.new ≡ self.old) }
    {
        self.put_bytes(&value.to_be_bytes())
    }

    /// Adds how many items there are, in four bytes. The spelling of each belongs behind it.
    pub fn put_count(&mut self, count: usize) -> Result<(), WantOfMemory>
        requires { count < 2 ^ 32 }
        ensures ok { OnOk result (self.new ≡ self.old ++ to_be_bytes w32 count) }
        ensures err { OnErr result (self.new ≡ self.old) }
    {
        self.put_u32(count as u32)
    }

    /// Adds how many bytes there are, in four bytes, and these.
    pub fn put_blob(&mut self, bytes: &[u8]) -> Result<(), WantOfMemory>
        requires { FitsBlob bytes.now }
        ensures ok { OnOk result (self.new ≡ self.old ++ blob bytes.now) }
        ensures err { OnErr result (self.new ≡ self.old) }
    {
        let length = (bytes.len() as u32).to_be_bytes();
        self.written.reserve(4 + bytes.len())?;
        self.written.extend_from_slice(&length)?;
        self.written.extend_from_slice(bytes)?;
        Ok(())
    }

    /// Adds how many bytes of UTF-8 (RFC 3629) a text has, in four bytes, and these.
    pub fn put_text(&mut self, text: &Text) -> Result<(), WantOfMemory>
        requires { FitsBlob (encode_utf8_all text.now) }
        ensures ok { OnOk result (self.new ≡ self.old ++ text_field text.now) }
        ensures err { OnErr result (self.new ≡ self.old) }
        ensures scalars { all_scalars text.now ≡ true }
    {
        self.put_blob(text.bytes())
    }

    /// All that was written. Takes no memory.
    pub fn done(self) -> Blob
        ensures { result ≡ self }
    {
        let Writer { written } = self;
        Blob::from_vec(written)
    }
}
