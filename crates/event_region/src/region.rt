//! A region: bytes in chunks that never move.
ghost use Rattle.std.specs.Prelude.{◌≡◌, ◌≤◌, ◌+◌, ◌^◌, ◌++◌, [], length, IsOk, OnOk, OnErr};
ghost use Rattle.event_region.specs.RegionState.{IsPlaceWithin, place_bytes};
ghost use Rattle.event_region.specs.Chunks.{chunk_size};

use crate::chunks::{CHUNK_SIZE, add_chunks, fill, piece, rest_of_chunk};
use std::alloc::Global;
use std::marker::Model;
use tea_base::WantOfMemory;

/// Where bytes stand in a region.
#[derive(Clone, Copy, Debug, PartialEq, Eq)]
pub struct Place {
    /// How many bytes were appended before them.
    pub start: u64,
    /// How many there are.
    pub len: u32,
}

/// Bytes that are appended and never moved. Contracts see all that were appended, and for how many
/// more there is room.
#[derive(Drop)]
pub struct Region {
    // each has memory for CHUNK_SIZE bytes, and is filled before the next one
    chunks: Vec<Vec<u8>>,
    len: u64,
    spare: u64,
}

impl Model for Region {
    ghost use Rattle.event_region.specs.RegionState.{RegionState};

    ghost Value = { RegionState };

    ghost use Rattle.event_region.specs.Kept.{region_state, IsSoundRegion};

    ghost view = { region_state };

    ghost invariant = { IsSoundRegion };
}

impl Region {
    /// No bytes, and no room for any. Takes no memory.
    pub fn new(alloc: Global) -> Region
        ensures bytes { result.bytes ≡ [] }
        ensures spare { result.spare ≡ 0 }
    {
        Region {
            chunks: Vec::new(alloc),
            len: 0,
            spare: 0,
        }
    }

    /// How many bytes were appended.
    pub fn len(&self) -> u64
        ensures { result ≡ length self.now.bytes }
    {
        self.len
    }

    /// For how many more bytes there is room.
    pub fn spare(&self) -> u64
        ensures { result ≡ self.now.spare }
    {
        self.spare
    }

    /// Makes room for at least so many bytes. Room that is there already is kept, and needs no
    /// memory.
    pub fn reserve(&mut self, bytes: u64) -> Result<(), WantOfMemory>
        requires { bytes ≤ 2 ^ 27 }
        ensures same { self.new.bytes ≡ self.old.bytes }
        ensures room { OnOk result (bytes ≤ self.new.spare) }
        ensures kept { self.old.spare ≤ self.new.spare }
        ensures succeeds { bytes ≤ self.old.spare → IsOk result }
        ensures err { OnErr result (self.new ≡ self.old) }
    {
        if bytes <= self.spare {
            return Ok(());
        }
        let end = self.len.checked_add(bytes).ok_or(WantOfMemory)?;
        add_chunks(&mut self.chunks, end.div_ceil(CHUNK_SIZE as u64) as usize)?;
        self.spare = bytes;
        Ok(())
    }

    /// Appends bytes, at most 65,536 of them, and gives their place. Uses up the room of as many,
    /// and takes no memory.
    pub fn append(&mut self, bytes: &[u8]) -> Place
        requires room { length bytes.now ≤ self.old.spare }
        requires short { length bytes.now ≤ chunk_size }
        ensures bytes { self.new.bytes ≡ self.old.bytes ++ bytes.now }
        ensures spare { self.new.spare + length bytes.now ≡ self.old.spare }
        ensures start { result.start ≡ length self.old.bytes }
        ensures len { result.len ≡ length bytes.now }
    {
        let place = Place {
            start: self.len,
            len: bytes.len() as u32,
        };
        let (first, second) = bytes.split_at(bytes.len().min(rest_of_chunk(self.len)));
        fill(&mut self.chunks, self.len, first);
        fill(&mut self.chunks, self.len + first.len() as u64, second);
        self.len += bytes.len() as u64;
        self.spare -= bytes.len() as u64;
        place
    }

    /// The bytes of a place, at most 65,536 of them: those up to the end of a chunk, and those
    /// behind it. Takes no memory.
    pub fn pieces(&self, at: Place) -> (&[u8], &[u8])
        requires within { IsPlaceWithin self.now.bytes at }
        requires short { at.len ≤ chunk_size }
        ensures { result.0.now ++ result.1.now ≡ place_bytes self.now.bytes at }
    {
        let len = at.len as usize;
        let first = len.min(rest_of_chunk(at.start));
        (
            piece(&self.chunks, at.start, first),
            piece(&self.chunks, at.start + first as u64, len - first),
        )
    }
}
