//! Chunks of bytes that are filled one after the other.
ghost use Rattle.std.specs.Prelude.{◌≡◌, ◌≤◌, ◌+◌, ◌-◌, ◌*◌, ◌%◌, ◌++◌, length, vec_len, vec_capacity, slice_range, OnOk};
ghost use Rattle.event_region.specs.Chunks.{chunk_size, chunks_joined, AreFilled, KeepsChunks};

use tea_base::WantOfMemory;

/// How many bytes a full chunk holds.
pub const CHUNK_SIZE: usize = 65_536;

/// How many bytes there are from a place to the end of its chunk.
pub fn rest_of_chunk(at: u64) -> usize
    ensures { result ≡ chunk_size - at % chunk_size }
{
    CHUNK_SIZE - (at % CHUNK_SIZE as u64) as usize
}

/// Adds a chunk without bytes.
fn add_chunk(chunks: &mut Vec<Vec<u8>>) -> Result<(), WantOfMemory>
    ensures kept { KeepsChunks chunks.old chunks.new }
    ensures len { OnOk result (vec_len chunks.new ≡ vec_len chunks.old + 1) }
{
    let chunk = Vec::with_capacity(*chunks.allocator(), CHUNK_SIZE)?;
    chunks.push(chunk)?;
    Ok(())
}

/// Adds chunks without bytes until there are so many.
pub fn add_chunks(chunks: &mut Vec<Vec<u8>>, count: usize) -> Result<(), WantOfMemory>
    ensures kept { KeepsChunks chunks.old chunks.new }
    ensures count { OnOk result (count ≤ vec_len chunks.new) }
{
    for _ in chunks.len()..count {
        add_chunk(chunks)?;
    }
    Ok(())
}

/// Appends bytes to a chunk that has memory for them.
fn fill_chunk(chunk: &mut Vec<u8>, bytes: &[u8])
    requires { vec_len chunk.old + length bytes.now ≤ vec_capacity chunk.old }
    ensures items { chunk.new.items ≡ chunk.old.items ++ bytes.now }
    ensures room { vec_capacity chunk.old ≤ vec_capacity chunk.new }
{
    match chunk.extend_from_slice(bytes) {
        Ok(()) => {}
        Err(_) => unreachable!(),
    }
}

/// Appends bytes to chunks that hold `len` bytes. They all go into one chunk.
pub fn fill(chunks: &mut Vec<Vec<u8>>, len: u64, bytes: &[u8])
    requires filled { AreFilled len chunks.old.items }
    requires within { len % chunk_size + length bytes.now ≤ chunk_size }
    requires room { len + length bytes.now ≤ chunk_size * vec_len chunks.old }
    ensures joined { chunks_joined chunks.new.items ≡ chunks_joined chunks.old.items ++ bytes.now }
    ensures filled { AreFilled (len + length bytes.now) chunks.new.items }
    ensures len { vec_len chunks.new ≡ vec_len chunks.old }
{
    if bytes.is_empty() {
        return;
    }
    let chunk = &mut chunks[(len / CHUNK_SIZE as u64) as usize];
    fill_chunk(chunk, bytes);
}

/// The `len` bytes from `start` on, which are all in one chunk.
pub fn piece(chunks: &[Vec<u8>], start: u64, len: usize) -> &[u8]
    requires filled { AreFilled (length (chunks_joined chunks.now)) chunks.now }
    requires within { start % chunk_size + len ≤ chunk_size }
    requires there { start + len ≤ length (chunks_joined chunks.now) }
    ensures { result.now ≡ slice_range (chunks_joined chunks.now) start (start + len) }
{
    if len == 0 {
        return &[];
    }
    let chunk = &chunks[(start / CHUNK_SIZE as u64) as usize];
    let offset = (start % CHUNK_SIZE as u64) as usize;
    &chunk[offset..offset + len]
}
