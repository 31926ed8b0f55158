//! Bytes that are copied out.
ghost use Rattle.std.specs.Prelude.{◌≡◌, length};
ghost use Rattle.croquet_page.specs.Seats.{laid_over};

/// Copies as many bytes as there is room for, and gives how many there are.
pub fn copy_out(bytes: &[u8], room: &mut [u8]) -> u64
    ensures count { result ≡ length bytes.now }
    ensures copied { room.new ≡ laid_over bytes.now room.old }
{
    let count = bytes.len().min(room.len());
    room[..count].copy_from_slice(&bytes[..count]);
    bytes.len() as u64
}
