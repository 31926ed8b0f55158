//! The check of a record.
ghost use Rattle.std.specs.Prelude.{◌≡◌, ◌++◌, length};
ghost use Rattle.session_journal.specs.Journal.{record_check};

use sha2::{Digest, Sha256};

/// The first 8 bytes of SHA-256 (FIPS 180-4) of three pieces, one after the other.
#[tactic(auto, unfolding(crate::specs::Journal::record_check))]
fn digest_of(first: &[u8], second: &[u8], third: &[u8]) -> [u8; 8]
    ensures { result ≡ record_check (first.now ++ second.now) third.now }
{
    let mut hasher = Sha256::new();
    hasher.update(first);
    hasher.update(second);
    hasher.update(third);
    let digest: [u8; 32] = hasher.finalize();
    [
        digest[0], digest[1], digest[2], digest[3], digest[4], digest[5], digest[6], digest[7],
    ]
}

/// The check of a body in two pieces, by the check before it. Takes no memory.
pub fn check_of(before: &[u8], front: &[u8], rest: &[u8]) -> [u8; 8]
    ensures check { result ≡ record_check before.now (front.now ++ rest.now) }
    ensures len { length result ≡ 8 }
{
    digest_of(before, front, rest)
}
