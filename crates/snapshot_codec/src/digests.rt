//! Digests of bytes, and the ids of sessions.
ghost use Rattle.std.specs.Prelude.{◌≡◌, ◌<◌, ◌^◌, ◌++◌, ℕ, List, length, encode_utf8_all};
ghost use Rattle.byte_fields.specs.Fields.{text_field};
ghost use Rattle.sha2.specs.Hashers.{Holds256};
ghost use Rattle.sha2.specs.Sha256.{sha256};
ghost use Rattle.model_value.specs.Plain.{InBounds};
ghost use Rattle.model_value.specs.View.{plain};
ghost use Rattle.snapshot_codec.specs.Spelling.{persisted_bytes};

use crate::values::{hash_text, hash_value, is_nil};
use model_value::Value;
use sha2::{Digest, Sha256};
use tea_base::{SessionId, Text};

/// The SHA-256 (FIPS 180-4) of these bytes. Takes no memory.
pub fn digest(bytes: &[u8]) -> [u8; 32]
    ensures { result ≡ sha256 bytes.now }
{
    Sha256::digest(bytes)
}

/// The id of the session of this name, this program's text and this persisted value: the SHA-256 (FIPS 180-4) of the length of
/// the name's UTF-8 (RFC 3629) as four big-endian bytes, that UTF-8, the text and, where the value is not nil, a zero byte and
/// the value's spelling. The name has to have fewer than 2^32 bytes of UTF-8, and the value has to be in bounds. Takes no
/// memory.
pub fn session_id(name: &Text, program: &[u8], persisted: &Value) -> SessionId
    requires name { length (encode_utf8_all name.now) < 2 ^ 32 }
    requires bounds { InBounds (plain persisted.now) }
    ensures { result.0 ≡ sha256 (text_field name.now ++ program.now ++ persisted_bytes (plain persisted.now)) }
{
    let mut hasher = Sha256::new();
    hash_text(&mut hasher, name);
    hasher.update(program);
    hash_persisted(&mut hasher, persisted);
    SessionId(hasher.finalize())
}

/// Takes a zero byte and the value's spelling, where it is not nil.
fn hash_persisted(hasher: &mut Sha256, persisted: &Value)
    requires { InBounds (plain persisted.now) }
    ensures { (m : List ℕ) → Holds256 hasher.old m → Holds256 hasher.new (m ++ persisted_bytes (plain persisted.now)) }
{
    if is_nil(persisted) {
        return;
    }
    hasher.update([0]);
    hash_value(hasher, persisted);
}
