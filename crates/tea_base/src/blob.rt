//! Bytes that are owned.
ghost use Rattle.std.specs.Prelude.{◌≡◌, ◌↔◌, ℕ, List, [], length, IfOk, IsTrue};

use crate::want::WantOfMemory;
use std::alloc::{AllocError, Global};
use std::marker::Model;

/// Bytes. Contracts see them as a list of numbers.
#[derive(Debug, Drop)]
pub struct Blob {
    held: Vec<u8>,
}

impl Model for Blob {
    ghost Value = { List ℕ };

    ghost view = { λ blob. blob.held.items };
}

impl Blob {
    /// No bytes. Takes no memory.
    pub fn new(alloc: Global) -> Blob
        ensures { result ≡ [] }
    {
        Blob {
            held: Vec::new(alloc),
        }
    }

    /// The same bytes in memory of their own.
    pub fn copy(alloc: Global, bytes: &[u8]) -> Result<Blob, WantOfMemory>
        ensures { IfOk result (λ blob. blob ≡ bytes.now) }
    {
        Ok(Blob {
            held: Vec::from_slice(alloc, bytes)?,
        })
    }

    /// The bytes of a vector, which takes no memory.
    pub fn from_vec(held: Vec<u8>) -> Blob
        ensures { result ≡ held.items }
    {
        Blob { held }
    }

    /// The bytes as a vector, which takes no memory.
    pub fn into_vec(self) -> Vec<u8>
        ensures { result.items ≡ self }
    {
        let Blob { held } = self;
        held
    }

    /// The bytes held.
    pub fn bytes(&self) -> &[u8]
        ensures { result.now ≡ self.now }
    {
        self.held.as_slice()
    }

    /// How many bytes there are.
    pub fn len(&self) -> usize
        ensures { result ≡ length self.now }
    {
        self.held.len()
    }

    /// Whether there is none.
    pub fn is_empty(&self) -> bool
        ensures { IsTrue result ↔ (self.now ≡ []) }
    {
        self.held.is_empty()
    }

    /// Whether these are the bytes.
    pub fn is_bytes(&self, bytes: &[u8]) -> bool
        ensures { IsTrue result ↔ (self.now ≡ bytes.now) }
    {
        self.held.as_slice() == bytes
    }
}

impl Clone for Blob {
    ghost is_clone = { λ blob copy. copy ≡ blob };

    fn clone(&self) -> Result<Blob, AllocError> {
        Ok(Blob {
            held: self.held.clone()?,
        })
    }
}

impl PartialEq for Blob {
    ghost use Rattle.std.specs.Str.{bytes_eq};
    ghost use Rattle.std.proofs.lemmas.Cmp.{nat_list_eq_equiv};
    ghost use Rattle.std.specs.Cmp.{partial_equiv_from_equiv};

    ghost eq = { bytes_eq };

    ghost laws = { partial_equiv_from_equiv nat_list_eq_equiv };

    fn eq(&self, other: &Blob) -> bool {
        self.held.as_slice() == other.held.as_slice()
    }
}

impl Eq for Blob {
    ghost use Rattle.std.proofs.lemmas.Cmp.{nat_list_eq_equiv};

    ghost laws = { nat_list_eq_equiv };
}
