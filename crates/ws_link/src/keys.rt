//! The masking keys of a side of a link.

use std::random::RandomSource;
use tungstenite::{MaskKeys, RandomKeys};

/// A client masks what it sends by keys that nobody can foresee, and a server masks nothing (RFC 6455, 5.3).
#[derive(Clone, Copy)]
pub enum Keys<R> {
    Server,
    Client(RandomKeys<R>),
}

impl<R: RandomSource> MaskKeys for Keys<R> {
    fn next_key(&mut self) -> [u8; 4] {
        match self {
            Keys::Server => [0; 4],
            Keys::Client(keys) => keys.next_key(),
        }
    }

    fn has_failed(&self) -> bool {
        match self {
            Keys::Server => false,
            Keys::Client(keys) => keys.has_failed(),
        }
    }
}
