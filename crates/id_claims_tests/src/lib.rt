//! Tests of threads that claim ids, by the public calls of `id_claims`. Without its tests this library is empty.
#![tactic(auto)]

#[cfg(test)]
mod claims;
