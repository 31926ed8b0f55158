//! Tests of a reflector by posts over shares in memory, by its public call. Without its tests this library is empty.
//!
//! A test makes what it looks at, has a helper look at it by reference, and asserts once.
#![tactic(auto)]

#[cfg(test)]
mod keeper;
#[cfg(test)]
mod links;
#[cfg(test)]
mod runs;
