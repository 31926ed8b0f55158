//! Tests of the reflector and of a connection over links in memory, by their public calls. Without its tests this library is empty.
//!
//! A test makes what it looks at, has a helper look at it by reference, and asserts once.
#![tactic(auto)]

#[cfg(test)]
mod links;
#[cfg(test)]
mod rejoined;
#[cfg(test)]
mod runs;
