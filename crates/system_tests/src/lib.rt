//! Tests of systems, by the public calls of their library: a schedule that is run, and replicas that came by different
//! ways. A test makes what it needs, looks at it by functions that answer a bool, and asserts that. Without its tests this
//! library is empty.
#![tactic(auto)]

#[cfg(test)]
mod rejoining;
#[cfg(test)]
mod restarting;
#[cfg(test)]
mod systems;
