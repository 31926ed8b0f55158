//! Tests of shares of a net in memory, and of what stops who accepts by them. Without its tests this library is empty.
#![tactic(auto)]

#[cfg(test)]
mod threads;
