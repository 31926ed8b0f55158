//! Tests of threads that share a session, by the public calls of the lock. A test makes what it owns, and a function of
//! references looks at it: so its proof is short. Without its tests this library is empty.
#![tactic(auto)]

#[cfg(test)]
mod kept_sessions;
#[cfg(test)]
mod shared_sessions;
