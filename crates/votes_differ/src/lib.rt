//! What it shows of two views that their votes on one entry differ.
#![tactic(auto)]

mod laws;

pub use laws::one_did_not_run;
