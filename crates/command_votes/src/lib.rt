//! What the command `votes` gives: what the votes of views on a recorded session come to.
//!
//! | Line | For each |
//! |---|---|
//! | `at N votes K agreed` | entry N on which K votes count that all name one digest |
//! | `at N votes K diverged A B` | entry N on which two of the K votes that count name different digests |
//! | `votes COUNT` | log, last: how many votes count |
//!
//! A is the entry of the first vote on N, and B that of the first that differs from it. The lines come by rising N. A
//! view votes once on an entry: of several votes its first counts.
#![tactic(auto)]

mod laws;
mod reading;
mod text;

pub use laws::votes_have_one_form;
pub use text::votes;
