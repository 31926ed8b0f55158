//! Files of cases: each line is a case, an empty line, or a heading, which begins with `#`.
#![tactic(auto)]

mod expansion;
mod fault;
mod lines;
mod printing;
mod wanting;

pub use expansion::expand;
pub use fault::CaseFault;
pub use lines::{lines_of, told_lines};
pub use printing::{CaseFile, CaseKind, case_files, is_case, print_files, print_outcome};
pub use wanting::{WantingFiles, WantingSink};
