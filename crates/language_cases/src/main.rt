//! Cases of the modelling language and of values. `language_cases KIND FILE ..` prints each line of the files with ` = ` and
//! what it comes to.
//!
//! | Kind | A case | What it comes to |
//! |---|---|---|
//! | `canonical` | a program | its canonical text, or why it is refused |
//! | `text` | the text of a value | the bytes of the value in hexadecimal digits, and its text |
#![tactic(auto)]

mod canonical;
mod texts;

use case_lines::{CaseFault, CaseKind, print_files};
use std::alloc::Global;
use std::io;

/// What cases are of.
#[derive(Clone, Copy)]
enum LanguageCases {
    Canonical,
    Text,
}

impl CaseKind for LanguageCases {
    fn of_word(word: &str) -> Option<Self> {
        match word {
            "canonical" => Some(LanguageCases::Canonical),
            "text" => Some(LanguageCases::Text),
            _ => None,
        }
    }

    fn outcome(&self, alloc: Global, case: &[u8]) -> Result<String, CaseFault> {
        let outcome = match self {
            LanguageCases::Canonical => canonical::canonical(alloc, case),
            LanguageCases::Text => texts::text_read(alloc, case),
        };
        Ok(outcome?)
    }
}

fn main(rt: HostRuntime) -> io::Result<()> {
    print_files::<LanguageCases, HostRuntime>(&rt)
}
