//! The lines of files of cases, printed with what the cases come to.
use crate::expansion::expand;
use crate::fault::CaseFault;
use std::alloc::Global;
use std::io::{self, ErrorKind};
use std::rt::{Env, Files};
use std::{env, fs};

/// What cases are of, which is named by a word of the command line.
pub trait CaseKind: Drop {
    /// The kind of a word, if there is one.
    fn of_word(word: &str) -> Option<Self>;

    /// What the bytes of a case come to, in one line.
    fn outcome(&self, alloc: Global, case: &[u8]) -> Result<String, CaseFault>;
}

/// The text of a file of cases, and the word that tells what they are of.
#[derive(Drop)]
pub struct CaseFile {
    pub word: String,
    pub text: String,
}

/// The files that the command line names, each behind its word.
pub fn case_files<R: Env + Files + AllocGlobal>(rt: &R) -> io::Result<Vec<CaseFile>> {
    let words: Vec<String> = env::args(rt)?.skip(1).collect(rt.alloc())?;
    let mut files = Vec::new(rt.alloc());
    for pair in words.chunks(2) {
        let [word, file] = pair else {
            return Err(ErrorKind::InvalidInput.into());
        };
        files.push(CaseFile {
            word: String::from_str(rt.alloc(), word.as_str())?,
            text: fs::read_to_string(rt, file.as_str())?,
        })?;
    }
    Ok(files)
}

/// Whether a line is a case, and not empty or a heading.
pub fn is_case(line: &str) -> bool {
    !line.is_empty() && !line.starts_with('#')
}

/// Prints a case with ` = ` and what it comes to.
pub fn print_outcome<R: Print + AllocGlobal>(
    rt: &R,
    line: &str,
    outcome: Result<String, CaseFault>,
) -> io::Result<()> {
    let told = match outcome {
        Ok(outcome) => outcome,
        Err(CaseFault::NoCase) => String::from_str(rt.alloc(), "no case")?,
        Err(CaseFault::WantOfMemory) => return Err(ErrorKind::OutOfMemory.into()),
    };
    println!(rt; "{line} = {told}")
}

/// Prints the cases of the files that the command line names, each behind its kind. What is no case is printed as it is.
pub fn print_files<K: CaseKind, R: Env + Files + Print + AllocGlobal>(rt: &R) -> io::Result<()> {
    for file in &case_files(rt)? {
        let Some(kind) = K::of_word(file.word.as_str()) else {
            return Err(ErrorKind::InvalidInput.into());
        };
        print_lines(rt, &kind, file.text.as_str())?;
    }
    Ok(())
}

fn print_lines<K: CaseKind>(
    rt: &(impl Print + AllocGlobal),
    kind: &K,
    text: &str,
) -> io::Result<()> {
    for line in text.lines() {
        if is_case(line) {
            print_outcome(rt, line, outcome(rt.alloc(), kind, line))?;
        } else {
            println!(rt; "{line}")?;
        }
    }
    Ok(())
}

fn outcome<K: CaseKind>(alloc: Global, kind: &K, line: &str) -> Result<String, CaseFault> {
    kind.outcome(alloc, expand(alloc, line)?.bytes())
}
