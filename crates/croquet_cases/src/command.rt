//! A command over files that a case writes out.
use crate::faults::{Faults, NONE};
use crate::run::Given;
use crate::words::number_of;
use case_lines::{CaseFault, lines_of, told_lines};
use std::alloc::Global;
use std::sync::Wait;
use std::thread::Threads;
use tea_base::{Blob, WantOfMemory};

/// A command: `WORDS ; NAME=CONTENT ; NAME:HEX ; .. ; fail file N ; want output N`. The words are divided by blanks; the lines of
/// a content are divided by ` / `; call N of the files, or of the output, fails, or wants memory; `fail store N` and `fail journal N` are of the
/// stores and of a journal that was opened.
#[derive(Drop)]
struct Command {
    given: Given,
    faults: Faults,
}

impl Command {
    fn read(alloc: Global, case: &str) -> Result<Command, CaseFault> {
        let mut parts = case.split(" ; ");
        let mut command = Command {
            given: Given::new(alloc),
            faults: NONE,
        };
        command.given.add_words(parts.next().unwrap_or_default())?;
        for part in parts {
            command.add(alloc, part)?;
        }
        Ok(command)
    }

    fn add(&mut self, alloc: Global, part: &str) -> Result<(), CaseFault> {
        if let Some(digits) = part.strip_prefix("fail file ") {
            self.faults.failing_file = number_of(digits)?;
        } else if let Some(digits) = part.strip_prefix("fail store ") {
            self.faults.failing_store = number_of(digits)?;
        } else if let Some(digits) = part.strip_prefix("fail journal ") {
            self.faults.failing_journal = number_of(digits)?;
        } else if let Some(digits) = part.strip_prefix("fail output ") {
            self.faults.failing_output = number_of(digits)?;
        } else if let Some(digits) = part.strip_prefix("want file ") {
            self.faults.wanting_file = number_of(digits)?;
        } else if let Some(digits) = part.strip_prefix("want output ") {
            self.faults.wanting_output = number_of(digits)?;
        } else if let Some((name, content)) = part.split_once('=') {
            let lines = lines_of(alloc, content.as_bytes())?;
            self.given.add_file(name, lines.as_slice())?;
        } else {
            let (name, digits) = part.split_once(':').ok_or(CaseFault::NoCase)?;
            let bytes = hex::decode(alloc, digits)?;
            self.given.add_file(name, bytes.as_slice())?;
        }
        Ok(())
    }
}

/// What a command comes to: what it prints, its status, and ` f=` with the bytes of the file `f`, if it is there, and ` j=` with those of the journal `j`.
pub(crate) fn outcome<R: Threads + Wait + Sync + AllocGlobal>(
    rt: &R,
    case: &str,
) -> Result<String, CaseFault> {
    let alloc = rt.alloc();
    let command = Command::read(alloc, case)?;
    let run = command.given.run(rt, command.faults)?;
    let mut told = told_lines(alloc, run.text.bytes(), run.status.number())?;
    if let Some(file) = run.file(alloc, "f")? {
        put_file(alloc, &mut told, "f=", &file)?;
    }
    if let Some(journal) = run.journal(alloc, "j")? {
        put_file(alloc, &mut told, "j=", &journal)?;
    }
    Ok(told)
}

fn put_file(alloc: Global, told: &mut String, name: &str, file: &Blob) -> Result<(), WantOfMemory> {
    if !told.is_empty() {
        told.push(' ')?;
    }
    told.push_str(name)?;
    told.push_str(hex::encode(alloc, file.bytes())?.as_str())?;
    Ok(())
}
