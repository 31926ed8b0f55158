//! Cases of the program's commands in which a call fails, wants memory or is quiet, and some of `inspect` and `trace`. `croquet_cases KIND FILE ..`
//! runs each line of the files, and prints it with ` = ` and what it comes to. What else needs no such call is tested over the program
//! itself.
//!
//! | Kind | A case | What it comes to |
//! |---|---|---|
//! | `commands` | `WORDS ; NAME=CONTENT ; NAME:HEX ; .. ; fail file N ; want output N` | what the command prints, the file `f` and the journal `j` |
//! | `inspects` | `NAME EVERY SCRIPT \| QUERIES \| PROGRAM` | what `inspect` prints of the log that `stamp` makes of the script |
//! | `traces` | `NAME FROM TO SCRIPT \| PROGRAM` | what `trace` prints of such a log |
//! | `views` | `NAME VIEW SCRIPT \| PROGRAM \| LINK \| LINK ..` | what `join` of this session as this view, with this script, does over a net that gives these links |
//! | `lives` | `NAME VIEW LINES \| PROGRAM \| LINK \| LINK ..` | what `join` with `-` does so, where these lines come from its feed |
//! | `reflectors` | `NAME N \| PROGRAM \| LINK \| LINK ..` | what `reflect` of this session to N connections does over such a net |
//!
//! The words of a command are divided by blanks. A content, a script and queries have their lines divided by ` / `. Call N of the files, or of the output,
//! fails, or wants memory; `fail store N` and `fail journal N` are of the stores, and of a journal that was opened.
//!
//! Behind what is printed stands the status in square brackets, if it is not 0.
//!
//! In `views`, `lives` and `reflectors` the lines are divided by ` / `, and `-` is no line. The net gives its links
//! one after the other, and the clock stays at 0. Behind the program stand, in any order:
//!
//! | Part | What it is |
//! |---|---|
//! | frames in hexadecimal digits, divided by blanks | a link, to which these frames come, and then its end |
//! | `fail N`, `quiet N` and `quiet N-M` among them | which calls of the link fail, and which receives are quiet; receives and sends are numbered together, from 1 |
//! | `address X` | the address, in place of `localhost:8080` |
//! | `fail net N`, `fail file N`, `fail output N` | the net's call N fails, or the files' or the output's |
//! | `want output N` | call N of the output wants memory |
//! | `idle N`, `idle N-M` | call N of the feed tells nothing, or calls N to M do; there may be several such parts |
//! | `fail feed N` | call N of the feed fails |
//!
//! The feed is asked until it tells nothing or the end, and after 64 lines; then the link is heard once, and so on.
//!
//! Behind the status stands ` f=` and a reflector's log, if it was written; then for each link that was given back, in order, ` > `,
//! the frames that were sent on it, and how many receives were made on it; then how many links were given back, and how many were
//! asked for.
#![tactic(auto)]

mod command;
mod faults;
mod feed;
mod kind;
mod link;
mod moments;
mod net_case;
mod net_run;
mod recorded;
mod run;
mod stores;
mod stretch;
mod telling;
mod words;

use crate::kind::{CommandCases, outcome};
use case_lines::{CaseFault, case_files, expand, is_case, print_outcome};
use std::io::{self, ErrorKind};
use std::sync::Wait;
use std::thread::Threads;

fn main(rt: HostRuntime) -> io::Result<()> {
    for file in &case_files(&rt)? {
        let Some(kind) = CommandCases::of_word(file.word.as_str()) else {
            return Err(ErrorKind::InvalidInput.into());
        };
        print_cases(&rt, kind, file.text.as_str())?;
    }
    Ok(())
}

/// Prints each case of a text with what it comes to. What is no case is printed as it is.
fn print_cases<R: Threads + Wait + Sync + Print + AllocGlobal>(
    rt: &R,
    kind: CommandCases,
    text: &str,
) -> io::Result<()> {
    for line in text.lines() {
        if is_case(line) {
            print_outcome(rt, line, line_outcome(rt, kind, line))?;
        } else {
            println!(rt; "{line}")?;
        }
    }
    Ok(())
}

fn line_outcome<R: Threads + Wait + Sync + AllocGlobal>(
    rt: &R,
    kind: CommandCases,
    line: &str,
) -> Result<String, CaseFault> {
    outcome(rt, kind, expand(rt.alloc(), line)?.bytes())
}
