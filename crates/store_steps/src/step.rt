//! A step, read from its line.
use std::alloc::Global;
use std::io::{self, ErrorKind};
use tea_base::{Text, WantOfMemory};

/// What is done.
#[derive(Drop)]
pub(crate) enum Step {
    Found { name: Text, bytes: Vec<u8> },
    Open { name: Text, limit: u64 },
    Act(Act),
    Back,
    /// The line is no step.
    Unread,
}

/// What is done to a store.
#[derive(Drop)]
pub(crate) enum Act {
    Append(Vec<u8>),
    Sync,
    Cut(u64),
}

/// The step of a line.
pub(crate) fn read_step(alloc: Global, line: &str) -> io::Result<Step> {
    let mut words = line.split(' ');
    let word = words.next().unwrap_or("");
    let first = words.next().unwrap_or("");
    let second = words.next().unwrap_or("");
    match word {
        "found" => Ok(Step::Found {
            name: text(alloc, first)?,
            bytes: bytes(alloc, second)?,
        }),
        "open" => Ok(Step::Open {
            name: text(alloc, first)?,
            limit: number(second)?,
        }),
        "append" => Ok(Step::Act(Act::Append(bytes(alloc, first)?))),
        "sync" => Ok(Step::Act(Act::Sync)),
        "cut" => Ok(Step::Act(Act::Cut(number(first)?))),
        "back" => Ok(Step::Back),
        _ => Ok(Step::Unread),
    }
}

fn text(alloc: Global, word: &str) -> io::Result<Text> {
    Text::copy(alloc, word).map_err(|_: WantOfMemory| ErrorKind::OutOfMemory.into())
}

fn bytes(alloc: Global, word: &str) -> io::Result<Vec<u8>> {
    match hex::decode(alloc, word.as_bytes()) {
        Ok(bytes) => Ok(bytes),
        Err(_) => Err(ErrorKind::InvalidInput.into()),
    }
}

fn number(word: &str) -> io::Result<u64> {
    match word.parse::<u64>() {
        Ok(number) => Ok(number),
        Err(_) => Err(ErrorKind::InvalidInput.into()),
    }
}
