//! The line that is shown of long work.
use command_words::{Command, read_command};
use std::alloc::Global;
use tea_base::{WantOfMemory, Words};

/// Work of which a line is shown where it takes long.
#[derive(Drop)]
pub struct Work {
    /// The command.
    name: &'static str,
    /// What is counted.
    things: &'static str,
    /// How many there are, where the words tell it, and 0 else.
    total: u64,
}

/// How far work is.
#[derive(Clone, Copy)]
pub struct Pace {
    /// How many things are done, 0 where nobody counts them.
    pub done: u64,
    /// How many there are, 0 where that is not known.
    pub total: u64,
    /// In how many milliseconds these were done.
    pub millis: u64,
}

/// The name of a command that may take long, and what is counted of its work.
fn names_of(command: &Command) -> Option<(&'static str, &'static str)> {
    match command {
        Command::Stamp { .. } => Some(("stamp", "lines")),
        Command::Replay(_) => Some(("replay", "entries")),
        Command::Inspect(_) => Some(("inspect", "entries")),
        Command::Trace(_) => Some(("trace", "entries")),
        Command::Drill(_) => Some(("drill", "events")),
        _ => None,
    }
}

/// How much there is to do, where the words tell it, and 0 else.
fn total_of(command: &Command) -> u64 {
    match command {
        Command::Drill(request) => {
            u64::from(request.views).saturating_mul(u64::from(request.events))
        }
        _ => 0,
    }
}

/// The work of a command, where it may take long.
fn work_in(command: &Command) -> Option<Work> {
    let (name, things) = names_of(command)?;
    Some(Work {
        name,
        things,
        total: total_of(command),
    })
}

/// The work of the command that these words are, where it may take long.
pub fn work_of(alloc: Global, words: &Words) -> Result<Option<Work>, WantOfMemory> {
    match read_command(alloc, words)? {
        Some(command) => Ok(work_in(&command)),
        None => Ok(None),
    }
}

impl Work {
    /// How many things there are to do, as the words tell, 0 where they do not.
    pub fn total(&self) -> u64 {
        self.total
    }

    /// What is shown after so many seconds, without a line end. Where things are counted it tells how many are done, and how long the rest takes at
    /// that speed.
    pub fn line(&self, alloc: Global, seconds: u64, pace: Pace) -> Result<String, WantOfMemory> {
        let (name, things) = (self.name, self.things);
        let mut line = format!(in alloc; "{name}: {seconds} s")?;
        let (done, total) = (pace.done, pace.total);
        if total > 0 {
            write!(line, ", {done} of {total} {things}")?;
        }
        if done > 0 && done < total {
            let whole = total.saturating_mul(pace.millis) / done / 1000;
            let left = whole.saturating_sub(seconds);
            write!(line, ", some {left} s left")?;
        }
        Ok(line)
    }
}
