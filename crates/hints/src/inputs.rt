//! Which input of a command a line of a fault names, and which files are looked at for its hint.
use command_outcome::Input;
use command_words::{Command, read_command};
use std::alloc::Global;
use std::str;
use tea_base::{Text, WantOfMemory, Words};

/// The input that the line of a fault names.
pub fn input_of(line: &[u8]) -> Option<Input> {
    let text = str::from_utf8(line).unwrap_or_default();
    match text.strip_prefix("input ")?.trim_end() {
        "script" => Some(Input::Script),
        "program" => Some(Input::Program),
        "log" => Some(Input::Log),
        "journal" => Some(Input::Journal),
        "snapshot" => Some(Input::Snapshot),
        "persisted" => Some(Input::Persisted),
        "time" => Some(Input::Time),
        "address" => Some(Input::Address),
        "every" => Some(Input::Every),
        "queries" => Some(Input::Queries),
        "config" => Some(Input::Config),
        _ => None,
    }
}

/// The file of a command's program.
fn program_of(command: &Command) -> Option<&Text> {
    match command {
        Command::Check { program } => Some(program),
        Command::Replay(request) => Some(&request.program),
        Command::Inspect(request) => Some(&request.program),
        Command::Trace(request) => Some(&request.program),
        Command::Join(request) => Some(&request.program),
        Command::Live(request) => Some(&request.program),
        Command::Reflect(request) => Some(&request.program),
        _ => None,
    }
}

/// The file of the log that a command reads.
fn log_of(command: &Command) -> Option<&Text> {
    match command {
        Command::Stamp { from, .. } => from.as_ref(),
        Command::Replay(request) => Some(&request.log),
        Command::Inspect(request) => Some(&request.log),
        Command::Trace(request) => Some(&request.log),
        Command::Votes { log } => Some(log),
        Command::Reflect(request) => request.from.as_ref(),
        _ => None,
    }
}

/// The file of a command's persisted value.
fn persisted_of(command: &Command) -> Option<&Text> {
    match command {
        Command::Replay(request) => request.persisted.as_ref(),
        Command::Inspect(request) => request.persisted.as_ref(),
        Command::Trace(request) => request.persisted.as_ref(),
        Command::Join(request) => request.persisted.as_ref(),
        Command::Live(request) => request.persisted.as_ref(),
        Command::Reflect(request) => request.persisted.as_ref(),
        _ => None,
    }
}

/// The name of the session of a command that has a snapshot.
pub fn replay_name(command: &Command) -> Option<&Text> {
    match command {
        Command::Replay(request) => Some(&request.name),
        _ => None,
    }
}

/// The file of the configuration of a host.
pub fn config_of(command: &Command) -> Option<&Text> {
    match command {
        Command::Host(request) => Some(&request.config),
        _ => None,
    }
}

/// The file of the journal that a command names, or of the log that may be one.
fn journal_of(command: &Command) -> Option<&Text> {
    match command {
        Command::Reflect(request) => match &request.journal {
            Some(journal) => Some(journal),
            None => request.from.as_ref(),
        },
        _ => log_of(command),
    }
}

/// The file of an input of a command.
pub fn file_of(command: &Command, input: Input) -> Option<&Text> {
    match input {
        Input::Program => program_of(command),
        Input::Log | Input::Every => log_of(command),
        Input::Journal => journal_of(command),
        Input::Persisted => persisted_of(command),
        Input::Script => match command {
            Command::Stamp { script, .. } => Some(script),
            Command::Hub { script, .. } => Some(script),
            Command::Join(request) => Some(&request.script),
            _ => None,
        },
        Input::Snapshot => match command {
            Command::Replay(request) => request.from.as_ref(),
            _ => None,
        },
        Input::Queries => match command {
            Command::Inspect(request) => Some(&request.queries),
            _ => None,
        },
        Input::Config => config_of(command),
        Input::Time | Input::Address => None,
    }
}

fn push_file(files: &mut Words, file: Option<&Text>) -> Result<(), WantOfMemory> {
    if let Some(file) = file {
        files.push(file.try_clone()?)?;
    }
    Ok(())
}

/// Adds the files that the hint on a refused input looks at.
fn push_input(files: &mut Words, command: &Command, input: Input) -> Result<(), WantOfMemory> {
    push_file(files, file_of(command, input))?;
    if input != Input::Snapshot {
        return Ok(());
    }
    push_file(files, program_of(command))?;
    push_file(files, persisted_of(command))
}

/// Adds the files that the hint on a run of a command looks at.
fn push_files(
    files: &mut Words,
    command: &Command,
    status: u8,
    line: &[u8],
) -> Result<(), WantOfMemory> {
    match (status, input_of(line)) {
        (2, _) => push_file(files, program_of(command)),
        (3, Some(input)) => push_input(files, command, input),
        _ => Ok(()),
    }
}

/// The names of the files that the hint on a run looks at, in the order in which [`hint`](crate::hint) takes their bytes. `status` is the run's exit
/// status, and `line` what it wrote last.
pub fn files_looked_at(
    alloc: Global,
    words: &Words,
    status: u8,
    line: &[u8],
) -> Result<Words, WantOfMemory> {
    let mut files = Words::new(alloc);
    if let Some(command) = read_command(alloc, words)? {
        push_files(&mut files, &command, status, line)?;
    }
    Ok(files)
}
