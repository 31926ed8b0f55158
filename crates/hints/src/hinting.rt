//! The hint on a run that has ended.
use crate::ends::{FileFailure, NetReason, file_hint, net_hint, plain_hint, refused_hint};
use crate::forms::{Grammar, Kind, rule};
use crate::inputs::{config_of, file_of, input_of, replay_name};
use crate::json::json_hint;
use crate::lines::script_hint;
use crate::place::{Source, shown};
use crate::program::program_hint;
use crate::sessions::{log_hint, snapshot_hint};
use crate::words::{place_of_positional, usage_hint, word_hint};
use command_outcome::Input;
use command_words::{Command, read_command};
use model_value::Value;
use persist_json::from_json;
use session_log::decode_stored;
use snapshot_codec::session_id;
use std::alloc::Global;
use tea_base::{Blob, SessionId, Text, WantOfMemory, Words};

/// The longest name of a session, in bytes of UTF-8.
const MOST_NAME: usize = 255;

/// How many worlds `inspect` has at most: the first one, and 128 that are kept.
const MOST_WORLDS: u32 = 129;

/// How long the mark and the id are with which a journal begins, in bytes.
const JOURNAL_HEAD: usize = 40;

/// How a run has ended.
#[derive(Drop)]
pub struct Ended {
    /// The exit status.
    pub status: u8,
    /// What was written to the output last, where it is short.
    pub line: Option<Blob>,
    /// The file of which a call failed last.
    pub failure: Option<FileFailure>,
    /// Why the net or a link failed, where that ended the run.
    pub net: NetReason,
}

impl Ended {
    /// What was written to the output last, nothing where it is long.
    pub fn line(&self) -> &[u8] {
        match &self.line {
            Some(line) => line.bytes(),
            None => &[],
        }
    }
}

/// A file that was read again, none where it could not be read or is above its limit.
pub type Given = Option<Blob>;

/// The bytes of the file of a number.
fn bytes_of(files: &[Given], number: usize) -> Option<&[u8]> {
    match files.get(number) {
        Some(Some(blob)) => Some(blob.bytes()),
        _ => None,
    }
}

/// The hint on a run of these words that has ended so: its text, with a line end after each line, and none where all went well. `files` are those
/// that [`files_looked_at`](crate::files_looked_at) names, in its order.
pub fn hint(
    alloc: Global,
    words: &Words,
    ended: &Ended,
    files: &[Given],
) -> Result<String, WantOfMemory> {
    let text = match read_command(alloc, words)? {
        Some(command) => of_command(alloc, words, &command, ended, files)?,
        None if ended.status == 1 => usage_hint(alloc, words.as_slice())?,
        None => String::new(alloc),
    };
    shown(alloc, text.as_str())
}

/// The hint on a run of a command.
fn of_command(
    alloc: Global,
    words: &Words,
    command: &Command,
    ended: &Ended,
    files: &[Given],
) -> Result<String, WantOfMemory> {
    match ended.status {
        2 => of_program(alloc, command, files),
        3 => match input_of(ended.line()) {
            Some(input) => of_input(alloc, words, command, input, files),
            None => Ok(String::new(alloc)),
        },
        4 | 5 => of_file(alloc, command, ended),
        6 => of_net(alloc, command, ended.net),
        7 => refused_hint(alloc, ended.line()),
        status => of_status(alloc, status),
    }
}

/// The hint on a status that says all that is known.
fn of_status(alloc: Global, status: u8) -> Result<String, WantOfMemory> {
    match status {
        8 => plain_hint(
            alloc,
            "the program was out of memory: give the machine more of it, or end other programs",
        ),
        9 => plain_hint(
            alloc,
            "the link ended: the reflector was ended, or has put the view out, or a proxy between closed the link",
        ),
        10 => plain_hint(
            alloc,
            "take another VIEW: one that has published in this session, also before its reflector was started again, cannot be used by a second run. Else something other than this reflector answers there",
        ),
        _ => Ok(String::new(alloc)),
    }
}

/// The hint on a program of a host: which one it is the run does not say.
fn of_host_program(alloc: Global, config: &Text, fault: &str) -> Result<String, WantOfMemory> {
    let name = config.as_str();
    Ok(format!(in alloc;
        "{name}: a program that it names {fault}: `croquet check` of each of them says which\n"
    )?)
}

fn of_program(alloc: Global, command: &Command, files: &[Given]) -> Result<String, WantOfMemory> {
    if let Some(config) = config_of(command) {
        return of_host_program(alloc, config, "is refused");
    }
    let (Some(file), Some(text)) = (file_of(command, Input::Program), bytes_of(files, 0)) else {
        return Ok(String::new(alloc));
    };
    let source = Source {
        file: file.as_str(),
        text,
    };
    program_hint(alloc, source)
}

/// Which of the positionals of a command its address is.
fn address_place(command: &Command) -> usize {
    match command {
        Command::Host(_) => 2,
        _ => 3,
    }
}

/// The hint on an input that is a word.
fn of_word(
    alloc: Global,
    words: &Words,
    command: &Command,
    input: Input,
) -> Result<String, WantOfMemory> {
    let words = words.as_slice();
    if input == Input::Time {
        let place = place_of_positional(words, 4);
        return word_hint(
            alloc,
            words,
            place,
            "TIME is below the snapshot's time: ask for a later one, or leave --from out",
        );
    }
    let rule = rule(alloc, Kind::Address)?;
    let message = format!(in alloc; "ADDRESS {rule}")?;
    word_hint(
        alloc,
        words,
        place_of_positional(words, address_place(command)),
        message.as_str(),
    )
}

/// The most bytes of an input.
fn most_bytes(input: Input) -> usize {
    match input {
        Input::Script => 16_777_216,
        Input::Program | Input::Queries | Input::Config => 65_536,
        Input::Persisted => 1_048_576,
        Input::Snapshot => 4_194_304,
        _ => 268_435_456,
    }
}

/// The hint on a file that is above its limit, or that could not be read a second time.
fn size_hint(alloc: Global, file: &str, input: Input) -> Result<String, WantOfMemory> {
    let most = most_bytes(input);
    Ok(format!(in alloc;
        "{file}: the file has more than {most} bytes, or could not be read a second time\n"
    )?)
}

fn of_input(
    alloc: Global,
    words: &Words,
    command: &Command,
    input: Input,
    files: &[Given],
) -> Result<String, WantOfMemory> {
    if let (Input::Program, Some(config)) = (input, config_of(command)) {
        return of_host_program(alloc, config, "has more than 65,536 bytes");
    }
    let Some(name) = file_of(command, input) else {
        return of_word(alloc, words, command, input);
    };
    let file = name.as_str();
    let Some(text) = bytes_of(files, 0) else {
        return size_hint(alloc, file, input);
    };
    if text.len() > most_bytes(input) {
        return size_hint(alloc, file, input);
    }
    let source = Source { file, text };
    match input {
        Input::Snapshot => of_snapshot(alloc, command, source, files),
        Input::Every => of_every(alloc, words, text),
        _ => of_text(alloc, command, input, source),
    }
}

/// The hint on an input that its own bytes make wrong.
fn of_text(
    alloc: Global,
    command: &Command,
    input: Input,
    source: Source<'_, '_>,
) -> Result<String, WantOfMemory> {
    match input {
        Input::Script => script_hint(alloc, script_grammar(command), source),
        Input::Queries => script_hint(alloc, Grammar::Queries, source),
        Input::Config => script_hint(alloc, Grammar::Config, source),
        Input::Persisted => json_hint(alloc, source),
        Input::Log => log_hint(alloc, source),
        Input::Journal => journal_hint(alloc, source),
        _ => Ok(String::new(alloc)),
    }
}

fn script_grammar(command: &Command) -> Grammar {
    match command {
        Command::Stamp { .. } => Grammar::Session,
        Command::Hub { .. } => Grammar::Hub,
        _ => Grammar::View,
    }
}

/// A hint on a journal that is none, or that is of another session.
fn journal_hint(alloc: Global, source: Source<'_, '_>) -> Result<String, WantOfMemory> {
    let Source { file, text } = source;
    if text.starts_with(b"TEALOG03") && text.len() >= JOURNAL_HEAD {
        return Ok(format!(in alloc;
            "{file}: at byte 8: this journal is of another session: PROGRAM, NAME and the persisted value are those of its first run, to the last byte\n"
        )?);
    }
    Ok(format!(in alloc;
        "{file}: at byte 0: this is no journal: a journal begins with TEALOG03 and the session's id\n"
    )?)
}

/// The id of the session of a name, by the files of a replay from a snapshot.
fn id_of(alloc: Global, name: &Text, files: &[Given]) -> Option<SessionId> {
    if name.bytes().len() > MOST_NAME {
        return None;
    }
    let text = bytes_of(files, 1)?;
    let Some(json) = bytes_of(files, 2) else {
        return Some(session_id(name, text, &Value::Nil));
    };
    match from_json(alloc, json) {
        Ok(value) => Some(session_id(name, text, &value)),
        Err(_) => None,
    }
}

fn of_snapshot(
    alloc: Global,
    command: &Command,
    source: Source<'_, '_>,
    files: &[Given],
) -> Result<String, WantOfMemory> {
    let Some(name) = replay_name(command) else {
        return Ok(String::new(alloc));
    };
    match id_of(alloc, name, files) {
        Some(id) => snapshot_hint(alloc, source, Some(id.0.as_slice())),
        None => snapshot_hint(alloc, source, None),
    }
}

/// A hint on an EVERY that is too small for its log.
fn of_every(alloc: Global, words: &Words, log: &[u8]) -> Result<String, WantOfMemory> {
    let words = words.as_slice();
    let place = place_of_positional(words, 4);
    let Ok(stored) = decode_stored(alloc, log) else {
        return word_hint(
            alloc,
            words,
            place,
            "EVERY is too small: more than 128 worlds would be kept after the first one",
        );
    };
    let entries = stored.log.len();
    let least = (entries / MOST_WORLDS).saturating_add(1);
    let message = format!(in alloc;
        "EVERY is too small: the log has {entries} entries, so that EVERY is at least {least}"
    )?;
    word_hint(alloc, words, place, message.as_str())
}

fn of_file(alloc: Global, command: &Command, ended: &Ended) -> Result<String, WantOfMemory> {
    if let Some(failure) = &ended.failure {
        return file_hint(alloc, failure);
    }
    if ended.status == 5 && ended.line() != b"write-fault\n".as_slice() {
        return plain_hint(
            alloc,
            "the standard output could not be written: a full disk, or a pipe whose reader has gone",
        );
    }
    if let Command::Live(_) = command {
        return plain_hint(
            alloc,
            "the standard input could not be read: it is closed, or it is a folder",
        );
    }
    let Some(journal) = file_of(command, Input::Journal) else {
        return Ok(String::new(alloc));
    };
    let name = journal.as_str();
    Ok(format!(in alloc;
        "{name}: the system refused this file: see whether its folder is there, and whether it may be read and written\n"
    )?)
}

fn of_net(alloc: Global, command: &Command, reason: NetReason) -> Result<String, WantOfMemory> {
    match command {
        Command::Join(request) => net_hint(alloc, request.address.as_str(), false, reason),
        Command::Live(request) => net_hint(alloc, request.address.as_str(), false, reason),
        Command::Reflect(request) => net_hint(alloc, request.address.as_str(), true, reason),
        Command::Host(request) => net_hint(alloc, request.address.as_str(), true, reason),
        _ => Ok(String::new(alloc)),
    }
}
