//! Reading a configuration.
ghost use Rattle.std.specs.Prelude.{◌≡◌, ◌∷◌, List, ℕ, Option, None, map, IfOk, MatchBool};
ghost use Rattle.std.specs.Option.{IfSome, option_and_then};
ghost use Rattle.std.specs.Str.Lines.{lines};
ghost use Rattle.text_lines.specs.Lines.{words_of};
ghost use Rattle.host_config.specs.Config.{AreFew, AreNamed, HasName, config_lines_of, config_of, if_few, is_any, session_line_of, then_config, with_words};
ghost use Rattle.host_config.specs.declared.reading.Config.{Config};

use std::alloc::Global;
use tea_base::{List, Text, WantOfMemory};
use text_lines::{is_skipped, split_lines, split_words};

/// The most bytes of UTF-8 that the name of a session has.
const MOST_NAME: usize = 255;

/// The most sessions of one host.
pub const MOST_SESSIONS: usize = 16;

/// A session that is to be hosted: its name, of at most 255 bytes, and the file of its program.
#[derive(Drop)]
pub struct SessionLine {
    pub name: Text,
    pub program: Text,
}

/// The sessions of a host, in order.
pub type SessionLines = List<SessionLine>;

/// What a host is to be configured with.
#[derive(Drop)]
pub struct Config {
    /// The sessions that it begins with.
    pub sessions: SessionLines,
    /// Whether it makes sessions on demand.
    pub on_demand: bool,
}

/// What a line's words say, if they are `session NAME PROGRAM`.
fn line_of(alloc: Global, words: &[&str]) -> Result<Option<SessionLine>, WantOfMemory>
    ensures read { IfOk result (λ read. read ≡ session_line_of (map (λ word. word.now) words.now)) }
    ensures named { IfOk result (λ read. IfSome read HasName) }
{
    let [first, name, program] = words else {
        return Ok(None);
    };
    if *first != "session" || name.len() > MOST_NAME {
        return Ok(None);
    }
    Ok(Some(SessionLine {
        name: Text::copy(alloc, name)?,
        program: Text::copy(alloc, program)?,
    }))
}

/// Whether a line's words are `any`.
fn is_any(words: &[&str]) -> bool
    ensures { result ≡ is_any (map (λ word. word.now) words.now) }
{
    let [word] = words else {
        return false;
    };
    *word == "any"
}

/// Takes what a line's words say, or says that they are not in the grammar, or say `any` once more.
fn take_words(alloc: Global, words: &[&str], taken: &mut Config) -> Result<bool, WantOfMemory>
    requires { AreNamed taken.old.sessions }
    ensures named { AreNamed taken.new.sessions }
    ensures read { IfOk result (λ follows. MatchBool follows
        ((rest : Option Config) →
        then_config taken.new rest
        ≡ then_config taken.old (option_and_then (with_words (map (λ word. word.now) words.now)) rest))
        ((rest : Option Config) →
        then_config taken.old (option_and_then (with_words (map (λ word. word.now) words.now)) rest) ≡ None)) }
{
    if is_any(words) {
        let first = !taken.on_demand;
        taken.on_demand = true;
        return Ok(first);
    }
    match line_of(alloc, words)? {
        Some(session) => {
            taken.sessions.push(session)?;
            Ok(true)
        }
        None => Ok(false),
    }
}

/// Reads one line more, or says that it is not in the grammar.
fn take_line(alloc: Global, line: &str, taken: &mut Config) -> Result<bool, WantOfMemory>
    requires { AreNamed taken.old.sessions }
    ensures named { AreNamed taken.new.sessions }
    ensures read { IfOk result (λ follows. MatchBool follows
        ((more : List (List ℕ)) →
        then_config taken.new (config_lines_of more) ≡ then_config taken.old (config_lines_of (line.now ∷ more)))
        ((more : List (List ℕ)) → then_config taken.old (config_lines_of (line.now ∷ more)) ≡ None)) }
{
    if is_skipped(line.as_bytes()) {
        return Ok(true);
    }
    let words = split_words(alloc, line)?;
    take_words(alloc, &words, taken)
}

/// What a text's lines say, where each that is not skipped is in the grammar.
fn read_lines(alloc: Global, text: &str) -> Result<Option<Config>, WantOfMemory>
    ensures read { IfOk result (λ read. read ≡ config_lines_of (lines text.now)) }
    ensures named { IfOk result (λ read. IfSome read (λ config. AreNamed config.sessions)) }
{
    let lines = split_lines(alloc, text)?;
    let mut taken = Config {
        sessions: SessionLines::new(alloc),
        on_demand: false,
    };
    for line in &lines {
        let follows = take_line(alloc, line, &mut taken)?;
        if !follows {
            return Ok(None);
        }
    }
    Ok(Some(taken))
}

/// What was read, if there is a session, and there are not too many.
fn if_few(config: Config) -> Option<Config>
    ensures { result ≡ if_few config }
{
    if config.sessions.is_empty() || config.sessions.len() > MOST_SESSIONS {
        return None;
    }
    Some(config)
}

/// What a text says, where its sessions are not none and not too many.
fn read_text(alloc: Global, text: &str) -> Result<Option<Config>, WantOfMemory>
    ensures read { IfOk result (λ read. read ≡ option_and_then if_few (config_lines_of (lines text.now))) }
    ensures named { IfOk result (λ read. IfSome read (λ config. AreNamed config.sessions)) }
    ensures few { IfOk result (λ read. IfSome read (λ config. AreFew config.sessions)) }
{
    match read_lines(alloc, text)? {
        Some(config) => Ok(if_few(config)),
        None => Ok(None),
    }
}

/// What a configuration says, or none where it is not in the grammar.
pub fn read_config(alloc: Global, bytes: &[u8]) -> Result<Option<Config>, WantOfMemory>
    ensures read { IfOk result (λ read. read ≡ config_of bytes.now) }
    ensures named { IfOk result (λ read. IfSome read (λ config. AreNamed config.sessions)) }
    ensures few { IfOk result (λ read. IfSome read (λ config. AreFew config.sessions)) }
{
    match str::from_utf8(bytes) {
        Ok(text) => read_text(alloc, text),
        Err(_) => Ok(None),
    }
}
