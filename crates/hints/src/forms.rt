//! The forms of commands and of the lines of scripts, and what their words are.
use crate::place::Span;
use command_words::is_address;
use model_tokens::{TokenFault, read_literal};
use model_value::ValueFault;
use std::alloc::Global;
use std::str;
use tea_base::{TIME_LIMIT, WantOfMemory};
use text_lines::{number, split_words};
use value_text::read_value;

/// The form of a command, and what it does.
#[derive(Drop)]
pub struct CommandForm {
    pub form: &'static str,
    pub does: &'static str,
}

/// The commands, each in a form of words: what a command takes in order, then its options; those in brackets may be left out.
pub const COMMANDS: [CommandForm; 12] = [
    CommandForm {
        form: "stamp SCRIPT [--from LOG] [--log FILE]",
        does: "makes the log of a session from a script of requests",
    },
    CommandForm {
        form: "check PROGRAM",
        does: "looks for the faults of a program",
    },
    CommandForm {
        form: "replay PROGRAM NAME LOG TIME [--persisted JSON] [--from SNAP] [--snapshot FILE] [--saved FILE]",
        does: "computes the world of a log at a time",
    },
    CommandForm {
        form: "inspect PROGRAM NAME LOG EVERY QUERIES [--persisted JSON]",
        does: "shows the worlds of a log at many times",
    },
    CommandForm {
        form: "trace PROGRAM NAME LOG FROM TO [--persisted JSON]",
        does: "shows what ran between two times",
    },
    CommandForm {
        form: "votes LOG",
        does: "counts the votes of a log on the digests of its worlds",
    },
    CommandForm {
        form: "hub SCRIPT [--logs PREFIX]",
        does: "makes the logs of many sessions from a script of requests, each to the session that its line names",
    },
    CommandForm {
        form: "join PROGRAM NAME ADDRESS VIEW SCRIPT [--persisted JSON]",
        does: "takes part in a session as a view, by a script",
    },
    CommandForm {
        form: "join PROGRAM NAME ADDRESS VIEW - [--persisted JSON]",
        does: "takes part in a session as a view, by lines of the standard input",
    },
    CommandForm {
        form: "reflect PROGRAM NAME ADDRESS [--persisted JSON] [--from LOG] [--journal JOURNAL] [--log FILE] [--connections N] [--links P] [--until STOP]",
        does: "serves a session, to N links in all, or to P at a time until STOP is there; a journal or a log is named at least",
    },
    CommandForm {
        form: "host CONFIG ADDRESS [--connections N] [--links P] [--until STOP] --logs PREFIX",
        does: "serves the sessions that a configuration names, each to the links that join it, N in all, or P at a time until STOP is there",
    },
    CommandForm {
        form: "drill SEED VIEWS EVENTS --log FILE --snapshots PREFIX",
        does: "runs up to eight views in threads, and compares their worlds",
    },
];

/// The texts in which each line is a request of its own.
#[derive(Clone, Copy, Debug, PartialEq, Eq)]
pub enum Grammar {
    /// A session script.
    Session,
    /// A hub's script.
    Hub,
    /// A view script.
    View,
    /// The lines that a live view is given.
    Live,
    /// Queries.
    Queries,
    /// The configuration of a host.
    Config,
}

impl Grammar {
    /// What a line is called.
    pub fn line_name(self) -> &'static str {
        match self {
            Grammar::Session | Grammar::Hub => "request",
            Grammar::View | Grammar::Live | Grammar::Config => "line",
            Grammar::Queries => "query",
        }
    }

    /// The names of all its lines.
    pub fn names(self) -> &'static str {
        match self {
            Grammar::Session | Grammar::Hub => "join, send, tick, leave, offer and pull",
            Grammar::View => "publish, watch, wait, settle, snap, cut, quit, mark, vote and show",
            Grammar::Live =>
                "publish, watch, wait, settle, snap, cut, quit, mark, vote, show and hold",
            Grammar::Queries => "at and full",
            Grammar::Config => "`session NAME PROGRAM` and `any`",
        }
    }

    /// The form of the lines of a name.
    pub fn form(self, name: &[u8]) -> Option<&'static str> {
        match self {
            Grammar::Session | Grammar::Hub => session_form(name),
            Grammar::Live if name == b"hold".as_slice() => Some("hold N"),
            Grammar::View | Grammar::Live => view_form(name),
            Grammar::Queries => query_form(name),
            Grammar::Config => config_form(name),
        }
    }
}

fn config_form(name: &[u8]) -> Option<&'static str> {
    match str::from_utf8(name).unwrap_or_default() {
        "session" => Some("session NAME PROGRAM"),
        "any" => Some("any"),
        _ => None,
    }
}

fn session_form(name: &[u8]) -> Option<&'static str> {
    match str::from_utf8(name).unwrap_or_default() {
        "join" => Some("join VIEW NOW [fresh | whole | after T]"),
        "send" => Some("send VIEW JOINED NUMBER NOW HEX"),
        "tick" => Some("tick NOW"),
        "leave" => Some("leave VIEW JOINED NOW"),
        "offer" => Some("offer VIEW JOINED TIME HEX"),
        "pull" => Some("pull AFTER LIMIT"),
        _ => None,
    }
}

fn view_form(name: &[u8]) -> Option<&'static str> {
    match str::from_utf8(name).unwrap_or_default() {
        "publish" => Some("publish SCOPE EVENT VALUE"),
        "watch" => Some("watch SCOPE EVENT HANDLING"),
        "wait" => Some("wait T"),
        "settle" => Some("settle"),
        "snap" => Some("snap"),
        "cut" => Some("cut"),
        "quit" => Some("quit"),
        "mark" => Some("mark WORD"),
        "vote" => Some("vote ENTRY"),
        "show" => Some("show"),
        _ => None,
    }
}

fn query_form(name: &[u8]) -> Option<&'static str> {
    match str::from_utf8(name).unwrap_or_default() {
        "at" => Some("at TIME"),
        "full" => Some("full TIME"),
        _ => None,
    }
}

/// What a word may be.
#[derive(Clone, Copy, Debug, PartialEq, Eq)]
pub enum Kind {
    /// Any word.
    Any,
    /// The name of a session.
    Name,
    /// An address of a net.
    Address,
    /// A number between these two.
    Number { low: u64, high: u64 },
    /// A time, or a span after a plus.
    Wait,
    /// Bytes in hexadecimal.
    Hex,
    /// A text literal.
    Literal,
    /// The text of a value.
    Value,
    /// How a watched event is shown.
    Handling,
}

/// The latest TeaTime that is named, in microseconds.
const LAST_TIME: u64 = TIME_LIMIT - 1;

const SMALL: Kind = Kind::Number {
    low: 0,
    high: 4_294_967_295,
};

const TIME: Kind = Kind::Number {
    low: 0,
    high: LAST_TIME,
};

/// What a word of a command's form may be.
pub fn command_kind(word: &str) -> Kind {
    match word {
        "NAME" => Kind::Name,
        "TIME" | "FROM" | "TO" => TIME,
        "EVERY" => Kind::Number {
            low: 1,
            high: 1_048_576,
        },
        "VIEW" => Kind::Number {
            low: 1,
            high: 4_294_967_295,
        },
        "SEED" => SMALL,
        "VIEWS" => Kind::Number { low: 1, high: 8 },
        "EVENTS" => Kind::Number {
            low: 0,
            high: 10_000,
        },
        "N" | "P" => Kind::Number { low: 1, high: 64 },
        _ => Kind::Any,
    }
}

/// What a word of a line's form may be.
pub fn line_kind(word: &str) -> Kind {
    match word {
        "VIEW" | "JOINED" | "NUMBER" | "AFTER" | "LIMIT" | "N" => SMALL,
        "NOW" => Kind::Number {
            low: 0,
            high: u64::MAX,
        },
        "TIME" => TIME,
        "ENTRY" => Kind::Number {
            low: 1,
            high: 4_294_967_295,
        },
        "T" => Kind::Wait,
        "HEX" => Kind::Hex,
        "SCOPE" | "EVENT" => Kind::Literal,
        "VALUE" => Kind::Value,
        "HANDLING" => Kind::Handling,
        "NAME" => Kind::Name,
        _ => Kind::Any,
    }
}

/// What a word of a kind has to be, in words.
pub fn rule(alloc: Global, kind: Kind) -> Result<String, WantOfMemory> {
    let text = match kind {
        Kind::Number { low, high } => return number_rule(alloc, low, high),
        Kind::Wait =>
            "is a whole number from 0 to 9007199254740991, without a sign or leading zeros; a `+` before it counts from the line's begin",
        Kind::Any => "is a word",
        Kind::Name => "has at most 255 bytes",
        Kind::Address =>
            "is `localhost:PORT`, or four numbers as in `127.0.0.1:8080`, with a PORT from 1 to 65535; other names are not looked up",
        Kind::Hex => "is an even number of hexadecimal digits, or `-` for no bytes",
        Kind::Literal =>
            "is a text between two `\"`, in which `\\\"`, `\\\\`, `\\n` and `\\xHH` are the escapes",
        Kind::Value =>
            "is nil, true, false, a number, a text between two `\"`, #N, or a list of these as in [1,\"two\"], without blanks; its weight is at most 4096 and its depth 32",
        Kind::Handling => "is `queued` or `once`",
    };
    Ok(String::from_str(alloc, text)?)
}

fn number_rule(alloc: Global, low: u64, high: u64) -> Result<String, WantOfMemory> {
    Ok(format!(in alloc;
        "is a whole number from {low} to {high}, without a sign or leading zeros"
    )?)
}

/// Whether a word is of a kind.
pub fn is_of_kind(alloc: Global, kind: Kind, word: &[u8]) -> Result<bool, WantOfMemory> {
    let text = str::from_utf8(word).unwrap_or_default();
    match kind {
        Kind::Any => Ok(true),
        Kind::Name => Ok(word.len() <= 255),
        Kind::Address => is_address(alloc, text),
        Kind::Number { low, high } => Ok(number(text, low, high).is_some()),
        Kind::Wait => Ok(is_wait(word)),
        Kind::Hex => Ok(is_hex(word)),
        Kind::Literal => is_literal(alloc, word),
        Kind::Value => is_value(alloc, word),
        Kind::Handling => Ok(word == b"queued".as_slice() || word == b"once".as_slice()),
    }
}

fn is_wait(word: &[u8]) -> bool {
    let digits = match word.split_first() {
        Some((b'+', rest)) => rest,
        _ => word,
    };
    let text = str::from_utf8(digits).unwrap_or_default();
    number(text, 0, LAST_TIME).is_some()
}

fn is_hex(word: &[u8]) -> bool {
    if word == b"-".as_slice() {
        return true;
    }
    for byte in word {
        if !byte.is_ascii_hexdigit() {
            return false;
        }
    }
    !word.is_empty() && word.len() % 2 == 0
}

fn is_literal(alloc: Global, word: &[u8]) -> Result<bool, WantOfMemory> {
    let Some((b'"', rest)) = word.split_first() else {
        return Ok(false);
    };
    match read_literal(alloc, rest) {
        Ok((_text, after)) => Ok(after.is_empty()),
        Err(TokenFault::NoToken) => Ok(false),
        Err(TokenFault::WantOfMemory) => Err(WantOfMemory),
    }
}

fn is_value(alloc: Global, word: &[u8]) -> Result<bool, WantOfMemory> {
    match read_value(alloc, word) {
        Ok(_value) => Ok(true),
        Err(ValueFault::BadValue) => Ok(false),
        Err(ValueFault::WantOfMemory) => Err(WantOfMemory),
    }
}

/// The words of a form: its name, and the words that it takes in order, without its options and what may be left out.
pub fn positionals(alloc: Global, form: &'static str) -> Result<Vec<&'static str>, WantOfMemory> {
    let words = split_words(alloc, form)?;
    let mut taken = Vec::new(alloc);
    for word in &words {
        if word.starts_with("[") || word.starts_with("-") {
            break;
        }
        taken.push(*word)?;
    }
    Ok(taken)
}

/// A word of a line, and where it is.
pub fn words_of_line(
    alloc: Global,
    line: &[u8],
    grammar: Grammar,
) -> Result<Vec<Span>, WantOfMemory> {
    let mut words = Vec::new(alloc);
    let mut start: usize = 0;
    let mut is_inside = false;
    let mut is_escaped = false;
    for (place, byte) in line.iter().enumerate() {
        if *byte == b' ' && !is_inside {
            push_word(&mut words, start, place)?;
            start = place.saturating_add(1);
        }
        if matches!(grammar, Grammar::View | Grammar::Live) {
            let is_quote = *byte == b'"' && !is_escaped;
            is_escaped = is_inside && *byte == b'\\' && !is_escaped;
            is_inside = is_inside != is_quote;
        }
    }
    push_word(&mut words, start, line.len())?;
    Ok(words)
}

fn push_word(words: &mut Vec<Span>, start: usize, end: usize) -> Result<(), WantOfMemory> {
    if start < end {
        words.push(Span::new(start, end.saturating_sub(start)))?;
    }
    Ok(())
}
