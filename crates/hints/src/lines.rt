//! Hints on session scripts, hubs' scripts, view scripts, queries and configurations: the first line that its reader refuses, and the word in it that is at fault.
use crate::forms::{Grammar, Kind, is_of_kind, line_kind, positionals, rule, words_of_line};
use crate::place::{Source, Span, part, push_hint, push_marked, shown};
use command_hub::read_hub_script;
use command_inspect::{QueriesFault, parse_queries};
use command_stamp::read_script;
use host_config::read_config;
use std::alloc::Global;
use std::str;
use tea_base::WantOfMemory;
use text_lines::{number, split_words};
use view_script::{ScriptFault, parse_script};

/// The bytes with which some editors begin a text.
const BYTE_ORDER_MARK: &[u8; 3] = b"\xef\xbb\xbf";

/// The most bytes of a line that a live view takes.
const MOST_LINE: usize = 65_536;

/// The most bytes of the name of a session.
const MOST_NAME: usize = 255;

/// The most links that a live view makes again.
const MOST_HOLDS: u64 = 4_294_967_295;

/// What is said of a word behind the last one of a line.
const ONE_TOO_MANY: &str =
    "one word too many: a comment has a line of its own, which begins with `#`";

/// What is wrong with which part of a text.
#[derive(Drop)]
struct LineFault {
    span: Span,
    message: String,
}

/// Whether the reader of view scripts refuses these bytes.
fn is_no_view_script(alloc: Global, bytes: &[u8]) -> Result<bool, WantOfMemory> {
    match parse_script(alloc, bytes) {
        Ok(_script) => Ok(false),
        Err(ScriptFault::Bad) => Ok(true),
        Err(ScriptFault::WantOfMemory) => Err(WantOfMemory),
    }
}

/// Whether a line says how many links are made again.
fn is_hold(alloc: Global, line: &[u8]) -> Result<bool, WantOfMemory> {
    let words = split_words(alloc, str::from_utf8(line).unwrap_or_default())?;
    match words.as_slice() {
        [name, count] => Ok(*name == "hold" && number(count, 0, MOST_HOLDS).is_some()),
        _ => Ok(false),
    }
}

/// A line that a configuration may have.
const A_SESSION: &[u8] = b"session a a\n";

/// Whether a line is none that a configuration may have. A configuration has one session at least, so it is read after another one.
fn is_no_session(alloc: Global, line: &[u8]) -> Result<bool, WantOfMemory> {
    let mut text = Vec::with_capacity(alloc, A_SESSION.len().saturating_add(line.len()))?;
    for byte in A_SESSION {
        text.push(*byte)?;
    }
    for byte in line {
        text.push(*byte)?;
    }
    Ok(read_config(alloc, &text)?.is_none())
}

/// Whether the reader of a text refuses these bytes.
fn is_refused(alloc: Global, grammar: Grammar, bytes: &[u8]) -> Result<bool, WantOfMemory> {
    match grammar {
        Grammar::Session => Ok(read_script(alloc, bytes)?.is_none()),
        Grammar::Hub => Ok(read_hub_script(alloc, bytes)?.is_none()),
        Grammar::View => is_no_view_script(alloc, bytes),
        Grammar::Live => Ok(!is_hold(alloc, bytes)? && is_no_view_script(alloc, bytes)?),
        Grammar::Queries => match parse_queries(alloc, bytes) {
            Ok(_queries) => Ok(false),
            Err(QueriesFault::Bad) => Ok(true),
            Err(QueriesFault::WantOfMemory) => Err(WantOfMemory),
        },
        Grammar::Config => is_no_session(alloc, bytes),
    }
}

/// The first line that its reader refuses, without its end.
fn first_refused(
    alloc: Global,
    grammar: Grammar,
    text: &[u8],
) -> Result<Option<Span>, WantOfMemory> {
    let mut start: usize = 0;
    for (place, byte) in text.iter().enumerate() {
        if *byte != b'\n' {
            continue;
        }
        let line = Span::new(start, place.saturating_sub(start));
        let whole = Span::new(start, line.len.saturating_add(1));
        if is_refused(alloc, grammar, part(text, whole))? {
            return Ok(Some(without_return(text, line)));
        }
        start = place.saturating_add(1);
    }
    let last = Span::new(start, text.len().saturating_sub(start));
    if is_refused(alloc, grammar, part(text, last))? {
        return Ok(Some(last));
    }
    Ok(None)
}

/// A line without the CR at its end.
fn without_return(text: &[u8], line: Span) -> Span {
    match part(text, line).split_last() {
        Some((b'\r', front)) => Span::new(line.at, front.len()),
        _ => line,
    }
}

fn at(span: Span, alloc: Global, message: &str) -> Result<LineFault, WantOfMemory> {
    Ok(LineFault {
        span,
        message: String::from_str(alloc, message)?,
    })
}

/// What is wrong with the bytes of a line, whatever its words are.
fn byte_fault(alloc: Global, line: &[u8]) -> Result<Option<LineFault>, WantOfMemory> {
    if line.starts_with(BYTE_ORDER_MARK) {
        return Ok(Some(at(
            Span::new(0, 1),
            alloc,
            "the file begins with a byte order mark: leave it out",
        )?));
    }
    if let Err(error) = str::from_utf8(line) {
        return Ok(Some(at(
            Span::new(error.valid_up_to(), 1),
            alloc,
            "a byte that is not UTF-8",
        )?));
    }
    if line.starts_with(b" ") {
        return Ok(Some(at(Span::new(0, 1), alloc, "a line does not begin with a space")?));
    }
    for (place, byte) in line.iter().enumerate() {
        if *byte == b'\t' {
            return Ok(Some(at(
                Span::new(place, 1),
                alloc,
                "a tab divides no words: write spaces",
            )?));
        }
    }
    if line.ends_with(b" ") {
        let last = Span::new(line.len().saturating_sub(1), 1);
        return Ok(Some(at(last, alloc, "a line does not end with a space")?));
    }
    Ok(None)
}

/// What is wrong with the first word of a line.
fn name_fault(
    alloc: Global,
    grammar: Grammar,
    line: &[u8],
    name: Span,
) -> Result<LineFault, WantOfMemory> {
    let word = str::from_utf8(part(line, name)).unwrap_or_default();
    let (what, names) = (grammar.line_name(), grammar.names());
    let mut message = format!(in alloc; "there is no {what} \"{word}\": there are {names}")?;
    if grammar == Grammar::View && word == "hold" {
        message.push_str("; `hold` is a line of the standard input of `join` with `-`")?;
    }
    Ok(LineFault {
        span: name,
        message,
    })
}

/// What is wrong with the words that name the session of a hub's line.
fn session_fault(
    alloc: Global,
    line: &[u8],
    words: &[Span],
) -> Result<Option<LineFault>, WantOfMemory> {
    let first = words.first().copied().unwrap_or(Span::new(0, 1));
    if part(line, first) != b"in".as_slice() {
        let message = "a line of a hub begins with `in`, in `in NAME REQUEST`";
        return Ok(Some(at(first, alloc, message)?));
    }
    let end = Span::new(line.len(), 1);
    let Some(name) = words.get(1) else {
        return Ok(Some(at(end, alloc, "NAME is missing, in `in NAME REQUEST`")?));
    };
    if name.len > MOST_NAME {
        return Ok(Some(at(*name, alloc, "NAME has at most 255 bytes")?));
    }
    match words.get(2) {
        Some(_) => Ok(None),
        None => Ok(Some(at(end, alloc, "REQUEST is missing, in `in NAME REQUEST`")?)),
    }
}

/// What is wrong with the words of a line, the first word that is at fault.
fn word_fault(
    alloc: Global,
    line: &[u8],
    words: &[Span],
    form: &'static str,
) -> Result<Option<LineFault>, WantOfMemory> {
    let names = positionals(alloc, form)?;
    for (number, name) in names.iter().enumerate() {
        if number == 0 {
            continue;
        }
        let Some(word) = words.get(number) else {
            let message = format!(in alloc; "{name} is missing, in `{form}`")?;
            return Ok(Some(LineFault {
                span: Span::new(line.len(), 1),
                message,
            }));
        };
        let kind = line_kind(name);
        if !is_of_kind(alloc, kind, part(line, *word))? {
            return Ok(Some(kind_fault(alloc, *word, name, kind)?));
        }
    }
    let rest = words.get(names.len()..).unwrap_or_default();
    if form.ends_with("]") {
        return want_fault(alloc, line, rest);
    }
    match rest.first() {
        Some(word) => Ok(Some(at(*word, alloc, ONE_TOO_MANY)?)),
        None => Ok(None),
    }
}

/// What is wrong with the words that say from where a view joins.
fn want_fault(
    alloc: Global,
    line: &[u8],
    words: &[Span],
) -> Result<Option<LineFault>, WantOfMemory> {
    let Some(want) = words.first() else {
        return Ok(None);
    };
    let count: usize = match str::from_utf8(part(line, *want)).unwrap_or_default() {
        "fresh" | "whole" => 1,
        "after" => {
            let Some(time) = words.get(1) else {
                let end = Span::new(line.len(), 1);
                return Ok(Some(at(end, alloc, "T is missing, in `after T`")?));
            };
            let kind = line_kind("TIME");
            if !is_of_kind(alloc, kind, part(line, *time))? {
                return Ok(Some(kind_fault(alloc, *time, "T", kind)?));
            }
            2
        }
        _ => {
            let message = "one of `fresh`, `whole` and `after T` follows, or nothing";
            return Ok(Some(at(*want, alloc, message)?));
        }
    };
    match words.get(count) {
        Some(word) => Ok(Some(at(*word, alloc, ONE_TOO_MANY)?)),
        None => Ok(None),
    }
}

fn kind_fault(
    alloc: Global,
    span: Span,
    name: &str,
    kind: Kind,
) -> Result<LineFault, WantOfMemory> {
    let rule = rule(alloc, kind)?;
    Ok(LineFault {
        span,
        message: format!(in alloc; "{name} {rule}")?,
    })
}

/// What is wrong with a line that its reader refuses.
fn line_fault(alloc: Global, grammar: Grammar, line: &[u8]) -> Result<LineFault, WantOfMemory> {
    if let Some(fault) = byte_fault(alloc, line)? {
        return Ok(fault);
    }
    let words = words_of_line(alloc, line, grammar)?;
    let mut rest = words.as_slice();
    if grammar == Grammar::Hub {
        if let Some(fault) = session_fault(alloc, line, rest)? {
            return Ok(fault);
        }
        rest = rest.get(2..).unwrap_or_default();
    }
    let name = rest.first().copied().unwrap_or(Span::new(0, 1));
    let Some(form) = grammar.form(part(line, name)) else {
        return name_fault(alloc, grammar, line, name);
    };
    match word_fault(alloc, line, rest, form)? {
        Some(fault) => Ok(fault),
        None => at(
            Span::new(0, line.len()),
            alloc,
            "the payload of the event has more than 4,096 bytes",
        ),
    }
}

/// What a text whose lines are right may break.
fn limit_of(grammar: Grammar) -> &'static str {
    match grammar {
        Grammar::Config =>
            "a host has from 1 to 16 lines `session`, no two of which have both one NAME and one program's text, and one line `any` at most",
        _ => "a script has at most 1,048,576 lines `publish` and `vote`",
    }
}

/// A hint on a text of this grammar, which its reader refuses.
pub fn script_hint(
    alloc: Global,
    grammar: Grammar,
    source: Source<'_, '_>,
) -> Result<String, WantOfMemory> {
    let Source { file, text } = source;
    let mut out = String::new(alloc);
    let Some(line) = first_refused(alloc, grammar, text)? else {
        let limit = limit_of(grammar);
        write!(out, "{file}: each line is right by itself: {limit}\n")?;
        return Ok(out);
    };
    let LineFault { span, message } = line_fault(alloc, grammar, part(text, line))?;
    let place = Span::new(line.at.saturating_add(span.at), span.len);
    push_hint(alloc, &mut out, source, place, message.as_str())?;
    Ok(out)
}

/// A hint on a line that a live view was given, the one of this number from 1; nothing where it is right.
pub fn live_hint(alloc: Global, number: u64, line: &[u8]) -> Result<String, WantOfMemory> {
    let mut out = String::new(alloc);
    if line.len() > MOST_LINE {
        write!(out, "line {number}: a line has at most 65,536 bytes\n")?;
        return Ok(out);
    }
    if !is_refused(alloc, Grammar::Live, line)? {
        return Ok(out);
    }
    let LineFault { span, message } = line_fault(alloc, Grammar::Live, line)?;
    let message = message.as_str();
    write!(out, "line {number}: {message}\n")?;
    let label = format!(in alloc; "  {number} | ")?;
    push_marked(&mut out, line, span, label.as_str())?;
    shown(alloc, out.as_str())
}
