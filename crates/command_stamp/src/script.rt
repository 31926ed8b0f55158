//! Session scripts: a request a line.
ghost use Rattle.std.specs.Prelude.{◌≡◌, ℕ, List, ◌∷◌, None, map, IfOk, MatchBool};
ghost use Rattle.std.specs.Str.Lines.{lines};
ghost use Rattle.text_lines.specs.Lines.{words_of};
ghost use Rattle.command_stamp.specs.Script.{small_of, large_of, plain_want_of, want_after_of, want_of, join_of, send_of, tick_of, leave_of, offer_of, pull_of, hex_of, request_of, requests_of, script_of};
ghost use Rattle.command_stamp.specs.ScriptRead.{then_requests};

use hex::FromHexError;
use reflector_core::{Request, Requests, Want};
use std::alloc::Global;
use tea_base::{Blob, WantOfMemory};
use text_lines::{is_skipped, number, split_lines, split_words, time_of_word};

/// A number of 32 bits.
fn small(word: &str) -> Option<u32>
    ensures { result ≡ small_of word.now }
{
    match number(word, 0, u64::from(u32::MAX)) {
        Some(number) => Some(number as u32),
        None => None,
    }
}

/// A number of 64 bits.
fn large(word: &str) -> Option<u64>
    ensures { result ≡ large_of word.now }
{
    number(word, 0, 18446744073709551615)
}

/// `fresh | whole`
fn plain_want(word: &str) -> Option<Want>
    ensures { result ≡ plain_want_of word.now }
{
    match word {
        "fresh" => Some(Want::Fresh),
        "whole" => Some(Want::Whole),
        _ => None,
    }
}

/// `after T`
fn want_after(word: &str, time: &str) -> Option<Want>
    ensures { result ≡ want_after_of word.now time.now }
{
    if word != "after" {
        return None;
    }
    Some(Want::After(time_of_word(time)?))
}

/// `[fresh | whole | after T]`
fn want(words: &[&str]) -> Option<Want>
    ensures { result ≡ want_of (map (λ word. word.now) words.now) }
{
    match words {
        [] => Some(Want::Fresh),
        [word] => plain_want(word),
        [word, time] => want_after(word, time),
        _ => None,
    }
}

/// `VIEW NOW [fresh | whole | after T]`
fn join(fields: &[&str]) -> Option<Request>
    ensures { result ≡ join_of (map (λ word. word.now) fields.now) }
{
    let [view, now, rest @ ..] = fields else {
        return None;
    };
    let view = small(view)?;
    let now = large(now)?;
    let want = want(rest)?;
    Some(Request::Join { view, now, want })
}

/// Bytes in hexadecimal, or `-` for none.
fn bytes(alloc: Global, word: &str) -> Result<Option<Blob>, WantOfMemory>
    ensures { IfOk result (λ read. read ≡ hex_of word.now) }
{
    if word == "-" {
        return Ok(Some(Blob::new(alloc)));
    }
    if word.is_empty() {
        return Ok(None);
    }
    match hex::decode(alloc, word.as_bytes()) {
        Ok(bytes) => Ok(Some(Blob::from_vec(bytes))),
        Err(FromHexError::OutOfMemory) => Err(WantOfMemory),
        Err(_) => Ok(None),
    }
}

/// `VIEW JOINED NUMBER NOW HEX`
fn send(alloc: Global, fields: &[&str]) -> Result<Option<Request>, WantOfMemory>
    ensures { IfOk result (λ read. read ≡ send_of (map (λ word. word.now) fields.now)) }
{
    let [view, joined, number, now, payload] = fields else {
        return Ok(None);
    };
    let (Some(view), Some(joined), Some(number), Some(now)) = (
        small(view),
        small(joined),
        small(number),
        large(now),
    ) else {
        return Ok(None);
    };
    match bytes(alloc, payload)? {
        Some(payload) => Ok(Some(Request::Send {
            view,
            joined,
            number,
            payload,
            now,
        })),
        None => Ok(None),
    }
}

/// `NOW`
fn tick(fields: &[&str]) -> Option<Request>
    ensures { result ≡ tick_of (map (λ word. word.now) fields.now) }
{
    let [now] = fields else {
        return None;
    };
    Some(Request::Tick { now: large(now)? })
}

/// `VIEW JOINED NOW`
fn leave(fields: &[&str]) -> Option<Request>
    ensures { result ≡ leave_of (map (λ word. word.now) fields.now) }
{
    let [view, joined, now] = fields else {
        return None;
    };
    let view = small(view)?;
    let joined = small(joined)?;
    let now = large(now)?;
    Some(Request::Leave { view, joined, now })
}

/// `VIEW JOINED TIME HEX`
fn offer(alloc: Global, fields: &[&str]) -> Result<Option<Request>, WantOfMemory>
    ensures { IfOk result (λ read. read ≡ offer_of (map (λ word. word.now) fields.now)) }
{
    let [view, joined, time, snapshot] = fields else {
        return Ok(None);
    };
    let (Some(view), Some(joined), Some(time)) = (small(view), small(joined), time_of_word(time))
    else {
        return Ok(None);
    };
    match bytes(alloc, snapshot)? {
        Some(bytes) => Ok(Some(Request::Offer {
            view,
            joined,
            time,
            bytes,
        })),
        None => Ok(None),
    }
}

/// `AFTER LIMIT`
fn pull(fields: &[&str]) -> Option<Request>
    ensures { result ≡ pull_of (map (λ word. word.now) fields.now) }
{
    let [after, limit] = fields else {
        return None;
    };
    let after = small(after)?;
    let limit = small(limit)?;
    Some(Request::Pull { after, limit })
}

/// The request that a line's words spell, or none where they are not in the grammar.
pub fn read_request(alloc: Global, words: &[&str]) -> Result<Option<Request>, WantOfMemory>
    ensures { IfOk result (λ read. read ≡ request_of (map (λ word. word.now) words.now)) }
{
    let [name, fields @ ..] = words else {
        return Ok(None);
    };
    match *name {
        "join" => Ok(join(fields)),
        "send" => send(alloc, fields),
        "tick" => Ok(tick(fields)),
        "leave" => Ok(leave(fields)),
        "offer" => offer(alloc, fields),
        "pull" => Ok(pull(fields)),
        _ => Ok(None),
    }
}

/// The request of a line.
fn read_line(alloc: Global, line: &str) -> Result<Option<Request>, WantOfMemory>
    ensures { IfOk result (λ read. read ≡ request_of (words_of line.now)) }
{
    let words = split_words(alloc, line)?;
    read_request(alloc, &words)
}

/// Reads one line more, or says that it is not in the grammar.
fn take_line(alloc: Global, line: &str, requests: &mut Requests) -> Result<bool, WantOfMemory>
    ensures { IfOk result (λ follows. MatchBool follows
        ((more : List (List ℕ)) →
        then_requests requests.new (requests_of more) ≡ then_requests requests.old (requests_of (line.now ∷ more)))
        ((more : List (List ℕ)) → requests_of (line.now ∷ more) ≡ None)) }
{
    if is_skipped(line.as_bytes()) {
        return Ok(true);
    }
    match read_line(alloc, line)? {
        Some(request) => {
            requests.push(request)?;
            Ok(true)
        }
        None => Ok(false),
    }
}

/// The requests of a text's lines, where each that is not skipped is one.
fn read_lines(alloc: Global, text: &str) -> Result<Option<Requests>, WantOfMemory>
    ensures { IfOk result (λ read. read ≡ requests_of (lines text.now)) }
{
    let lines = split_lines(alloc, text)?;
    let mut requests = Requests::new(alloc);
    for line in &lines {
        let follows = take_line(alloc, line, &mut requests)?;
        if !follows {
            return Ok(None);
        }
    }
    Ok(Some(requests))
}

/// The requests of a script, or none where it is not in the grammar.
pub fn read_script(alloc: Global, bytes: &[u8]) -> Result<Option<Requests>, WantOfMemory>
    ensures { IfOk result (λ read. read ≡ script_of bytes.now) }
{
    match str::from_utf8(bytes) {
        Ok(text) => read_lines(alloc, text),
        Err(_) => Ok(None),
    }
}
