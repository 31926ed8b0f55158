//! From a log to what its votes come to.
ghost use Rattle.std.specs.Prelude.{◌≡◌, ◌<◌, ◌≤◌, ◌-◌, ◌++◌, List, length, flat_map, slice_get, Some, IfOk, OnOk, string_bytes};
ghost use Rattle.vote_book.specs.VoteBook.{Ballot, counted};
ghost use Rattle.vote_book.specs.Counted.{HasCounted};
ghost use Rattle.command_votes.specs.VoteRead.{vote_of, votes_of, votes_after};
ghost use Rattle.command_votes.specs.VotesText.{counted_text, split_part, verdict_line, votes_text};

use crate::reading::vote_of;
use session_log::{GetRefusal, Log};
use std::alloc::Global;
use std::fmt::Write;
use tea_base::{Entry, WantOfMemory};
use vote_book::{Book, Verdict};

/// The entry with a seq, in memory of its own.
fn entry_of(log: &Log, seq: u32) -> Result<Entry, WantOfMemory>
    requires named { 0 < seq }
    requires there { seq ≤ length log.now.entries }
    ensures { IfOk result (λ entry. slice_get log.now.entries (seq - 1) ≡ Some entry) }
{
    match log.get(seq) {
        Ok(entry) => Ok(entry),
        Err(GetRefusal::NoSuchSeq) => unreachable!(),
        Err(GetRefusal::WantOfMemory) => Err(WantOfMemory),
    }
}

/// Counts an entry, if it is a vote.
fn count(alloc: Global, book: &mut Book, entry: &Entry) -> Result<(), WantOfMemory>
    ensures { OnOk result ((votes : List Ballot) → HasCounted book.old votes →
        HasCounted book.new (votes_after votes (vote_of entry.now))) }
{
    let Some(named) = vote_of(alloc, entry)? else {
        return Ok(());
    };
    let digest = named.digest;
    book.vote(entry.seq, entry.view, named.at, digest)?;
    Ok(())
}

/// The book of a log's votes.
fn book_of(alloc: Global, log: &Log) -> Result<Book, WantOfMemory>
    ensures { IfOk result (λ book. HasCounted book (counted (votes_of log.now.entries))) }
{
    let mut book = Book::new(alloc);
    for place in 0..log.len() {
        count(alloc, &mut book, &entry_of(log, place + 1)?)?;
    }
    Ok(book)
}

/// Appends what two votes that differ add to a line, or that none differ.
fn push_split(text: &mut String, split: Option<(u32, u32)>) -> Result<(), WantOfMemory>
    ensures { OnOk result (string_bytes text.new ≡ string_bytes text.old ++ split_part split) }
{
    match split {
        None => text.push_str(" agreed")?,
        Some((first, other)) => write!(text, " diverged {first} {other}")?,
    }
    Ok(())
}

/// Appends the line of a verdict.
fn push_verdict(text: &mut String, verdict: &Verdict) -> Result<(), WantOfMemory>
    ensures { OnOk result (string_bytes text.new ≡ string_bytes text.old ++ verdict_line verdict.now) }
{
    write!(text, "at {} votes {}", verdict.at, verdict.votes)?;
    push_split(text, verdict.split)?;
    text.push_str("\n")?;
    Ok(())
}

/// Appends the lines of verdicts.
fn push_verdicts(text: &mut String, verdicts: &[Verdict]) -> Result<(), WantOfMemory>
    ensures { OnOk result (string_bytes text.new ≡ string_bytes text.old ++ flat_map verdict_line verdicts.now) }
{
    for verdict in verdicts {
        push_verdict(text, verdict)?;
    }
    Ok(())
}

/// Appends what the votes of a book come to.
fn push_book(text: &mut String, book: &Book) -> Result<(), WantOfMemory>
    ensures { OnOk result ((votes : List Ballot) → HasCounted book.now votes →
        string_bytes text.new ≡ string_bytes text.old ++ counted_text votes) }
{
    let verdicts = book.verdicts()?;
    push_verdicts(text, verdicts.as_slice())?;
    writeln!(text, "votes {}", book.count())?;
    Ok(())
}

/// What the votes of a log come to: a line for each entry that was voted on, and how many votes count. All text is in
/// memory before any of it is printed.
pub fn votes(alloc: Global, log: &Log) -> Result<String, WantOfMemory>
    ensures { IfOk result (λ text. string_bytes text ≡ votes_text log.now.entries) }
{
    let book = book_of(alloc, log)?;
    let mut text = String::new(alloc);
    push_book(&mut text, &book)?;
    Ok(text)
}
