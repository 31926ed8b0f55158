//! A book of votes, with memory and without.
use std::process::Abort;
use std::test::Fail;
use tea_base::WantOfMemory;
use vote_book::{Book, Verdict, Vote};

const ONE: [u8; 32] = [1; 32];

const OTHER: [u8; 32] = [2; 32];

/// How many views vote, and on how many entries.
const VIEWS: u32 = 3;

const ENTRIES: u32 = 60;

/// Each answer comes once, with memory for it.
fn vote_for_each_answer<R: Abort>(rt: &R, book: &mut Book) -> Result<(), Fail> {
    assert_eq!(rt; book.vote(4, 7, 1, ONE)?, Vote::First);
    assert_eq!(rt; book.vote(5, 8, 1, ONE)?, Vote::Agreed { first: 4 });
    assert_eq!(rt;
        book.vote(6, 9, 1, OTHER)?,
        Vote::Diverged {
            first: 4,
            digest: ONE
        }
    );
    assert_eq!(rt; book.vote(7, 8, 1, OTHER)?, Vote::Repeated { first: 5 });
    Ok(())
}

fn look_at_three<R: Abort>(rt: &R, book: &Book) -> Result<(), Fail> {
    assert_eq!(rt; book.count(), 3);
    let verdicts = book.verdicts()?;
    let wanted = Verdict {
        at: 1,
        votes: 3,
        split: Some((4, 6)),
    };
    assert_eq!(rt; verdicts.as_slice(), [wanted].as_slice());
    Ok(())
}

#[test]
fn each_answer_comes(rt: HostRuntime) -> Result<(), Fail> {
    let mut book = Book::new(rt.alloc());
    vote_for_each_answer(&rt, &mut book)?;
    look_at_three(&rt, &book)
}

/// Votes, and votes again if memory has run out. Had the book kept a part of the vote, the second answer would differ.
fn vote_again<R: Abort>(
    rt: &R,
    book: &mut Book,
    entry: u32,
    view: u32,
    at: u32,
) -> Result<Vote, Fail> {
    let before = book.count();
    match book.vote(entry, view, at, ONE) {
        Ok(answer) => Ok(answer),
        Err(WantOfMemory) => {
            assert_eq!(rt; book.count(), before);
            Ok(book.vote(entry, view, at, ONE)?)
        }
    }
}

/// Each view votes on each entry, so that the book's two maps grow at different votes.
fn vote_often<R: Abort>(rt: &R, book: &mut Book) -> Result<(), Fail> {
    for at in 1..=ENTRIES {
        assert_eq!(rt; vote_again(rt, book, 1000, 1, at)?, Vote::First);
        for view in 2..=VIEWS {
            assert_eq!(rt;
                vote_again(rt, book, 1000, view, at)?,
                Vote::Agreed { first: 1000 }
            );
        }
    }
    Ok(())
}

fn look_at_all<R: Abort>(rt: &R, book: &Book) -> Result<(), Fail> {
    assert_eq!(rt; book.count(), VIEWS * ENTRIES);
    let verdicts = match book.verdicts() {
        Ok(verdicts) => verdicts,
        Err(WantOfMemory) => book.verdicts()?,
    };
    assert_eq!(rt; verdicts.len(), ENTRIES as usize);
    let mut at = 0u32;
    for verdict in verdicts.as_slice() {
        at = at.wrapping_add(1);
        let wanted = Verdict {
            at,
            votes: VIEWS,
            split: None,
        };
        assert_eq!(rt; *verdict, wanted);
    }
    Ok(())
}

/// It passes whichever one allocation fails: `rt try --test --fail-alloc N` lets one fail.
#[test]
fn a_vote_without_memory_changes_nothing(rt: HostRuntime) -> Result<(), Fail> {
    let mut book = Book::new(rt.alloc());
    vote_often(&rt, &mut book)?;
    look_at_all(&rt, &book)
}
