//! The votes on one entry together.
ghost use Rattle.std.specs.Prelude.{◌≡◌, ◌<◌, ◌+◌, ◌^◌, Some};
ghost use Rattle.vote_book.specs.Tallies.{tally_of_one, tally_and, tally_answer, tally_verdict};

use crate::vote::{Verdict, Vote};

/// What is kept of the votes on one entry.
#[derive(Clone, Copy, Debug)]
pub struct Tally {
    /// How many they are.
    pub votes: u32,
    /// The entry of the first.
    pub first: u32,
    /// The digest that the first names.
    pub digest: [u8; 32],
    /// The entry of the first that names another digest.
    pub other: Option<u32>,
}

impl Tally {
    /// That of one vote.
    pub fn of_one(entry: u32, digest: [u8; 32]) -> Tally
        ensures { result ≡ tally_of_one entry digest }
    {
        Tally {
            votes: 1,
            first: entry,
            digest,
            other: None,
        }
    }

    /// Counts one vote more, and answers it.
    pub fn add(&mut self, entry: u32, digest: [u8; 32]) -> Vote
        ensures answer { result ≡ tally_answer (Some self.old) digest }
        ensures tally { self.old.votes + 1 < 2 ^ 32 → self.new ≡ tally_and self.old entry digest }
    {
        self.votes = self.votes.saturating_add(1);
        if self.digest == digest {
            return Vote::Agreed { first: self.first };
        }
        self.other = Some(self.other.unwrap_or(entry));
        Vote::Diverged {
            first: self.first,
            digest: self.digest,
        }
    }

    /// What the votes come to.
    pub fn verdict(&self, at: u32) -> Verdict
        ensures { result ≡ tally_verdict at self.now }
    {
        Verdict {
            at,
            votes: self.votes,
            split: self.other.map(|other| (self.first, other)),
        }
    }
}
