//! A book of votes.
ghost use Rattle.std.specs.Prelude.{◌≡◌, ◌<◌, ◌+◌, ◌^◌, ℕ, nat_eq, Some, map, OnOk, OnErr, IfOk};
ghost use Rattle.indexmap.specs.IndexMap.{Updates, IsUnchanged, IsUnique, get, index_map_len};
ghost use Rattle.vote_book.specs.Tallies.{tally_with, tally_answer, tally_verdict, votes_in};

use crate::tally::Tally;
use crate::vote::{Verdict, Verdicts, Vote};
use indexmap::IndexMap;
use indexmap::map::Entry;
use std::alloc::{AllocError, Global};
use tea_base::WantOfMemory;

/// What is known of the votes that were counted, in the order in which they came: the entry of each, by the entry that
/// it is on and its view; and of the votes on each entry how many they are, the first, and the first that differs from
/// it. Contracts say it by `HasCounted`, over the list of them.
#[derive(Drop)]
pub struct Book {
    alloc: Global,
    // by the entry that a vote is on and its view: the vote's own entry
    voted: IndexMap<(u32, u32), u32>,
    // by the entry that votes are on
    tallies: IndexMap<u32, Tally>,
    ghost few: { index_map_len voted < 2 ^ 32 },
}

/// Counts a vote among those on its entry, and answers it.
fn tally(
    tallies: &mut IndexMap<u32, Tally>,
    entry: u32,
    at: u32,
    digest: [u8; 32],
) -> Result<Vote, WantOfMemory>
    ensures answer { IfOk result (λ answer. answer ≡ tally_answer (get nat_eq tallies.old at) digest) }
    ensures tallies { OnOk result (votes_in (get nat_eq tallies.old at) + 1 < 2 ^ 32 →
        Updates nat_eq tallies.old tallies.new at (Some (tally_with (get nat_eq tallies.old at) entry digest))) }
    ensures err { OnErr result (IsUnchanged tallies.old tallies.new) }
{
    match tallies.entry(at)? {
        Entry::Occupied(mut there) => Ok(there.get_mut().add(entry, digest)),
        Entry::Vacant(place) => {
            place.insert(Tally::of_one(entry, digest));
            Ok(Vote::First)
        }
    }
}

/// What the votes on each entry come to, in the order in which the entries were first voted on.
fn each_verdict(alloc: Global, tallies: &IndexMap<u32, Tally>) -> Result<Vec<Verdict>, AllocError>
    ensures verdicts { IfOk result (λ verdicts. verdicts.items ≡
        map (λ entry. tally_verdict entry.0 entry.1) tallies.now.entries) }
    ensures unique { OnOk result (IsUnique nat_eq tallies.now) }
{
    tallies
        .iter()
        .map(|(at, tally)| tally.verdict(*at))
        .collect(alloc)
}

impl Book {
    ghost use Rattle.std.specs.Prelude.{List, [], length};
    ghost use Rattle.vote_book.specs.VoteBook.{Ballot, ballot, vote_answer, book_after, verdicts_of};
    ghost use Rattle.vote_book.specs.Counted.{HasCounted, KeepsCounted};

    /// The book without votes. Takes no memory.
    pub fn new(alloc: Global) -> Book
        ensures { HasCounted result [] }
    {
        Book {
            alloc,
            voted: IndexMap::new(alloc),
            tallies: IndexMap::new(alloc),
        }
    }

    /// Counts a vote and answers it: `entry` is the vote itself, and `at` the entry that it is on. A vote whose view has
    /// voted on that entry before does not count. Each map is asked once, by the hash of its key, and no list is gone
    /// through. Room for the vote is made in both maps before either changes, so out of memory the book is as it was. So
    /// many votes that their number would not fit are memory that is wanting.
    pub fn vote(
        &mut self,
        entry: u32,
        view: u32,
        at: u32,
        digest: [u8; 32],
    ) -> Result<Vote, WantOfMemory>
        ensures answer { IfOk result (λ answer. (votes : List Ballot) → HasCounted self.old votes →
            answer ≡ vote_answer votes (ballot entry view at digest)) }
        ensures counted { OnOk result ((votes : List Ballot) → HasCounted self.old votes →
            HasCounted self.new (book_after votes (ballot entry view at digest))) }
        ensures err { OnErr result (KeepsCounted self.old self.new) }
    {
        if self.voted.len() >= u32::MAX as usize {
            return Err(WantOfMemory);
        }
        // The place in `voted` is filled last: before a tally changes, both maps have room.
        match self.voted.entry((at, view))? {
            Entry::Occupied(own) => Ok(Vote::Repeated { first: *own.get() }),
            Entry::Vacant(place) => {
                let answer = tally(&mut self.tallies, entry, at, digest)?;
                place.insert(entry);
                Ok(answer)
            }
        }
    }

    /// How many votes were counted.
    pub fn count(&self) -> u32
        ensures { (votes : List Ballot) → HasCounted self.now votes → result ≡ length votes }
    {
        self.voted.len() as u32
    }

    /// What the votes on each entry come to, by rising entries.
    pub fn verdicts(&self) -> Result<Verdicts, WantOfMemory>
        ensures { IfOk result (λ verdicts. (votes : List Ballot) → HasCounted self.now votes →
            verdicts ≡ verdicts_of votes) }
    {
        let mut verdicts = each_verdict(self.alloc, &self.tallies)?;
        verdicts.sort_unstable_by_key(|verdict: &Verdict| verdict.at);
        Ok(Verdicts::from_vec(verdicts))
    }
}
