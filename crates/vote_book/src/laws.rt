//! What verdicts and counted votes show.
ghost use Rattle.std.specs.Prelude.{ℕ, List};
ghost use Rattle.std.specs.List.{filter};
ghost use Rattle.vote_book.specs.VoteBook.{Ballot, is_on, verdict_on};
ghost use Rattle.vote_book.specs.Laws.{CountOnce, SplitShows};

/// A verdict has a split exactly where two votes on its entry name different digests, and the split names two that do.
pub fn splits_show_votes_that_differ()
    ensures { (votes : List Ballot) (at : ℕ) → SplitShows (filter (is_on at) votes) (verdict_on votes at).split }
{}

/// A view counts once on an entry: of each vote, one of its view on its entry counts, and no two do.
pub fn a_view_counts_once()
    ensures { (votes : List Ballot) → CountOnce votes }
{}
