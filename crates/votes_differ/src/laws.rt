//! Of two votes that differ, one is of a view that did not run the program on the log.
ghost use Rattle.votes_differ.specs.Runners.{DivergedShows, SplitsShow};

use view_shell::votes_agree;
use vote_book::splits_show_votes_that_differ;

/// A vote that is answered `Diverged` shows that one of two views did not run the program on the log: it and the first vote on its
/// entry are not both those of views whose replicas follow the log, took that entry, and voted directly after it. So it is too of the
/// two votes that a verdict on a log names.
pub fn one_did_not_run()
    ensures diverged { DivergedShows }
    ensures splits { SplitsShow }
{
    votes_agree();
    splits_show_votes_that_differ();
}
