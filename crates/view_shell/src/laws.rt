//! Laws of the runs of views.
ghost use Rattle.view_shell.specs.Agreeing.{HasWorldOfLog, HaveOneDigest, VotesWithWorldOfLog};
ghost use Rattle.view_shell.specs.OneRun.{IsOneRun};

use replica::worlds_stand;

/// For what its links tell, a view prints one text and sends the same frames.
pub fn one_run()
    ensures { IsOneRun }
{}

/// A replica that follows a legal log, and takes the log's next entry without want of memory, has the world to which the entries up
/// to that one lead from the first world. So two such replicas vote one digest on the entry. Where two votes differ, one of the
/// two views did not run the program on the log. A view that listens for an entry votes directly after it, with that world, and not
/// before.
pub fn votes_agree()
    ensures world { HasWorldOfLog }
    ensures digests { HaveOneDigest }
    ensures vote { VotesWithWorldOfLog }
{
    worlds_stand();
}
