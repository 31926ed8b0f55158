//! The last line of a view is the replay of the log.
ghost use Rattle.run_steps.specs.Outside.{links_tell, net_tells};
ghost use Rattle.view_follows.specs.AnyEnds.{OfRunsOfViews, RunsLiveOn};
ghost use Rattle.view_follows.specs.Answered.{AnsweredVisitsHaveNoFault, VisitsEndByRefusals, VisitsEndWithLinks};
ghost use Rattle.view_follows.specs.BothEnds.{LinksMeet};
ghost use Rattle.view_follows.specs.LiveAnswers.{AnsweredLiveViewsHaveNoFault, AnsweredLiveViewsReplay};
ghost use Rattle.view_follows.specs.LiveEnds.{LiveViewsEndByFaults, LiveViewsEndByPeers, LiveViewsEndByRefusals, LiveViewsEndWithLinks};
ghost use Rattle.view_follows.specs.Journals.{AnswersTellOfRuns, JournalRunsFollow, JournalsLeave, KeptAnswersTellOfRuns, SafeBytesLeave};
ghost use Rattle.view_follows.specs.SessionsReplay.{EndsViews, KeepHonest, OfViewRuns, ServesViews};
ghost use Rattle.view_follows.specs.ViewsReplay.{ViewsReplay, VisitsEndInReplay, VisitsOfferFollowers, VisitsShowReplays};

use journal_store::safe_bytes_are_read;
use replica::{worlds_replay, worlds_stand};
use session_journal::own_records_are_read_first;
use store_io::Store;
use tea_io::{Clock, Link, Net};

/// A view whose links were served by one legal log, with honest bases, prints as its last line that of a replica that follows the log:
/// its seq is the number of entries up to its time, and its digest that of the replay of the log to that time. So it is whatever its
/// script did, and however often it was cut. One that is done printed that line last. Each snapshot that it
/// offers is of a replica that follows the log. Each world that it shows is the replay of the log to its time, in full.
pub fn views_replay()
    ensures line { ViewsReplay }
    ensures done { VisitsEndInReplay }
    ensures offers { VisitsOfferFollowers }
    ensures shows { VisitsShowReplays }
{
    worlds_stand();
    worlds_replay();
}

/// Which links keep a view from an end that is not its script's.
///
/// It does not end with `Peer` where one legal log answered its links with honest bases, each frame only after that which it answers, and
/// each SYNC that came counted at least the events that were acknowledged and at most those that were published. It does not end with `Ended`
/// where no link said that it has ended, or was quiet 6,000 times in a row; nor with `Refused` where nothing was refused but a snapshot.
pub fn ends_are_caused()
    ensures peer { AnsweredVisitsHaveNoFault }
    ensures ended { VisitsEndWithLinks }
    ensures refused { VisitsEndByRefusals }
{
    worlds_stand();
}

/// Which links keep a live view from an end that is not its lines'. It does not end with `Ended` where no link said that it has ended, or was quiet
/// 6,000 times in a row; nor with `Refused` where nothing was refused but a snapshot; nor with `NetFault` where each link that it wanted was made,
/// and none failed; nor with `Peer` where each frame that it heard was one of a reflector, and its replica found no fault of order or of a base in it.
/// Nor with `Peer` where one legal log answered its links as `ends_are_caused` says of a script, and each frame that it sent fits the wire. So answered, and done,
/// it printed last the line of the replay of this log.
pub fn live_ends_are_caused()
    ensures ended { LiveViewsEndWithLinks }
    ensures refused { LiveViewsEndByRefusals }
    ensures failed { LiveViewsEndByFaults }
    ensures peer { LiveViewsEndByPeers }
    ensures answered { AnsweredLiveViewsHaveNoFault }
    ensures replays { AnsweredLiveViewsReplay }
{
    worlds_stand();
    worlds_replay();
}

/// A link that a log serves at the reflector's end is served by it at the view's, also where a cut lost the end of what went either way.
pub fn links_meet()
    ensures { LinksMeet }
{}

/// However often a reflector ended and was started again on the file that it wrote: where its only clients are views, each snapshot that
/// was kept is honest for the log of its last run, whatever the scripts did, and however often they were cut. So this log serves each view
/// of each run, and each that is done printed last the line of its replay. One run of a new session is a list of one.
///
/// Each connection of each run is that of a link of a view. What came on a link was sent at its other end, in order and without a
/// gap; the reflector may hear an ALIVE besides. The connections of a view made their first calls in the order of its links. Each run has
/// a clock of its own. A run that put no session is none of these.
pub fn views_of_many_runs<C: Clock, L: Link>()
    ensures honest { OfViewRuns C.gives (links_tell L.Link) KeepHonest }
    ensures served { OfViewRuns C.gives (links_tell L.Link) ServesViews }
    ensures done { OfViewRuns C.gives (links_tell L.Link) EndsViews }
{
    views_of_any_runs::<C, L>();
}

/// However the runs of a reflector on one session ended, well, by a kill, or with a journal that failed: where each went on from what the one
/// before it had left, the log of the last run is legal, and goes on from that of each run. It serves each connection of each run, and each
/// TICK that was sent is at most its horizon.
pub fn runs_live_on<C: Clock, L: Link>()
    ensures { RunsLiveOn C.gives (links_tell L.Link) }
{}

/// What [`views_of_many_runs`] says is so too where runs ended in any way, and each went on from what the one before it had left.
pub fn views_of_any_runs<C: Clock, L: Link>()
    ensures honest { OfRunsOfViews C.gives (links_tell L.Link) KeepHonest }
    ensures served { OfRunsOfViews C.gives (links_tell L.Link) ServesViews }
    ensures done { OfRunsOfViews C.gives (links_tell L.Link) EndsViews }
{
    worlds_stand();
    views_replay();
}

/// What the journal of a run leaves, whatever call of its store had failed: any bytes that begin with the safe ones are read as a session that the run
/// may leave, where each record that is read behind the safe ones is one that the run was writing and that nobody was told. The safe bytes alone are read as such a session.
/// So runs that began each on what was found of the journal of the one before are runs of one session.
pub fn journals_leave<C: Clock, L: Link, S: Store>()
    ensures left { JournalsLeave C L S.bytes S.safe }
    ensures safe { SafeBytesLeave C L S.bytes S.safe }
    ensures follow { JournalRunsFollow C.gives (links_tell L.Link) S.bytes S.safe }
{
    own_records_are_read_first();
    safe_bytes_are_read();
}

/// Each answer of `reflect` tells of a run, however it ended, and so does each of one that keeps a journal.
pub fn answers_tell_of_runs<C: Clock, N: Net, S: Store>()
    ensures alone { AnswersTellOfRuns C.gives (net_tells N.Net) (links_tell N.Conn.Link) }
    ensures kept { KeptAnswersTellOfRuns C.gives (net_tells N.Net) (links_tell N.Conn.Link) S.bytes S.safe S.faults }
{}
