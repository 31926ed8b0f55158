//! What a view hears its link for.
ghost use Rattle.std.specs.Prelude.{◌≡◌, ℕ, List, [], ◌<◌, ◌+◌, None, Some, IfErr, IfOk, OnOk, MatchResult};
ghost use Rattle.byte_fields.specs.Fields.{whole};
ghost use Rattle.wire_frames.specs.Reading.{server_at};
ghost use Rattle.run_steps.specs.Outside.{links_tell};
ghost use Rattle.replica.specs.View.{KeepsSession};
ghost use Rattle.replica_plain.specs.declared.how.How.{How};
ghost use Rattle.view_script.specs.PlainLine.{PlainLine, most_publishes};
ghost use Rattle.view_shell.specs.Phases.{Aim, ToJoin, ToReach, ToSettle, ToCatchUp, ToSnap, ToSee, Receiving, after_entry, finish, has_caught_up, reads, receive, after_frame};
ghost use Rattle.view_shell.specs.ViewText.{settled_line, reached_time_line};
ghost use Rattle.view_shell.specs.Viewers.{HasHeard, IsReady, KnowsItself, viewer};
ghost use Rattle.view_shell.specs.ViewRun.{Goes, GoesOrStops, LinkActs};
ghost use Rattle.view_shell.specs.Hearing.{GoesOnFor, HeardPhase, StopsAt, StopsHearing, answer_in, answer_line, answered_phase, brings_entry, entry_phase, joined_phase, stop_for, sync_in, synced_phase, vote_count, vote_told, voted_phase};

use crate::ending::ViewEnd;
use crate::publishing::vote;
use crate::sending::stay_alive;
use crate::watcher::Watcher;
use replica::Replica;
use replica_plain::ReplicaFault;
use std::sync::Wait;
use tea_base::Blob;
use tea_io::{Heard, Link, MOST_QUIETS};
use wire_frames::{FrameFault, ServerFrame, read_server};

/// A view that has more events that are not acknowledged hears its link before it goes on. Else what it is sent would fill the buffers of the
/// system, and both sides would wait for each other.
const MOST_UNANSWERED: usize = 4096;

/// So does a view whose events that are not acknowledged have more bytes of payloads.
const MOST_UNANSWERED_BYTES: u64 = 65_536;

/// Why a view does not go on on its link.
#[derive(Clone, Copy, Debug, PartialEq, Eq)]
pub enum Stop {
    /// Its run ends so.
    End(ViewEnd),
    /// The base of a Sync is none.
    BadBase,
}

impl From<ViewEnd> for Stop {
    ghost use Rattle.std.specs.Prelude.{◌≡◌};
    ghost use Rattle.view_shell.specs.declared.hearing.Stop.TheVariants as stops;

    ghost from_gives = { λ end stop. stop ≡ stops.End end };

    fn from(end: ViewEnd) -> Self {
        Stop::End(end)
    }
}

/// What a replica's fault comes to.
fn stop_for(fault: ReplicaFault) -> Stop
    ensures { result ≡ stop_for fault }
{
    match fault {
        ReplicaFault::Refused { code, kept, .. } => Stop::End(ViewEnd::Refused { code, kept }),
        ReplicaFault::BadBase => Stop::BadBase,
        ReplicaFault::Broken | ReplicaFault::WantOfMemory => Stop::End(ViewEnd::WantOfMemory),
        ReplicaFault::Unasked | ReplicaFault::OutOfOrder { .. } | ReplicaFault::Back { .. } =>
            Stop::End(ViewEnd::Peer),
    }
}

/// The frame that bytes spell, once the replica has taken it.
pub fn take(watcher: &mut Watcher, bytes: &Blob) -> Result<ServerFrame, Stop>
    ensures kept { watcher.new ≡ record watcher.old { replica = watcher.new.replica } }
    ensures session { KeepsSession watcher.old.replica watcher.new.replica }
    ensures knows { KnowsItself watcher.old → KnowsItself watcher.new }
    ensures frame { IfOk result (λ frame. whole server_at bytes.now ≡ Some frame) }
    ensures taken { (address : List ℕ) (lines : List PlainLine) (aim : Aim) → MatchResult result
        (λ frame. reads (viewer address watcher.old lines) aim (whole server_at bytes.now)
        ≡ after_frame (viewer address watcher.new lines) aim frame)
        (λ stop. StopsAt stop (reads (viewer address watcher.old lines) aim (whole server_at bytes.now))
        (viewer address watcher.new lines) aim) }
{
    let frame = match read_server(watcher.alloc, bytes.bytes()) {
        Ok(frame) => frame,
        Err(FrameFault::BadFrame) => return Err(Stop::End(ViewEnd::Peer)),
        Err(FrameFault::WantOfMemory) => return Err(Stop::End(ViewEnd::WantOfMemory)),
    };
    match watcher.replica.take(&frame) {
        Ok(()) => Ok(frame),
        Err(fault) => Err(stop_for(fault)),
    }
}

/// Hears the link once: the frame that was taken, or none where the link was quiet.
fn hear<L: Link>(watcher: &mut Watcher, link: &mut L) -> Result<Option<ServerFrame>, Stop>
    requires ready { IsReady watcher.old }
    ensures kept { watcher.new ≡ record watcher.old {
      replica = watcher.new.replica;
      receives = watcher.new.receives;
      quiets = watcher.new.quiets;
    } }
    ensures heard { OnOk result (HasHeard watcher.new) }
    ensures knows { KnowsItself watcher.new }
    ensures talk { (address : List ℕ) (lines : List PlainLine) (aim : Aim) → MatchResult result
        (λ frame. Goes (LinkActs (links_tell L.Link)) (Receiving (viewer address watcher.old lines) aim)
        (HeardPhase (viewer address watcher.new lines) aim frame) link.old link.new)
        (λ stop. StopsHearing (LinkActs (links_tell L.Link)) stop
        (Receiving (viewer address watcher.old lines) aim) (viewer address watcher.new lines) aim link.old link.new) }
{
    match link.recv() {
        Heard::Frame(bytes) => {
            watcher.receives += 1;
            watcher.quiets = 0;
            Ok(Some(take(watcher, &bytes)?))
        }
        Heard::Quiet => {
            watcher.receives += 1;
            watcher.quiets += 1;
            if watcher.quiets == MOST_QUIETS {
                Err(Stop::End(ViewEnd::Ended))
            } else {
                Ok(None)
            }
        }
        Heard::End => Err(Stop::End(ViewEnd::Ended)),
        Heard::Failed => Err(Stop::End(ViewEnd::NetFault)),
        Heard::WantOfMemory => Err(Stop::End(ViewEnd::WantOfMemory)),
    }
}

/// Hears the link once, and stays alive. A base that is none is the reflector's fault here.
fn hear_on<L: Link>(watcher: &mut Watcher, link: &mut L) -> Result<(), ViewEnd>
    requires ready { IsReady watcher.old }
    ensures kept { watcher.new ≡ record watcher.old {
      replica = watcher.new.replica;
      receives = watcher.new.receives;
      quiets = watcher.new.quiets;
    } }
    ensures ready { OnOk result (IsReady watcher.new) }
    ensures talk { (address : List ℕ) (lines : List PlainLine) (aim : Aim) → GoesOnFor aim
        → GoesOrStops (LinkActs (links_tell L.Link)) (Receiving (viewer address watcher.old lines) aim) (λ _.
        receive (viewer address watcher.new lines) aim) result link.old link.new }
{
    match hear(watcher, link) {
        Ok(_) => {}
        Err(Stop::End(end)) => return Err(end),
        Err(Stop::BadBase) => return Err(ViewEnd::Peer),
    }
    stay_alive(watcher, link)
}

/// Hears the link until the replica's time is this one or later.
pub fn reach<R: Wait, L: Link>(
    rt: &R,
    watcher: &mut Watcher,
    link: &mut L,
    time: u64,
) -> Result<(), ViewEnd>
    requires ready { IsReady watcher.old }
    ensures kept { watcher.new ≡ record watcher.old {
      replica = watcher.new.replica;
      receives = watcher.new.receives;
      quiets = watcher.new.quiets;
    } }
    ensures ready { OnOk result (IsReady watcher.new) }
    ensures talk { (address : List ℕ) (lines : List PlainLine)
        → GoesOrStops (LinkActs (links_tell L.Link)) (receive (viewer address watcher.old lines) (ToReach time)) (λ _.
        finish (viewer address watcher.new lines) (reached_time_line watcher.new.replica.plain.world.time)) result
        link.old link.new }
{
    for _ in rt.forever() {
        if time <= watcher.replica.time() {
            return Ok(());
        }
        hear_on(watcher, link)?;
    }
    unreachable!()
}

/// Hears the link until each event is acknowledged.
pub fn settle<R: Wait, L: Link>(rt: &R, watcher: &mut Watcher, link: &mut L) -> Result<(), ViewEnd>
    requires ready { IsReady watcher.old }
    ensures kept { watcher.new ≡ record watcher.old {
      replica = watcher.new.replica;
      receives = watcher.new.receives;
      quiets = watcher.new.quiets;
    } }
    ensures ready { OnOk result (IsReady watcher.new) }
    ensures talk { (address : List ℕ) (lines : List PlainLine)
        → GoesOrStops (LinkActs (links_tell L.Link)) (receive (viewer address watcher.old lines) ToSettle) (λ _.
        finish (viewer address watcher.new lines) (settled_line watcher.new.published)) result link.old link.new }
{
    for _ in rt.forever() {
        if watcher.replica.settled() {
            return Ok(());
        }
        hear_on(watcher, link)?;
    }
    unreachable!()
}

/// Whether few enough events are not acknowledged.
pub fn has_caught_up(replica: &Replica) -> bool
    ensures { result ≡ has_caught_up replica.now.plain }
{
    replica.unacknowledged() <= MOST_UNANSWERED
        && replica.unacknowledged_bytes() <= MOST_UNANSWERED_BYTES
}

/// Hears the link until few enough events are not acknowledged.
pub fn catch_up<R: Wait, L: Link>(
    rt: &R,
    watcher: &mut Watcher,
    link: &mut L,
) -> Result<(), ViewEnd>
    requires ready { IsReady watcher.old }
    ensures kept { watcher.new ≡ record watcher.old {
      replica = watcher.new.replica;
      receives = watcher.new.receives;
      quiets = watcher.new.quiets;
    } }
    ensures ready { OnOk result (IsReady watcher.new) }
    ensures talk { (address : List ℕ) (lines : List PlainLine)
        → GoesOrStops (LinkActs (links_tell L.Link)) (receive (viewer address watcher.old lines) ToCatchUp) (λ _.
        finish (viewer address watcher.new lines) []) result link.old link.new }
{
    for _ in rt.forever() {
        if has_caught_up(&watcher.replica) {
            return Ok(());
        }
        hear_on(watcher, link)?;
    }
    unreachable!()
}

/// The answer to a snapshot.
#[derive(Clone, Copy, Debug, PartialEq, Eq)]
pub enum SnapAnswer {
    /// It is kept, with its time.
    Kept { time: u64 },
    /// It is refused, with a code and the value that comes with it.
    Refused { code: u8, kept: u64 },
}

/// The answer to a snapshot that a frame brings, if it brings one.
fn answer_in(frame: &Option<ServerFrame>) -> Option<SnapAnswer>
    ensures { result ≡ answer_in frame.now }
{
    match frame {
        Some(ServerFrame::Snapped { time }) => Some(SnapAnswer::Kept { time: *time }),
        Some(ServerFrame::Refused { code, kept, .. }) => Some(SnapAnswer::Refused {
            code: *code,
            kept: *kept,
        }),
        _ => None,
    }
}

/// Hears the link once, for the answer to a snapshot, and stays alive.
fn hear_answer<L: Link>(watcher: &mut Watcher, link: &mut L) -> Result<Option<SnapAnswer>, ViewEnd>
    requires ready { IsReady watcher.old }
    ensures kept { watcher.new ≡ record watcher.old {
      replica = watcher.new.replica;
      receives = watcher.new.receives;
      quiets = watcher.new.quiets;
    } }
    ensures ready { OnOk result (IsReady watcher.new) }
    ensures talk { (address : List ℕ) (lines : List PlainLine)
        → GoesOrStops (LinkActs (links_tell L.Link)) (Receiving (viewer address watcher.old lines) ToSnap) (λ found.
        answered_phase (viewer address watcher.new lines) found) result link.old link.new }
{
    let found = match hear(watcher, link) {
        Ok(frame) => answer_in(&frame),
        Err(Stop::End(end)) => return Err(end),
        Err(Stop::BadBase) => return Err(ViewEnd::Peer),
    };
    stay_alive(watcher, link)?;
    Ok(found)
}

/// Hears the link until the snapshot is answered.
pub fn await_answer<R: Wait, L: Link>(
    rt: &R,
    watcher: &mut Watcher,
    link: &mut L,
) -> Result<SnapAnswer, ViewEnd>
    requires ready { IsReady watcher.old }
    ensures kept { watcher.new ≡ record watcher.old {
      replica = watcher.new.replica;
      receives = watcher.new.receives;
      quiets = watcher.new.quiets;
    } }
    ensures ready { OnOk result (IsReady watcher.new) }
    ensures talk { (address : List ℕ) (lines : List PlainLine)
        → GoesOrStops (LinkActs (links_tell L.Link)) (Receiving (viewer address watcher.old lines) ToSnap) (λ answer.
        finish (viewer address watcher.new lines) (answer_line answer)) result link.old link.new }
{
    for _ in rt.forever() {
        if let Some(answer) = hear_answer(watcher, link)? {
            return Ok(answer);
        }
    }
    unreachable!()
}

/// Whether a frame was heard, and the replica has this entry.
pub fn brings_entry(replica: &Replica, frame: &Option<ServerFrame>, at: u32) -> bool
    ensures { result ≡ brings_entry frame.now at replica.now.plain.seen }
{
    match frame {
        None => false,
        Some(_) => at <= replica.seen(),
    }
}

/// Votes on an entry that the view has now. One that it has not yet is left.
fn vote_if(watcher: &mut Watcher, at: u32, comes: bool) -> Result<(), ViewEnd>
    requires heard { HasHeard watcher.old }
    requires room { watcher.old.published < most_publishes }
    ensures kept { watcher.new ≡ record watcher.old {
      replica = watcher.new.replica;
      published = watcher.new.published;
    } }
    ensures count { OnOk result (watcher.new.published ≡ watcher.old.published + vote_count comes) }
    ensures heard { HasHeard watcher.new }
    ensures voted { (address : List ℕ) (lines : List PlainLine) → OnOk result
        (after_entry comes (viewer address watcher.old lines) at
        ≡ voted_phase (viewer address watcher.new lines) at comes) }
    ensures want { IfErr result (λ end. end ≡ ViewEnd.WantOfMemory) }
{
    if comes {
        return vote(watcher, at);
    }
    Ok(())
}

/// Hears the link once, for an entry, and votes on it directly after it. The vote is not sent yet. Answers whether it did.
fn hear_entry<L: Link>(watcher: &mut Watcher, link: &mut L, at: u32) -> Result<bool, ViewEnd>
    requires ready { IsReady watcher.old }
    requires room { watcher.old.published < most_publishes }
    ensures kept { watcher.new ≡ record watcher.old {
      replica = watcher.new.replica;
      receives = watcher.new.receives;
      quiets = watcher.new.quiets;
      published = watcher.new.published;
    } }
    ensures heard { OnOk result (HasHeard watcher.new) }
    ensures count { IfOk result (λ comes. watcher.new.published ≡ watcher.old.published + vote_count comes) }
    ensures talk { (address : List ℕ) (lines : List PlainLine)
        → GoesOrStops (LinkActs (links_tell L.Link)) (Receiving (viewer address watcher.old lines) (ToSee at)) (λ comes.
        voted_phase (viewer address watcher.new lines) at comes) result link.old link.new }
{
    let comes = match hear(watcher, link) {
        Ok(frame) => brings_entry(&watcher.replica, &frame, at),
        Err(Stop::End(end)) => return Err(end),
        Err(Stop::BadBase) => return Err(ViewEnd::Peer),
    };
    vote_if(watcher, at, comes)?;
    Ok(comes)
}

/// The same, and stays alive.
fn take_entry<L: Link>(watcher: &mut Watcher, link: &mut L, at: u32) -> Result<bool, ViewEnd>
    requires ready { IsReady watcher.old }
    requires room { watcher.old.published < most_publishes }
    ensures kept { watcher.new ≡ record watcher.old {
      replica = watcher.new.replica;
      receives = watcher.new.receives;
      quiets = watcher.new.quiets;
      published = watcher.new.published;
    } }
    ensures ready { OnOk result (IsReady watcher.new) }
    ensures count { IfOk result (λ comes. watcher.new.published ≡ watcher.old.published + vote_count comes) }
    ensures talk { (address : List ℕ) (lines : List PlainLine)
        → GoesOrStops (LinkActs (links_tell L.Link)) (Receiving (viewer address watcher.old lines) (ToSee at)) (λ comes.
        entry_phase (viewer address watcher.new lines) at comes) result link.old link.new }
{
    let comes = hear_entry(watcher, link, at)?;
    stay_alive(watcher, link)?;
    Ok(comes)
}

/// Hears the link until the view has an entry, and votes on it directly after it. The vote is not sent yet.
pub fn await_entry<R: Wait, L: Link>(
    rt: &R,
    watcher: &mut Watcher,
    link: &mut L,
    at: u32,
) -> Result<(), ViewEnd>
    requires ready { IsReady watcher.old }
    requires room { watcher.old.published < most_publishes }
    ensures ready { OnOk result (IsReady watcher.new) }
    ensures count { OnOk result (watcher.new.published ≡ watcher.old.published + 1) }
    ensures talk { (address : List ℕ) (lines : List PlainLine)
        → GoesOrStops (LinkActs (links_tell L.Link)) (Receiving (viewer address watcher.old lines) (ToSee at)) (λ _.
        vote_told (viewer address watcher.new lines) at) result link.old link.new }
{
    for _ in rt.forever() {
        if take_entry(watcher, link, at)? {
            return Ok(());
        }
    }
    unreachable!()
}

/// What a Sync says: the entry by which the view joined, and how many entries it begins behind.
#[derive(Clone, Copy, Debug, PartialEq, Eq)]
pub struct Synced {
    pub joined: u32,
    pub from: u32,
}

/// The Sync that a frame is, if it is one.
fn sync_in(frame: &Option<ServerFrame>) -> Option<Synced>
    ensures { result ≡ sync_in frame.now }
{
    match frame {
        Some(ServerFrame::Sync { joined, from, .. }) => Some(Synced {
            joined: *joined,
            from: *from,
        }),
        _ => None,
    }
}

/// Hears the link once, for a Sync, and stays alive.
fn hear_sync<L: Link>(watcher: &mut Watcher, link: &mut L) -> Result<Option<Synced>, Stop>
    requires ready { IsReady watcher.old }
    ensures kept { watcher.new ≡ record watcher.old {
      replica = watcher.new.replica;
      receives = watcher.new.receives;
      quiets = watcher.new.quiets;
    } }
    ensures ready { OnOk result (IsReady watcher.new) }
    ensures knows { KnowsItself watcher.new }
    ensures talk { (address : List ℕ) (lines : List PlainLine) (how : How) → MatchResult result
        (λ found. Goes (LinkActs (links_tell L.Link)) (Receiving (viewer address watcher.old lines) (ToJoin how))
        (joined_phase (viewer address watcher.new lines) how found) link.old link.new)
        (λ stop. StopsHearing (LinkActs (links_tell L.Link)) stop
        (Receiving (viewer address watcher.old lines) (ToJoin how)) (viewer address watcher.new lines)
        (ToJoin how) link.old link.new) }
{
    let found = sync_in(&hear(watcher, link)?);
    stay_alive(watcher, link)?;
    Ok(found)
}

/// Hears the link until a Sync is taken.
pub fn await_sync<R: Wait, L: Link>(
    rt: &R,
    watcher: &mut Watcher,
    link: &mut L,
) -> Result<Synced, Stop>
    requires ready { IsReady watcher.old }
    ensures kept { watcher.new ≡ record watcher.old {
      replica = watcher.new.replica;
      receives = watcher.new.receives;
      quiets = watcher.new.quiets;
    } }
    ensures ready { OnOk result (IsReady watcher.new) }
    ensures knows { KnowsItself watcher.new }
    ensures talk { (address : List ℕ) (lines : List PlainLine) (how : How) → MatchResult result
        (λ found. Goes (LinkActs (links_tell L.Link)) (Receiving (viewer address watcher.old lines) (ToJoin how))
        (synced_phase (viewer address watcher.new lines) how found) link.old link.new)
        (λ stop. StopsHearing (LinkActs (links_tell L.Link)) stop
        (Receiving (viewer address watcher.old lines) (ToJoin how)) (viewer address watcher.new lines)
        (ToJoin how) link.old link.new) }
{
    for _ in rt.forever() {
        if let Some(found) = hear_sync(watcher, link)? {
            return Ok(found);
        }
    }
    unreachable!()
}
