//! A session that goes on from what an earlier one left.
ghost use Rattle.std.specs.Prelude.{◌≡◌, List, IfOk, option_map};
ghost use Rattle.tea_base.specs.declared.entry.Entry.{Entry};
ghost use Rattle.tea_base.specs.Readings.{current};
ghost use Rattle.reflector_core.specs.PlainSession.{IsSoundSession};
ghost use Rattle.resend_table.specs.Noted.{HasNoted};
ghost use Rattle.session_log.specs.Stored.{lent_kept, plain_stored, IsStored, stored_spelling};
ghost use Rattle.reflector_core.specs.Stored.{base_of, kept_of, session_of, stored_of, IsNextHere};
ghost use Rattle.reflector_core.specs.NextHere.{is_before, lesser_here, noted_kind};

use crate::session::Session;
use resend_table::{Kind, Resend};
use session_log::{EntryKind, Kept, LentKept, Log, Room, Stored, encode_stored};
use std::alloc::Global;
use tea_base::{Blob, WantOfMemory};
use wire_frames::Base;

impl Session {
    /// The session that was stored. It goes on after its last entry, and its horizon is as it was.
    /// Without memory what was stored is dropped.
    pub fn resume(alloc: Global, stored: Stored) -> Result<Session, WantOfMemory>
        requires { IsStored (plain_stored stored) }
        ensures { IfOk result (λ session. session.plain ≡ session_of (plain_stored stored)) }
    {
        let Stored { log, horizon, kept } = stored;
        Session::of_parts(alloc, log, horizon, base_of(kept))
    }

    /// The session with this log, this horizon and this snapshot, if one is kept.
    fn of_parts(
        alloc: Global,
        log: Log,
        horizon: u64,
        kept: Option<Base>,
    ) -> Result<Session, WantOfMemory>
        requires { IsSoundSession (record { log = log.entries; horizon = horizon; kept = kept }) }
        ensures { IfOk result (λ session. session.plain ≡
            record { log = log.entries; horizon = horizon; kept = kept }) }
    {
        let resend = noted(alloc, &log)?;
        Ok(Session {
            alloc,
            log,
            resend,
            horizon,
            kept,
        })
    }

    /// The bytes of the session as it is stored, in memory of their own. `decode_stored` of
    /// `session_log` reads them, and `resume` makes this session of what it reads.
    pub fn store(&self) -> Result<Blob, WantOfMemory>
        ensures { IfOk result (λ bytes. bytes ≡ stored_spelling (stored_of self.now.plain)) }
    {
        encode_stored(self.alloc, &self.log, self.horizon, lent_kept(&self.kept))
    }

    /// The same bytes in memory that was taken before. Takes no other, so this never fails.
    pub fn store_in(&self, room: Room) -> Blob
        ensures { result ≡ stored_spelling (stored_of self.now.plain) }
    {
        room.spell(&self.log, self.horizon, lent_kept(&self.kept))
    }

    /// The least view above that number that is here, with the seq of its Join; None exactly where
    /// there is none. Takes no memory. Goes through the log.
    pub fn next_here(&self, above: u32) -> Option<(u32, u32)>
        ensures { IsNextHere self.now.plain.log above result }
    {
        match least_here(&self.log, &self.resend, above) {
            None => None,
            Some(view) => Some((view, self.current(view))),
        }
    }
}

/// The least view above a number that is here by the table of a log.
fn least_here(log: &Log, resend: &Resend, above: u32) -> Option<u32>
    requires { HasNoted resend.now log.now.entries }
    ensures { IsNextHere log.now.entries above
        (option_map (λ view. (view, current log.now.entries view)) result) }
{
    let len = log.len();
    let mut found = None;
    for i in 0..len {
        found = lesser_here(resend, above, found, log.view_of(i + 1));
    }
    found
}

/// The lesser of the view that was found and of this one, where that is above and here.
fn lesser_here(resend: &Resend, above: u32, found: Option<u32>, view: u32) -> Option<u32>
    ensures { (log : List Entry) → HasNoted resend.now log →
        result ≡ lesser_here log above found view }
{
    if above < view && is_before(view, found) && resend.here(view) {
        Some(view)
    } else {
        found
    }
}

/// Whether a view comes before the one that was found.
fn is_before(view: u32, found: Option<u32>) -> bool
    ensures { result ≡ is_before view found }
{
    match found {
        None => true,
        Some(found) => view < found,
    }
}

/// What is kept, as joining views start from it.
fn base_of(kept: Option<Kept>) -> Option<Base>
    ensures { result ≡ base_of kept }
{
    match kept {
        None => None,
        Some(Kept { time, bytes }) => Some(Base { time, bytes }),
    }
}

/// What is kept, as it is stored.
fn lent_kept(base: &Option<Base>) -> Option<LentKept<'_>>
    ensures { option_map lent_kept result ≡ kept_of base.now }
{
    match base {
        None => None,
        Some(base) => Some(LentKept {
            time: base.time,
            bytes: base.bytes.bytes(),
        }),
    }
}

/// What the table notes of an entry.
pub(super) fn noted_kind(kind: EntryKind) -> Kind
    ensures { result ≡ noted_kind kind }
{
    match kind {
        EntryKind::Join => Kind::Join,
        EntryKind::Exit => Kind::Exit,
        EntryKind::Event => Kind::Event,
    }
}

/// The table of a log's entries.
fn noted(alloc: Global, log: &Log) -> Result<Resend, WantOfMemory>
    ensures { IfOk result (λ table. HasNoted table log.now.entries) }
{
    let len = log.len();
    let mut table = Resend::new(alloc);
    table.reserve(len)?;
    for place in 0..len {
        let view = log.view_of(place + 1);
        let kind = noted_kind(log.kind_of(place + 1));
        table.note(place + 1, view, kind);
    }
    Ok(table)
}
