//! How entries come into the log.
ghost use Rattle.std.specs.Prelude.{◌≡◌, ◌+◌, ◌<◌, ◌≤◌, length, IfOk, OnOk, OnErr};
ghost use Rattle.tea_base.specs.Legal.{MayFollow};
ghost use Rattle.tea_base.specs.Readings.{payload_len};
ghost use Rattle.entry_fields.specs.Lent.{lent_what};
ghost use Rattle.resend_table.specs.Noted.{HasNoted, spare_of};
ghost use Rattle.session_log.specs.LogState.{next_entry, with_next};
ghost use Rattle.reflector_core.specs.PlainSession.{IsSoundSession};
ghost use Rattle.reflector_core.specs.SessionState.{UsesAtMost};
ghost use Rattle.reflector_core.specs.Answer.{stamp, append_entry};
ghost use Rattle.reflector_core.specs.Keeping.{EntryFault, FoundMemory, KeepsPace};

use crate::keeper::{CallFault, Keeper};
use crate::session::Session;
use crate::session::room::make_room;
use crate::session::times::stamp;
use entry_fields::LentWhat;
use resend_table::{Kind, Resend};
use session_log::Log;
use tea_base::What;

/// How many payload bytes an entry has.
fn payload_len(what: LentWhat<'_>) -> u64
    ensures { result ≡ payload_len (lent_what what.entry) }
{
    match what {
        LentWhat::Join | LentWhat::Exit => 0,
        LentWhat::Event { payload, .. } => payload.len() as u64,
    }
}

/// Adds an entry to a log and notes it in its table, both of which have room. Gives its seq.
fn push(log: &mut Log, resend: &mut Resend, time: u64, view: u32, what: LentWhat<'_>) -> u32
    requires legal { MayFollow log.old.entries (next_entry log.old.entries time view (lent_what what)) }
    requires room_for_entry { 0 < log.old.spare_entries }
    requires room_for_bytes { payload_len (lent_what what) ≤ log.old.spare_bytes }
    requires room_for_note { 0 < spare_of resend.old }
    ensures seq { result ≡ length log.old.entries + 1 }
    ensures entries { log.new.entries ≡ with_next log.old.entries time view (lent_what what.entry) }
    ensures spare_entries { log.new.spare_entries + 1 ≡ log.old.spare_entries }
    ensures spare_bytes { log.new.spare_bytes + payload_len (lent_what what.entry) ≡ log.old.spare_bytes }
    ensures spare_notes { spare_of resend.new + 1 ≡ spare_of resend.old }
    ensures noted { HasNoted resend.old log.old.entries → HasNoted resend.new log.new.entries }
{
    match what {
        LentWhat::Join => {
            let seq = log.push(time, view, &What::Join);
            resend.note(seq, view, Kind::Join);
            seq
        }
        LentWhat::Exit => {
            let seq = log.push(time, view, &What::Exit);
            resend.note(seq, view, Kind::Exit);
            seq
        }
        LentWhat::Event { number, payload } => {
            let seq = log.push_event(time, view, number, payload);
            resend.note(seq, view, Kind::Event);
            seq
        }
    }
}

impl Session {
    /// Appends an entry that may follow at the time of a clock, and gives its seq and its time. All memory is taken first,
    /// then the keeper keeps the entry, and then nothing fails.
    pub(super) fn append<K: Keeper>(
        &mut self,
        keeper: &mut K,
        view: u32,
        what: LentWhat<'_>,
        now: u64,
    ) -> Result<(u32, u64), CallFault>
        requires follows { MayFollow self.old.plain.log
            (next_entry self.old.plain.log (stamp self.old.plain.horizon now) view (lent_what what)) }
        requires sound { IsSoundSession
            (append_entry self.old.plain (stamp self.old.plain.horizon now) view (lent_what what)) }
        ensures ok { IfOk result (λ place. place ≡ (length self.old.plain.log + 1, stamp self.old.plain.horizon now)) }
        ensures appended { OnOk result (self.new.plain ≡
            append_entry self.old.plain (stamp self.old.plain.horizon now) view (lent_what what.entry)) }
        ensures prepared { 0 < self.old.ready_entries → payload_len (lent_what what.entry) ≤ self.old.ready_bytes →
            FoundMemory result }
        ensures used { UsesAtMost self.old self.new 1 (payload_len (lent_what what.entry)) }
        ensures err { OnErr result (self.new.plain ≡ self.old.plain) }
        ensures cause { EntryFault (K.shut keeper.new) result }
        ensures pace { KeepsPace K.holds K.writes K.settled K.shut K.faults keeper.old keeper.new
            self.old.plain self.new.plain }
    {
        make_room(&mut self.log, &mut self.resend, 1, payload_len(what))?;
        let time = stamp(self.horizon, now);
        match keeper.keep_entry(time, view, what) {
            Err(_) => Err(CallFault::Unkept),
            Ok(()) => {
                let seq = push(&mut self.log, &mut self.resend, time, view, what);
                self.horizon = time;
                Ok((seq, time))
            }
        }
    }
}
