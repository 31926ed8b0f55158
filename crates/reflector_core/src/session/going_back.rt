//! A session that goes back to where it was.
ghost use Rattle.std.specs.Prelude.{◌≡◌, ◌-◌, ◌≤◌, ◌<◌, ◌++◌, ◌∷◌, [], length, take, if◌then◌else◌};
ghost use Rattle.tea_base.specs.Limits.{most_entries};
ghost use Rattle.tea_base.specs.declared.entry.Entry.{Entry};
ghost use Rattle.resend_table.specs.Noted.{HasNoted};
ghost use Rattle.resend_table.specs.Stands.{stand_after, stand_of};
ghost use Rattle.reflector_core.specs.PlainSession.{IsSoundSession};
ghost use Rattle.reflector_core.specs.Keeping.{back_to, mark_of};

use crate::session::Session;
use crate::session::resuming::noted_kind;
use resend_table::{Kind, Resend, Stand};
use session_log::Log;

/// How far a session had come: how many entries its log had, and its horizon, a TeaTime in microseconds.
#[derive(Clone, Copy, Debug, PartialEq, Eq)]
pub struct Mark {
    pub len: u32,
    pub horizon: u64,
}

impl Session {
    /// How far it has come.
    pub fn mark(&self) -> Mark
        ensures mark { result ≡ mark_of self.now.plain }
        ensures sound { IsSoundSession self.now.plain }
    {
        Mark {
            len: self.log.len(),
            horizon: self.horizon,
        }
    }

    /// Goes back to where it was, with what it keeps now. Takes no memory. Goes through the log for each entry that it takes
    /// away.
    pub fn go_back(&mut self, mark: Mark)
        requires within { mark.len ≤ length self.old.plain.log }
        requires sound { IsSoundSession (back_to mark self.old.plain) }
        ensures { self.new.plain ≡ back_to mark self.old.plain }
    {
        forget_after(&mut self.log, &mut self.resend, mark.len);
        self.horizon = mark.horizon;
    }
}

/// Takes entries away from a log and its table until there are so many.
fn forget_after(log: &mut Log, resend: &mut Resend, len: u32)
    requires noted { HasNoted resend.old log.old.entries }
    requires within { len ≤ length log.old.entries }
    ensures entries { log.new.entries ≡ take len log.old.entries }
    ensures noted { HasNoted resend.new log.new.entries }
{
    for _gone in len..log.len() {
        forget_last(log, resend);
    }
}

/// Takes the last entry away from a log and its table.
fn forget_last(log: &mut Log, resend: &mut Resend)
    requires noted { HasNoted resend.old log.old.entries }
    requires some { 0 < length log.old.entries }
    ensures entries { (last : Entry) × (log.old.entries ≡ log.new.entries ++ last ∷ []) }
    ensures noted { HasNoted resend.new log.new.entries }
{
    let seq = log.len();
    let (view, kind) = log.pop();
    let stand = stand_in(log, view);
    resend.forget(seq, view, noted_kind(kind), stand);
}

/// How a view stands after the entries of a log.
fn stand_in(log: &Log, view: u32) -> Stand
    ensures { result ≡ stand_of log.now.entries view }
{
    let len = log.len();
    let mut stand = Stand::absent();
    for place in 0..len {
        stand = stand_after(log, view, stand, place + 1);
    }
    stand
}

/// How a view stands after the entry with this seq, by how it stood before.
fn stand_after(log: &Log, view: u32, stand: Stand, seq: u32) -> Stand
    requires named { 0 < seq }
    requires there { seq ≤ length log.now.entries }
    requires stood { stand ≡ stand_of (take (seq - 1) log.now.entries) view }
    ensures { result ≡ stand_of (take seq log.now.entries) view }
{
    // tells that the log is legal
    let _len = log.len(); // for the prover
    let kind = noted_kind(log.kind_of(seq));
    let at = log.view_of(seq);
    after_one(stand, at == view, seq, kind)
}

/// How a view stands after one more entry, which is its own or not.
fn after_one(stand: Stand, own: bool, seq: u32, kind: Kind) -> Stand
    ensures { stand.last < most_entries → result ≡ (if own then stand_after stand seq kind else stand) }
{
    if own { stand.after(seq, kind) } else { stand }
}
