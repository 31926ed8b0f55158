//! A session.
ghost use Rattle.std.specs.Prelude.{◌≡◌, ◌≤◌, option_map, IfOk, IsOk, OnOk, OnErr};
ghost use Rattle.tea_base.specs.Legal.{IsLegal};
ghost use Rattle.tea_base.specs.Limits.{most_open_entries, most_bytes};
ghost use Rattle.reflector_core.specs.PlainSession.{IsSoundSession};
ghost use Rattle.reflector_core.specs.SessionState.{IsPreparedFor, UsesAtMost, entries_used, bytes_used};
ghost use Rattle.reflector_core.specs.Prepared.{MeetsItsClauses, AnswersPrepared};
ghost use Rattle.reflector_core.specs.Answer.{with_reply, MayWantMemory, answer};
ghost use Rattle.reflector_core.specs.Keeping.{FoundMemory, HasCause, KeepsPace};
ghost use Rattle.reflector_core.specs.Play.{first_session};

mod appending;
mod entries;
mod events;
mod going_back;
mod presence;
mod readings;
mod resuming;
mod room;
mod snapshots;
mod times;

use crate::keeper::{CallFault, Keeper, NoKeeper};
use crate::request::{Reply, Request};
use crate::session::events::Sent;
use crate::session::room::make_room;
pub use going_back::Mark;
use resend_table::Resend;
use session_log::Log;
use std::alloc::Global;
use std::marker::Model;
use tea_base::WantOfMemory;
use wire_frames::Base;

/// A session: the log of what was stamped, the horizon of its times, and at most one kept snapshot.
/// Contracts see these three as `plain`, and for how many more entries and payload bytes it has
/// memory.
#[derive(Drop)]
pub struct Session {
    alloc: Global,
    log: Log,
    // of the log, for look-ups in it
    resend: Resend,
    horizon: u64,
    kept: Option<Base>,
}

impl Model for Session {
    ghost use Rattle.reflector_core.specs.SessionState.{SessionState};

    ghost Value = { SessionState };

    ghost use Rattle.reflector_core.specs.Kept.{session_state, IsSoundInside};

    ghost view = { session_state };

    ghost invariant = { IsSoundInside };
}

impl Session {
    /// The first session: an empty log, horizon 0, and nothing kept. Takes no memory.
    pub fn new(alloc: Global) -> Session
        ensures { result.plain ≡ first_session }
    {
        Session {
            alloc,
            log: Log::new(alloc),
            resend: Resend::new(alloc),
            horizon: 0,
            kept: None,
        }
    }

    /// The entries that were stamped.
    pub fn log(&self) -> &Log
        ensures log { result.now.entries ≡ self.now.plain.log }
        ensures legal { IsLegal result.now.entries }
    {
        &self.log
    }

    /// The TeaTime up to which nothing more is stamped, in microseconds. No entry is later than it.
    pub fn horizon(&self) -> u64
        ensures value { result ≡ self.now.plain.horizon }
        ensures sound { IsSoundSession self.now.plain }
    {
        self.horizon
    }

    /// The TeaTime of the kept snapshot, in microseconds, if one is kept.
    pub fn kept_time(&self) -> Option<u64>
        ensures { result ≡ option_map (λ base. base.time) self.now.plain.kept }
    {
        self.kept.as_ref().map(|base| base.time)
    }

    /// Takes memory for so many calls of Send and Leave, with so many payload bytes together: those
    /// that follow want none, also with Ticks, Offers and Pulls between them. A Join between takes
    /// the place of one of them.
    pub fn prepare(&mut self, calls: u32, bytes: u64) -> Result<(), WantOfMemory>
        requires calls_bound { calls ≤ most_open_entries }
        requires bytes_bound { bytes ≤ most_bytes }
        ensures same { self.new.plain ≡ self.old.plain }
        ensures entries { OnOk result (calls ≤ self.new.ready_entries) }
        ensures bytes { OnOk result (bytes ≤ self.new.ready_bytes) }
        ensures answered { OnOk result (AnswersPrepared self.new calls bytes) }
        ensures entries_kept { self.old.ready_entries ≤ self.new.ready_entries }
        ensures bytes_kept { self.old.ready_bytes ≤ self.new.ready_bytes }
    {
        make_room(&mut self.log, &mut self.resend, calls, bytes)
    }

    /// Answers a request. After a refusal, and without memory, the session is as it was. Memory may
    /// be wanted for a Join, a Send, a Leave, an Offer or a Pull that nothing refuses, and for no
    /// refusal, no Tick and no repeat.
    pub fn call(&mut self, request: &Request) -> Result<Reply, WantOfMemory>
        ensures ok { IfOk result (λ reply. with_reply self.new.plain reply ≡
            answer self.old.plain request.now) }
        ensures err { OnErr result (self.new.plain ≡ self.old.plain) }
        ensures sound { IsSoundSession self.new.plain }
        ensures prepared { IsPreparedFor self.old request.now → IsOk result }
        ensures used { UsesAtMost self.old self.new
            (entries_used request.now) (bytes_used request.now) }
        ensures room { MeetsItsClauses self.old
            (record { request = request.now; result = result; after = self.new }) }
        ensures memory { OnErr result (MayWantMemory (answer self.old.plain request.now).reply) }
    {
        let mut keeper = NoKeeper;
        match self.call_kept(&mut keeper, request) {
            Ok(reply) => Ok(reply),
            Err(CallFault::WantOfMemory) => Err(WantOfMemory),
            Err(CallFault::Unkept) => unreachable!(),
        }
    }

    /// The same of a session with a keeper. What will change is written before it changes: all memory is taken first, then
    /// the keeper writes it, and then nothing fails. Where it is not written, the session is as it was. It is for the caller
    /// to settle it before the reply is told; where that fails, the session can go back.
    pub fn call_kept<K: Keeper>(
        &mut self,
        keeper: &mut K,
        request: &Request,
    ) -> Result<Reply, CallFault>
        ensures ok { IfOk result (λ reply. with_reply self.new.plain reply ≡
            answer self.old.plain request.now) }
        ensures err { OnErr result (self.new.plain ≡ self.old.plain) }
        ensures sound { IsSoundSession self.new.plain }
        ensures prepared { IsPreparedFor self.old request.now → FoundMemory result }
        ensures used { UsesAtMost self.old self.new
            (entries_used request.now) (bytes_used request.now) }
        ensures cause { HasCause (answer self.old.plain request.now).reply (K.shut keeper.new) result }
        ensures pace { KeepsPace K.holds K.writes K.settled K.shut K.faults keeper.old keeper.new
            self.old.plain self.new.plain }
    {
        let reply = match request {
            Request::Join { view, now, want } => self.join(keeper, *view, *now, *want),
            Request::Send {
                view,
                joined,
                number,
                payload,
                now,
            } => self.send(
                keeper,
                Sent {
                    view: *view,
                    joined: *joined,
                    number: *number,
                    payload: payload.bytes(),
                    now: *now,
                },
            ),
            Request::Tick { now } => self.tick(keeper, *now),
            Request::Leave { view, joined, now } => self.leave(keeper, *view, *joined, *now),
            Request::Offer {
                view,
                joined,
                time,
                bytes,
            } => self.offer(keeper, *view, *joined, *time, bytes),
            Request::Pull { after, limit } => match self.pull(*after, *limit) {
                Ok(reply) => Ok(reply),
                Err(_) => Err(CallFault::WantOfMemory),
            },
        };
        // opens the session, whose invariant is the clause `sound`
        let _ = &self.horizon; // for the prover
        reply
    }
}
