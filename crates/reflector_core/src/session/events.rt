//! The events that views send.
ghost use Rattle.std.specs.Prelude.{◌≡◌, ◌+◌, ◌<◌, ◌≤◌, ◌||◌, nat_lt, true, length, IfOk, OnErr};
ghost use Rattle.tea_base.specs.Readings.{payload_bytes, view_event, is_here, last_number};
ghost use Rattle.tea_base.specs.Limits.{most_payload, most_bytes, most_open_entries, end_of_time};
ghost use Rattle.reflector_core.specs.SessionState.{UsesAtMost};
ghost use Rattle.reflector_core.specs.declared.request.Reply.{Reply};
ghost use Rattle.reflector_core.specs.Answer.{with_reply, reply_length, is_closed, repeats, stamps, send_event};
ghost use Rattle.reflector_core.specs.Keeping.{FoundMemory, HasCause, KeepsPace};

use crate::keeper::{CallFault, Keeper};
use crate::request::{Refusal, Reply};
use crate::session::Session;
use entry_fields::LentWhat;
use tea_base::{END_OF_TIME, MOST_BYTES, MOST_PAYLOAD};

/// What a Send asks.
#[derive(Clone, Copy)]
pub(super) struct Sent<'a> {
    pub view: u32,
    pub joined: u32,
    pub number: u32,
    pub payload: &'a [u8],
    pub now: u64,
}

/// A length as a reply gives it.
pub(super) fn cap_len(len: usize) -> u32
    ensures { result ≡ reply_length len }
{
    len.min(u32::MAX as usize) as u32
}

impl Session {
    /// Answers a Send.
    pub(super) fn send<K: Keeper>(
        &mut self,
        keeper: &mut K,
        sent: Sent<'_>,
    ) -> Result<Reply, CallFault>
        ensures ok { IfOk result (λ reply. with_reply self.new.plain reply ≡
            send_event self.old.plain sent.entry.view sent.entry.joined sent.entry.number sent.entry.payload.now
            sent.entry.now) }
        ensures prepared { 0 < self.old.ready_entries → length sent.entry.payload.now ≤ self.old.ready_bytes →
            FoundMemory result }
        ensures used { UsesAtMost self.old self.new 1 (length sent.entry.payload.now) }
        ensures err { OnErr result (self.new.plain ≡ self.old.plain) }
        ensures cause { HasCause (send_event self.old.plain sent.entry.view sent.entry.joined sent.entry.number
            sent.entry.payload.now sent.entry.now).reply
            (K.shut keeper.new) result }
        ensures pace { KeepsPace K.holds K.writes K.settled K.shut K.faults keeper.old keeper.new
            self.old.plain self.new.plain }
    {
        let Sent {
            view,
            joined,
            number,
            payload,
            now,
        } = sent;
        if self.is_stale(view, joined) {
            return Ok(Reply::Refused(self.stale(view)));
        }
        if payload.len() > MOST_PAYLOAD {
            return Ok(Reply::Refused(Refusal::TooLong {
                len: cap_len(payload.len()),
            }));
        }
        let next = self.last_number(view) + 1;
        if number == 0 {
            return Ok(Reply::Refused(Refusal::Gap { expected: next }));
        }
        if number < next {
            return Ok(self.repeat(view, number, payload));
        }
        if next < number {
            return Ok(Reply::Refused(Refusal::Gap { expected: next }));
        }
        if self.is_full(payload.len()) {
            return Ok(Reply::Refused(self.log_full()));
        }
        if self.horizon >= END_OF_TIME {
            return Ok(Reply::Refused(Refusal::TimeEnd {
                horizon: self.horizon,
            }));
        }
        self.append_event(keeper, view, number, payload, now)
    }

    /// Whether nothing is added to the log but Exits, or it has no room for so many payload bytes.
    fn is_full(&self, len: usize) -> bool
        requires { len ≤ most_payload }
        ensures { result ≡ (is_closed self.now.plain.log
            || nat_lt most_bytes (payload_bytes self.now.plain.log + len)) }
    {
        self.is_closed() || self.log.bytes() > MOST_BYTES - len as u64
    }

    /// Answers an event that was sent before.
    fn repeat(&self, view: u32, number: u32, payload: &[u8]) -> Reply
        requires counted { 0 < number }
        requires sent { number ≤ last_number self.now.plain.log view }
        ensures { (otherwise : Reply) → result ≡
            repeats self.now.plain payload.now (view_event self.now.plain.log view number) otherwise }
    {
        match self.seq_of(view, number) {
            None => unreachable!(),
            Some(seq) => {
                if self.log.payload_is(seq, payload) {
                    Reply::Again {
                        seq,
                        time: self.log.time_of(seq),
                    }
                } else {
                    Reply::Refused(Refusal::Differs { seq })
                }
            }
        }
    }

    /// Appends an event that nothing refuses.
    fn append_event<K: Keeper>(
        &mut self,
        keeper: &mut K,
        view: u32,
        number: u32,
        payload: &[u8],
        now: u64,
    ) -> Result<Reply, CallFault>
        requires here { is_here self.old.plain.log view ≡ true }
        requires next { number ≡ last_number self.old.plain.log view + 1 }
        requires short { length payload.now ≤ most_payload }
        requires fits { payload_bytes self.old.plain.log + length payload.now ≤ most_bytes }
        requires unfilled { length self.old.plain.log < most_open_entries }
        requires before_end { self.old.plain.horizon < end_of_time }
        ensures ok { IfOk result (λ reply. with_reply self.new.plain reply ≡
            stamps self.old.plain view number payload.now now) }
        ensures prepared { 0 < self.old.ready_entries → length payload.now ≤ self.old.ready_bytes →
            FoundMemory result }
        ensures used { UsesAtMost self.old self.new 1 (length payload.now) }
        ensures err { OnErr result (self.new.plain ≡ self.old.plain) }
        ensures cause { HasCause (stamps self.old.plain view number payload.now now).reply (K.shut keeper.new) result }
        ensures pace { KeepsPace K.holds K.writes K.settled K.shut K.faults keeper.old keeper.new
            self.old.plain self.new.plain }
    {
        // opens the session, whose invariant tells that it is sound
        let _ = &self.horizon; // for the prover
        let (seq, time) = self.append(keeper, view, LentWhat::Event { number, payload }, now)?;
        Ok(Reply::Stamped { seq, time })
    }
}
