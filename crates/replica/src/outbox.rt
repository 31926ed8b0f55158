//! The events of a view that are not acknowledged.
ghost use Rattle.std.specs.Prelude.{◌≡◌, ◌≤◌, ◌<◌, ◌+◌, ◌-◌, ◌^◌, [], ◌∷◌, ◌++◌, drop, length, sum_by, IfOk, OnOk, OnErr};
ghost use Rattle.std.specs.List.{AllByRecursion};
ghost use Rattle.tea_base.specs.Limits.{most_payload};
ghost use Rattle.wire_frames.specs.Frames.{FitsClient};
ghost use Rattle.replica_plain.specs.Calls.{sends_after};
ghost use Rattle.replica_plain.specs.PlainReplica.{most_published};

use crate::sending::sends;
use std::alloc::Global;
use std::collections::VecDeque;
use std::marker::Model;
use tea_base::{Blob, WantOfMemory};
use wire_frames::ClientFrames;

/// Payloads in order, with the number of their bytes. Contracts see the payloads.
#[derive(Drop)]
pub(crate) struct Outbox {
    payloads: VecDeque<Blob>,
    // How many bytes the payloads have together, so that they need not be counted anew.
    bytes: u64,
}

impl Model for Outbox {
    ghost use Rattle.std.specs.Prelude.{ℕ, List};
    ghost use Rattle.replica.specs.Outbox.{HoldsOutbox};

    ghost Value = { List (List ℕ) };

    ghost view = { λ o. o.payloads.items };

    ghost invariant = { λ o. HoldsOutbox o.payloads.items o.bytes };
}

impl Outbox {
    /// No payloads. Takes no memory.
    pub(crate) fn new(alloc: Global) -> Outbox
        ensures { result ≡ [] }
    {
        Outbox {
            payloads: VecDeque::new(alloc),
            bytes: 0,
        }
    }

    /// How many payloads there are.
    pub(crate) fn len(&self) -> usize
        ensures { result ≡ length self.now }
    {
        self.payloads.len()
    }

    /// How many bytes the payloads have together.
    pub(crate) fn bytes(&self) -> u64
        ensures { result ≡ sum_by length self.now }
    {
        self.bytes
    }

    /// Adds a payload as the last one. Want of memory changes nothing.
    pub(crate) fn push(&mut self, payload: Blob) -> Result<(), WantOfMemory>
        requires short { length payload ≤ most_payload }
        requires few { length self.old < most_published }
        ensures ok { OnOk result (self.new ≡ self.old ++ payload ∷ []) }
        ensures err { OnErr result (self.new ≡ self.old) }
    {
        let len = payload.bytes().len() as u64;
        if self.payloads.push_back(payload).is_err() {
            return Err(WantOfMemory);
        }
        self.bytes += len;
        Ok(())
    }

    /// Takes the first payload out, if there is one.
    pub(crate) fn pop(&mut self)
        ensures { self.new ≡ drop 1 self.old }
    {
        if let Some(payload) = self.payloads.pop_front() {
            self.bytes -= payload.bytes().len() as u64;
        }
    }

    /// The SENDs of the payloads after the first so many, each of which fits its fields. Their numbers begin after this one.
    pub(crate) fn sends(
        &mut self,
        alloc: Global,
        skipped: usize,
        number: u32,
    ) -> Result<ClientFrames, WantOfMemory>
        requires skipped { skipped ≤ length self.old }
        requires numbers { number + (length self.old - skipped) < 2 ^ 32 }
        ensures frames { IfOk result (λ frames. frames ≡ sends_after number (drop skipped self.old)) }
        ensures fit { IfOk result (λ frames. AllByRecursion FitsClient frames) }
        ensures kept { self.new ≡ self.old }
    {
        let payloads: &[Blob] = self.payloads.make_contiguous();
        sends(alloc, number, &payloads[skipped..])
    }
}
