//! A link in memory.
ghost use Rattle.std.specs.Prelude.{◌≡◌, ◌≤◌, false, true, [], Some, Err, length};
ghost use Rattle.tea_io.specs.Told.{with_more};
ghost use Rattle.tea_io.specs.Calls.{IsAnswerOr};
ghost use Rattle.tea_io.specs.Links.{no_counts, note_of, TakesFrame, NoneFalls, CountRises, Sends, SendCause};
ghost use Rattle.tea_io.specs.MemLink.{link_recv_answer, after_recv, link_send_answer, after_send, after_close};

use crate::calls::is_failing;
use crate::link::{Heard, Link, LinkFault};
use std::alloc::Global;
use std::marker::Model;
use tea_base::{Blob, List, Numbers, push};

/// Frames in order.
pub type Blobs = List<Blob>;

/// Links in memory, in order.
pub type MemLinks = List<MemLink>;

/// A link whose frames to come are kept in memory, with those that it is sent. The calls whose
/// numbers it was given fail, and a receive whose number stands in the second list is quiet. They
/// are counted from 1. A call that answers want of memory changes nothing: it is not counted.
#[derive(Drop)]
pub struct MemLink {
    alloc: Global,
    frames: Vec<Blob>,
    taken: usize,
    heard: Vec<Heard>,
    sent: Vec<Blob>,
    failing: Numbers,
    quiet: Numbers,
    next_call: u64,
    faults: u64,
    quiets: u64,
    ends: u64,
    is_closed: bool,
    ghost within: { taken ≤ length frames.items },
}

impl Model for MemLink {
    ghost use Rattle.std.specs.Prelude.{drop as drop_front};
    ghost use Rattle.tea_io.specs.MemLink.{MemLinkState};

    ghost Value = { MemLinkState };

    ghost view = { λ link. record {
      coming = drop_front link.taken link.frames.items;
      heard = link.heard.items;
      sent = link.sent.items;
      failing = link.failing;
      quiet = link.quiet;
      next_call = link.next_call;
      counts = record { faults = link.faults; quiets = link.quiets; ends = link.ends };
      closed = link.is_closed;
    } };
}

impl MemLink {
    /// A link to which these frames come, and whose calls of these numbers fail, or are quiet.
    /// Takes no memory.
    pub fn new(alloc: Global, frames: Blobs, fail: Numbers, quiet: Numbers) -> MemLink
        ensures coming { result.coming ≡ frames }
        ensures heard { result.heard ≡ [] }
        ensures sent { result.sent ≡ [] }
        ensures failing { result.failing ≡ fail }
        ensures quiet { result.quiet ≡ quiet }
        ensures first { result.next_call ≡ 1 }
        ensures counts { result.counts ≡ no_counts }
        ensures closed { result.closed ≡ false }
    {
        MemLink {
            alloc,
            frames: frames.into_vec(),
            taken: 0,
            heard: Vec::new(alloc),
            sent: Vec::new(alloc),
            failing: fail,
            quiet,
            next_call: 1,
            faults: 0,
            quiets: 0,
            ends: 0,
            is_closed: false,
        }
    }

    /// What was heard so far.
    pub fn heard(&self) -> &[Heard]
        ensures { result.now ≡ self.now.heard }
    {
        self.heard.as_slice()
    }

    /// The frames that it was sent so far.
    pub fn sent(&self) -> &[Blob]
        ensures { result.now ≡ self.now.sent }
    {
        self.sent.as_slice()
    }

    /// How often a call has failed.
    pub fn faults(&self) -> u64
        ensures { result ≡ self.now.counts.faults }
    {
        self.faults
    }

    /// How often a receive was quiet.
    pub fn quiets(&self) -> u64
        ensures { result ≡ self.now.counts.quiets }
    {
        self.quiets
    }

    /// How often a receive told the end.
    pub fn ends(&self) -> u64
        ensures { result ≡ self.now.counts.ends }
    {
        self.ends
    }

    /// Whether it was closed.
    pub fn is_closed(&self) -> bool
        ensures { result ≡ self.now.closed }
    {
        self.is_closed
    }
}

impl Link for MemLink {
    ghost coming = { λ link. Some link.coming };

    ghost heard = { λ link. Some link.heard };

    ghost sent = { λ link. Some link.sent };

    ghost counts = { λ link. link.counts };

    ghost closed = { λ link. link.closed };

    fn recv(&mut self) -> Heard
        ensures heard { Some self.new.heard ≡ with_more (Some self.old.heard) (note_of result) }
        ensures coming { TakesFrame (Some self.old.coming) (Some self.new.coming) result }
        ensures sent { Some self.new.sent ≡ Some self.old.sent }
        ensures later { NoneFalls self.old.counts self.new.counts }
        ensures cause { CountRises self.old.counts self.new.counts result }

        // What it answers but for want of memory, and all that it leaves.
        ensures answer { IsAnswerOr Heard.WantOfMemory (link_recv_answer self.old) result }
        ensures leaves { self.new ≡ after_recv result self.old }
    {
        // Room for the note comes first: then nothing is refused behind what changes.
        if self.heard.reserve(1).is_err() {
            return Heard::WantOfMemory;
        }
        if is_failing(self.failing.as_slice(), self.next_call) {
            self.heard.push_reserved(Heard::Failed);
            self.next_call = self.next_call.saturating_add(1);
            self.faults = self.faults.saturating_add(1);
            return Heard::Failed;
        }
        if is_failing(self.quiet.as_slice(), self.next_call) {
            self.heard.push_reserved(Heard::Quiet);
            self.next_call = self.next_call.saturating_add(1);
            self.quiets = self.quiets.saturating_add(1);
            return Heard::Quiet;
        }
        if self.taken == self.frames.len() {
            self.heard.push_reserved(Heard::End);
            self.next_call = self.next_call.saturating_add(1);
            self.ends = self.ends.saturating_add(1);
            return Heard::End;
        }
        let Ok(note) = self.frames[self.taken].clone() else {
            return Heard::WantOfMemory;
        };
        let Ok(frame) = self.frames[self.taken].clone() else {
            return Heard::WantOfMemory;
        };
        self.heard.push_reserved(Heard::Frame(note));
        self.next_call = self.next_call.saturating_add(1);
        self.taken += 1;
        Heard::Frame(frame)
    }

    fn send(&mut self, frame: &[u8]) -> Result<(), LinkFault>
        ensures sent { Sends (Some self.old.sent) (Some self.new.sent) frame.now result }
        ensures heard { Some self.new.heard ≡ Some self.old.heard }
        ensures coming { Some self.new.coming ≡ Some self.old.coming }
        ensures later { NoneFalls self.old.counts self.new.counts }
        ensures cause { SendCause self.old.counts self.new.counts result }

        // What it answers but for want of memory, and all that it leaves.
        ensures answer { IsAnswerOr (Err LinkFault.WantOfMemory) (link_send_answer self.old) result }
        ensures leaves { self.new ≡ after_send result self.old frame.now }
    {
        if is_failing(self.failing.as_slice(), self.next_call) {
            self.next_call = self.next_call.saturating_add(1);
            self.faults = self.faults.saturating_add(1);
            return Err(LinkFault::Failed);
        }
        let copy = Blob::copy(self.alloc, frame)?;
        push(&mut self.sent, copy)?;
        self.next_call = self.next_call.saturating_add(1);
        Ok(())
    }

    fn close(&mut self)
        ensures closed { self.new.closed ≡ true }
        ensures heard { Some self.new.heard ≡ Some self.old.heard }
        ensures coming { Some self.new.coming ≡ Some self.old.coming }
        ensures sent { Some self.new.sent ≡ Some self.old.sent }
        ensures counts { self.new.counts ≡ self.old.counts }

        // All that it leaves.
        ensures leaves { self.new ≡ after_close self.old }
    {
        self.is_closed = true;
    }
}
