//! A net in memory.
ghost use Rattle.std.specs.Prelude.{◌≡◌, ◌+◌, ◌<◌, ◌≤◌, [], ◌∷◌, All, Some, Err, IfOk, OnOk, OnErr};
ghost use Rattle.std.specs.Prelude.{vec_len, vec_capacity};
ghost use Rattle.tea_io.specs.Told.{with_more, TakesFirst};
ghost use Rattle.tea_io.specs.Calls.{IsAnswerOr};
ghost use Rattle.tea_io.specs.Links.{no_counts};
ghost use Rattle.tea_io.specs.Nets.{plus, AsksNet, NetCause};
ghost use Rattle.tea_io.specs.declared.net.NetCall.TheVariants.{Listen, Accept, Connect};
ghost use Rattle.tea_io.specs.MemNet.{HasNoCounts, listen_answer, link_answer, net_after, same_net};
ghost use Rattle.tea_io.specs.MemNet.{without_first};

use crate::calls::is_failing;
use crate::mem_link::{MemLink, MemLinks};
use crate::net::{Net, NetCall, NetFault};
use std::alloc::Global;
use std::marker::Model;
use tea_base::{Numbers, Text, push};

/// A net whose links to come are kept in memory, with those that were given back. The calls whose
/// numbers it was given fail, and so does one for a link where none is left. They are counted from
/// 1. A call that answers want of memory changes nothing: it is not counted.
#[derive(Drop)]
pub struct MemNet {
    coming: Vec<MemLink>,
    over: Vec<MemLink>,
    asked: Vec<NetCall>,
    failing: Numbers,
    next_call: u64,
    faults: u64,
    lent: usize,
    link_faults: u64,
    link_quiets: u64,
    link_ends: u64,
    ghost room: { vec_len over + lent ≤ vec_capacity over },
    ghost fresh: { All HasNoCounts coming.items },
}

impl Model for MemNet {
    ghost use Rattle.tea_io.specs.MemNet.{MemNetState};

    ghost Value = { MemNetState };

    ghost view = { λ net. record {
      coming = net.coming.items;
      over = net.over.items;
      asked = net.asked.items;
      failing = net.failing;
      next_call = net.next_call;
      faults = net.faults;
      lent = net.lent;
      link_counts = record { faults = net.link_faults; quiets = net.link_quiets; ends = net.link_ends };
    } };
}

impl MemNet {
    /// A net that gives these links, whose counts are 0, and whose calls of these numbers fail. Takes
    /// no memory.
    pub fn new(alloc: Global, coming: MemLinks, fail: Numbers) -> MemNet
        requires { All HasNoCounts coming }
        ensures coming { result.coming ≡ coming }
        ensures over { result.over ≡ [] }
        ensures asked { result.asked ≡ [] }
        ensures failing { result.failing ≡ fail }
        ensures first { result.next_call ≡ 1 }
        ensures faults { result.faults ≡ 0 }
        ensures lent { result.lent ≡ 0 }
        ensures counts { result.link_counts ≡ no_counts }
    {
        MemNet {
            coming: coming.into_vec(),
            over: Vec::new(alloc),
            asked: Vec::new(alloc),
            failing: fail,
            next_call: 1,
            faults: 0,
            lent: 0,
            link_faults: 0,
            link_quiets: 0,
            link_ends: 0,
        }
    }

    /// The links that were given back.
    pub fn over(&self) -> &[MemLink]
        ensures { result.now ≡ self.now.over }
    {
        self.over.as_slice()
    }

    /// The calls so far that could fail, in order.
    pub fn asked(&self) -> &[NetCall]
        ensures { result.now ≡ self.now.asked }
    {
        self.asked.as_slice()
    }

    /// The next link, for this call.
    fn give(&mut self, call: NetCall) -> Result<MemLink, NetFault>
        ensures given { IfOk result (λ conn. TakesFirst (Some self.old.coming) (Some self.new.coming) conn) }
        ensures fresh { IfOk result HasNoCounts }
        ensures cause { NetCause self.old.faults self.new.faults result }
        ensures answer { IsAnswerOr (Err NetFault.WantOfMemory) (link_answer self.old) result }
        ensures leaves { self.new ≡ net_after without_first result self.old call }
    {
        let Some(lent) = self.lent.checked_add(1) else {
            return Err(NetFault::WantOfMemory);
        };
        // Room for the link when it comes back, and for the note: then nothing is refused.
        if self.over.reserve(lent).is_err() || self.asked.reserve(1).is_err() {
            return Err(NetFault::WantOfMemory);
        }
        self.asked.push_reserved(call);
        let number = self.next_call;
        self.next_call = self.next_call.saturating_add(1);
        if is_failing(self.failing.as_slice(), number) || self.coming.is_empty() {
            self.faults = self.faults.saturating_add(1);
            return Err(NetFault::Failed);
        }
        self.lent = lent;
        Ok(self.coming.remove(0))
    }
}

impl Net for MemNet {
    type Conn = MemLink;

    ghost coming = { λ net. Some net.coming };

    ghost over = { λ net. Some net.over };

    ghost asked = { λ net. Some net.asked };

    ghost faults = { λ net. net.faults };

    ghost lent = { λ net. net.lent };

    ghost link_counts = { λ net. net.link_counts };

    fn listen(&mut self, address: &Text) -> Result<(), NetFault>
        ensures coming { Some self.new.coming ≡ Some self.old.coming }
        ensures over { Some self.new.over ≡ Some self.old.over }
        ensures lent { self.new.lent ≡ self.old.lent }
        ensures counts { self.new.link_counts ≡ self.old.link_counts }
        ensures asked { AsksNet (Some self.old.asked) (Some self.new.asked) (Listen address.now) result }
        ensures cause { NetCause self.old.faults self.new.faults result }

        // What it answers but for want of memory, and all that it leaves.
        ensures answer { IsAnswerOr (Err NetFault.WantOfMemory) (listen_answer self.old) result }
        ensures leaves { self.new ≡ net_after same_net result self.old (Listen address.now) }
    {
        let call = NetCall::Listen(address.try_clone()?);
        push(&mut self.asked, call)?;
        let number = self.next_call;
        self.next_call = self.next_call.saturating_add(1);
        if is_failing(self.failing.as_slice(), number) {
            self.faults = self.faults.saturating_add(1);
            return Err(NetFault::Failed);
        }
        Ok(())
    }

    fn accept(&mut self) -> Result<MemLink, NetFault>
        ensures given { IfOk result (λ conn. TakesFirst (Some self.old.coming) (Some self.new.coming) conn) }
        ensures kept { OnErr result (Some self.new.coming ≡ Some self.old.coming) }
        ensures fresh { IfOk result (λ conn. conn.counts ≡ no_counts) }
        ensures over { Some self.new.over ≡ Some self.old.over }
        ensures lent { OnOk result (self.new.lent ≡ self.old.lent + 1) }
        ensures none_lent { OnErr result (self.new.lent ≡ self.old.lent) }
        ensures counts { self.new.link_counts ≡ self.old.link_counts }
        ensures asked { AsksNet (Some self.old.asked) (Some self.new.asked) Accept result }
        ensures cause { NetCause self.old.faults self.new.faults result }

        // What it answers but for want of memory, and all that it leaves.
        ensures answer { IsAnswerOr (Err NetFault.WantOfMemory) (link_answer self.old) result }
        ensures leaves { self.new ≡ net_after without_first result self.old Accept }
    {
        self.give(NetCall::Accept)
    }

    fn connect(&mut self, address: &Text) -> Result<MemLink, NetFault>
        ensures given { IfOk result (λ conn. TakesFirst (Some self.old.coming) (Some self.new.coming) conn) }
        ensures kept { OnErr result (Some self.new.coming ≡ Some self.old.coming) }
        ensures fresh { IfOk result (λ conn. conn.counts ≡ no_counts) }
        ensures over { Some self.new.over ≡ Some self.old.over }
        ensures lent { OnOk result (self.new.lent ≡ self.old.lent + 1) }
        ensures none_lent { OnErr result (self.new.lent ≡ self.old.lent) }
        ensures counts { self.new.link_counts ≡ self.old.link_counts }
        ensures asked { AsksNet (Some self.old.asked) (Some self.new.asked) (Connect address.now) result }
        ensures cause { NetCause self.old.faults self.new.faults result }

        // What it answers but for want of memory, and all that it leaves.
        ensures answer { IsAnswerOr (Err NetFault.WantOfMemory) (link_answer self.old) result }
        ensures leaves { self.new ≡ net_after without_first result self.old (Connect address.now) }
    {
        let call = NetCall::Connect(address.try_clone()?);
        self.give(call)
    }

    fn back(&mut self, conn: MemLink)
        requires lent { 0 < self.old.lent }
        ensures lent { self.new.lent + 1 ≡ self.old.lent }
        ensures over { Some self.new.over ≡ with_more (Some self.old.over) (conn ∷ []) }
        ensures counts { self.new.link_counts ≡ plus self.old.link_counts conn.counts }
        ensures coming { Some self.new.coming ≡ Some self.old.coming }
        ensures asked { Some self.new.asked ≡ Some self.old.asked }
        ensures faults { self.new.faults ≡ self.old.faults }
    {
        self.lent -= 1;
        self.link_faults = self.link_faults.saturating_add(conn.faults());
        self.link_quiets = self.link_quiets.saturating_add(conn.quiets());
        self.link_ends = self.link_ends.saturating_add(conn.ends());
        self.over.push_reserved(conn);
    }
}
