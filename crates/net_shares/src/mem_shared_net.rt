//! A net in memory that gives shares.
ghost use Rattle.std.specs.Prelude.{◌≡◌, ◌+◌, ◌<◌, ◌≤◌, [], ◌∷◌, All, Some, Err, IfOk, OnOk, OnErr};
ghost use Rattle.std.specs.Prelude.{vec_len, vec_capacity};
ghost use Rattle.tea_io.specs.Told.{with_more, TakesFirst};
ghost use Rattle.tea_io.specs.Calls.{IsAnswerOr};
ghost use Rattle.tea_io.specs.Links.{no_counts};
ghost use Rattle.tea_io.specs.Nets.{plus, sum_of, AsksNet, NetCause};
ghost use Rattle.tea_io.specs.declared.net.NetCall.TheVariants.{Listen, Accept, Connect};
ghost use Rattle.tea_io.specs.MemNet.{HasNoCounts, listen_answer, link_answer, net_after, same_net, without_first};
ghost use Rattle.net_shares.specs.Shares.{none_of, with_all};
ghost use Rattle.net_shares.specs.MemSharedNets.{over_of, shared_net_of, with_net, net_with_back, share_answer, after_share, after_rejoin};

use crate::calls::is_listed;
use crate::mem_share::MemShare;
use crate::plan::{SharePlan, SharePlans};
use crate::returned::Returned;
use crate::shared_net::SharedNet;
use std::alloc::Global;
use std::marker::Model;
use tea_base::{Numbers, Text, push};
use tea_io::{MemLink, MemLinks, Net, NetCall, NetFault};

/// A net whose links to come, and whose plans of shares, are kept in memory, with the links and the shares that were given back. The calls whose numbers it
/// was given fail, and so does one for a link or a share where none is left. They are counted from 1. A call that answers want of memory changes
/// nothing: it is not counted.
#[derive(Drop)]
pub struct MemSharedNet {
    alloc: Global,
    coming: Vec<MemLink>,
    plans: Vec<SharePlan>,
    returned: Vec<Returned>,
    asked: Vec<NetCall>,
    failing: Numbers,
    next_call: u64,
    faults: u64,
    lent: usize,
    shared: usize,
    link_faults: u64,
    link_quiets: u64,
    link_ends: u64,
    ghost room: { vec_len returned + (lent + shared) ≤ vec_capacity returned },
    ghost fresh: { All HasNoCounts coming.items },
}

impl Model for MemSharedNet {
    ghost use Rattle.net_shares.specs.MemSharedNets.{MemSharedNetState, over_of};

    ghost Value = { MemSharedNetState };

    ghost view = { λ shared. record {
      net = record {
        coming = shared.coming.items;
        over = over_of shared.returned.items;
        asked = shared.asked.items;
        failing = shared.failing;
        next_call = shared.next_call;
        faults = shared.faults;
        lent = shared.lent;
        link_counts = record { faults = shared.link_faults; quiets = shared.link_quiets; ends = shared.link_ends };
      };
      plans = shared.plans.items;
      shared = shared.shared;
    } };
}

impl MemSharedNet {
    /// A net that gives these links, whose counts are 0, and then shares by these plans, one after the other, and whose calls of these numbers fail.
    /// Takes no memory.
    pub fn new(alloc: Global, coming: MemLinks, plans: SharePlans, fail: Numbers) -> MemSharedNet
        requires { All HasNoCounts coming }
        ensures { result ≡ shared_net_of coming plans fail }
    {
        MemSharedNet {
            alloc,
            coming: coming.into_vec(),
            plans: plans.into_vec(),
            returned: Vec::new(alloc),
            asked: Vec::new(alloc),
            failing: fail,
            next_call: 1,
            faults: 0,
            lent: 0,
            shared: 0,
            link_faults: 0,
            link_quiets: 0,
            link_ends: 0,
        }
    }

    /// What was given back, in order.
    pub fn returned(&self) -> &[Returned]
        ensures { over_of result.now ≡ self.now.net.over }
    {
        self.returned.as_slice()
    }

    /// The calls so far that listen, accept or connect, in order.
    pub fn asked(&self) -> &[NetCall]
        ensures { result.now ≡ self.now.net.asked }
    {
        self.asked.as_slice()
    }

    /// How often a call has failed.
    pub fn faults(&self) -> u64
        ensures { result ≡ self.now.net.faults }
    {
        self.faults
    }

    /// The next link, for this call.
    fn give(&mut self, call: NetCall) -> Result<MemLink, NetFault>
        ensures given { IfOk result (λ conn. TakesFirst (Some self.old.net.coming) (Some self.new.net.coming) conn) }
        ensures fresh { IfOk result HasNoCounts }
        ensures cause { NetCause self.old.net.faults self.new.net.faults result }
        ensures answer { IsAnswerOr (Err NetFault.WantOfMemory) (link_answer self.old.net) result }
        ensures leaves { self.new ≡ with_net (net_after without_first result self.old.net call) self.old }
    {
        let Some(lent) = self.lent.checked_add(1) else {
            return Err(NetFault::WantOfMemory);
        };
        let Some(out) = self.shared.checked_add(lent) else {
            return Err(NetFault::WantOfMemory);
        };
        // Room for the link when it comes back, and for the note: then nothing is refused.
        if self.returned.reserve(out).is_err() || self.asked.reserve(1).is_err() {
            return Err(NetFault::WantOfMemory);
        }
        self.asked.push_reserved(call);
        let number = self.next_call;
        self.next_call = self.next_call.saturating_add(1);
        if is_listed(self.failing.as_slice(), number) || self.coming.is_empty() {
            self.faults = self.faults.saturating_add(1);
            return Err(NetFault::Failed);
        }
        self.lent = lent;
        Ok(self.coming.remove(0))
    }
}

impl Net for MemSharedNet {
    type Conn = MemLink;

    ghost coming = { λ shared. Some shared.net.coming };

    ghost over = { λ shared. Some shared.net.over };

    ghost asked = { λ shared. Some shared.net.asked };

    ghost faults = { λ shared. shared.net.faults };

    ghost lent = { λ shared. shared.net.lent };

    ghost link_counts = { λ shared. shared.net.link_counts };

    fn listen(&mut self, address: &Text) -> Result<(), NetFault>
        ensures coming { Some self.new.net.coming ≡ Some self.old.net.coming }
        ensures over { Some self.new.net.over ≡ Some self.old.net.over }
        ensures lent { self.new.net.lent ≡ self.old.net.lent }
        ensures counts { self.new.net.link_counts ≡ self.old.net.link_counts }
        ensures asked { AsksNet (Some self.old.net.asked) (Some self.new.net.asked) (Listen address.now) result }
        ensures cause { NetCause self.old.net.faults self.new.net.faults result }

        // What it answers but for want of memory, and all that it leaves.
        ensures answer { IsAnswerOr (Err NetFault.WantOfMemory) (listen_answer self.old.net) result }
        ensures leaves { self.new ≡ with_net (net_after same_net result self.old.net (Listen address.now)) self.old }
    {
        let call = NetCall::Listen(address.try_clone()?);
        push(&mut self.asked, call)?;
        let number = self.next_call;
        self.next_call = self.next_call.saturating_add(1);
        if is_listed(self.failing.as_slice(), number) {
            self.faults = self.faults.saturating_add(1);
            return Err(NetFault::Failed);
        }
        Ok(())
    }

    fn accept(&mut self) -> Result<MemLink, NetFault>
        ensures given { IfOk result (λ conn. TakesFirst (Some self.old.net.coming) (Some self.new.net.coming) conn) }
        ensures kept { OnErr result (Some self.new.net.coming ≡ Some self.old.net.coming) }
        ensures fresh { IfOk result (λ conn. conn.counts ≡ no_counts) }
        ensures over { Some self.new.net.over ≡ Some self.old.net.over }
        ensures lent { OnOk result (self.new.net.lent ≡ self.old.net.lent + 1) }
        ensures none_lent { OnErr result (self.new.net.lent ≡ self.old.net.lent) }
        ensures counts { self.new.net.link_counts ≡ self.old.net.link_counts }
        ensures asked { AsksNet (Some self.old.net.asked) (Some self.new.net.asked) Accept result }
        ensures cause { NetCause self.old.net.faults self.new.net.faults result }

        // What it answers but for want of memory, and all that it leaves.
        ensures answer { IsAnswerOr (Err NetFault.WantOfMemory) (link_answer self.old.net) result }
        ensures leaves { self.new ≡ with_net (net_after without_first result self.old.net Accept) self.old }
    {
        self.give(NetCall::Accept)
    }

    fn connect(&mut self, address: &Text) -> Result<MemLink, NetFault>
        ensures given { IfOk result (λ conn. TakesFirst (Some self.old.net.coming) (Some self.new.net.coming) conn) }
        ensures kept { OnErr result (Some self.new.net.coming ≡ Some self.old.net.coming) }
        ensures fresh { IfOk result (λ conn. conn.counts ≡ no_counts) }
        ensures over { Some self.new.net.over ≡ Some self.old.net.over }
        ensures lent { OnOk result (self.new.net.lent ≡ self.old.net.lent + 1) }
        ensures none_lent { OnErr result (self.new.net.lent ≡ self.old.net.lent) }
        ensures counts { self.new.net.link_counts ≡ self.old.net.link_counts }
        ensures asked { AsksNet (Some self.old.net.asked) (Some self.new.net.asked) (Connect address.now) result }
        ensures cause { NetCause self.old.net.faults self.new.net.faults result }

        // What it answers but for want of memory, and all that it leaves.
        ensures answer { IsAnswerOr (Err NetFault.WantOfMemory) (link_answer self.old.net) result }
        ensures leaves { self.new ≡ with_net (net_after without_first result self.old.net (Connect address.now)) self.old }
    {
        let call = NetCall::Connect(address.try_clone()?);
        self.give(call)
    }

    #[tactic(auto, using(crate::proofs::Returning::over_with_more))]
    fn back(&mut self, conn: MemLink)
        requires lent { 0 < self.old.net.lent }
        ensures lent { self.new.net.lent + 1 ≡ self.old.net.lent }
        ensures over { Some self.new.net.over ≡ with_more (Some self.old.net.over) (conn ∷ []) }
        ensures counts { self.new.net.link_counts ≡ plus self.old.net.link_counts conn.counts }
        ensures coming { Some self.new.net.coming ≡ Some self.old.net.coming }
        ensures asked { Some self.new.net.asked ≡ Some self.old.net.asked }
        ensures faults { self.new.net.faults ≡ self.old.net.faults }

        // All that it leaves.
        ensures leaves { self.new ≡ with_net (net_with_back conn self.old.net) self.old }
    {
        self.lent -= 1;
        self.link_faults = self.link_faults.saturating_add(conn.faults());
        self.link_quiets = self.link_quiets.saturating_add(conn.quiets());
        self.link_ends = self.link_ends.saturating_add(conn.ends());
        self.returned.push_reserved(Returned::Link(conn));
    }
}

impl SharedNet for MemSharedNet {
    type Part = MemShare;

    ghost shared = { λ shared. shared.shared };

    fn listen_shared(&mut self, address: &Text) -> Result<(), NetFault>
        ensures shared { self.new.shared ≡ self.old.shared }
        ensures coming { Some self.new.net.coming ≡ Some self.old.net.coming }
        ensures over { Some self.new.net.over ≡ Some self.old.net.over }
        ensures lent { self.new.net.lent ≡ self.old.net.lent }
        ensures counts { self.new.net.link_counts ≡ self.old.net.link_counts }
        ensures asked { AsksNet (Some self.old.net.asked) (Some self.new.net.asked) (Listen address.now) result }
        ensures cause { NetCause self.old.net.faults self.new.net.faults result }

        // What it answers but for want of memory, and all that it leaves.
        ensures answer { IsAnswerOr (Err NetFault.WantOfMemory) (listen_answer self.old.net) result }
        ensures leaves { self.new ≡ with_net (net_after same_net result self.old.net (Listen address.now)) self.old }
    {
        self.listen(address)
    }

    fn share(&mut self) -> Result<MemShare, NetFault>
        ensures new_over { IfOk result (λ part. Some part.over ≡ none_of (Some self.new.net.over)) }
        ensures new_faults { IfOk result (λ part. part.faults ≡ 0) }
        ensures new_lent { IfOk result (λ part. part.lent ≡ 0) }
        ensures new_counts { IfOk result (λ part. part.link_counts ≡ no_counts) }
        ensures shared { OnOk result (self.new.shared ≡ self.old.shared + 1) }
        ensures none_shared { OnErr result (self.new.shared ≡ self.old.shared) }
        ensures coming { Some self.new.net.coming ≡ Some self.old.net.coming }
        ensures over { Some self.new.net.over ≡ Some self.old.net.over }
        ensures asked { Some self.new.net.asked ≡ Some self.old.net.asked }
        ensures lent { self.new.net.lent ≡ self.old.net.lent }
        ensures counts { self.new.net.link_counts ≡ self.old.net.link_counts }
        ensures cause { NetCause self.old.net.faults self.new.net.faults result }

        // What it answers but for want of memory, and all that it leaves.
        ensures answer { IsAnswerOr (Err NetFault.WantOfMemory) (share_answer self.old) result }
        ensures leaves { self.new ≡ after_share result self.old }
    {
        let Some(shared) = self.shared.checked_add(1) else {
            return Err(NetFault::WantOfMemory);
        };
        let Some(out) = self.lent.checked_add(shared) else {
            return Err(NetFault::WantOfMemory);
        };
        // Room for the share when it comes back: then nothing is refused.
        if self.returned.reserve(out).is_err() {
            return Err(NetFault::WantOfMemory);
        }
        let number = self.next_call;
        self.next_call = self.next_call.saturating_add(1);
        if is_listed(self.failing.as_slice(), number) || self.plans.is_empty() {
            self.faults = self.faults.saturating_add(1);
            return Err(NetFault::Failed);
        }
        self.shared = shared;
        let plan = self.plans.remove(0);
        Ok(MemShare::new(self.alloc, plan))
    }

    #[tactic(auto, using(crate::proofs::Returning::over_with_part))]
    fn rejoin(&mut self, part: MemShare)
        requires shared { 0 < self.old.shared }
        requires lent { part.lent ≡ 0 }
        ensures shared { self.new.shared + 1 ≡ self.old.shared }
        ensures over { Some self.new.net.over ≡ with_all (Some self.old.net.over) (Some part.over) }
        ensures faults { self.new.net.faults ≡ sum_of self.old.net.faults part.faults }
        ensures counts { self.new.net.link_counts ≡ plus self.old.net.link_counts part.link_counts }
        ensures coming { Some self.new.net.coming ≡ Some self.old.net.coming }
        ensures asked { Some self.new.net.asked ≡ Some self.old.net.asked }
        ensures lent { self.new.net.lent ≡ self.old.net.lent }

        // All that it leaves.
        ensures leaves { self.new ≡ after_rejoin part self.old }
    {
        let (faults, quiets, ends) = part.link_sums();
        self.shared -= 1;
        self.faults = self.faults.saturating_add(part.faults());
        self.link_faults = self.link_faults.saturating_add(faults);
        self.link_quiets = self.link_quiets.saturating_add(quiets);
        self.link_ends = self.link_ends.saturating_add(ends);
        self.returned.push_reserved(Returned::Share(part));
    }
}
