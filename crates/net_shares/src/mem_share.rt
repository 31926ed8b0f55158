//! A share of a net in memory.
ghost use Rattle.std.specs.Prelude.{◌≡◌, ◌+◌, ◌<◌, ◌≤◌, [], ◌∷◌, All, Some, Err, IfErr, OnOk, vec_len, vec_capacity};
ghost use Rattle.tea_io.specs.Told.{with_more};
ghost use Rattle.tea_io.specs.Calls.{IsAnswerOr};
ghost use Rattle.tea_io.specs.MemNet.{HasNoCounts};
ghost use Rattle.tea_io.specs.Nets.{plus, NetCause};
ghost use Rattle.net_shares.specs.Shares.{GivesFirst, GivesNew, Lends};
ghost use Rattle.net_shares.specs.MemShares.{share_of, accept_answer, after_accept, share_with_back};

use crate::calls::is_listed;
use crate::plan::SharePlan;
use crate::share::Share;
use std::alloc::Global;
use std::marker::Model;
use tea_base::Numbers;
use tea_io::{MemLink, NetFault};

/// A share whose links to come are kept in memory, with those that were given back. An accept fails, or nobody comes at it, where its number is one of
/// the plan's. They are counted from 1. Nobody comes where no link is left. A call that answers want of memory changes nothing: it is not counted.
#[derive(Drop)]
pub struct MemShare {
    coming: Vec<MemLink>,
    over: Vec<MemLink>,
    failing: Numbers,
    quiet: Numbers,
    next_call: u64,
    faults: u64,
    lent: usize,
    link_faults: u64,
    link_quiets: u64,
    link_ends: u64,
    ghost room: { vec_len over + lent ≤ vec_capacity over },
    ghost fresh: { All HasNoCounts coming.items },
}

impl Model for MemShare {
    ghost use Rattle.net_shares.specs.MemShares.{MemShareState};

    ghost Value = { MemShareState };

    ghost view = { λ share. record {
      coming = share.coming.items;
      over = share.over.items;
      failing = share.failing;
      quiet = share.quiet;
      next_call = share.next_call;
      faults = share.faults;
      lent = share.lent;
      link_counts = record { faults = share.link_faults; quiets = share.link_quiets; ends = share.link_ends };
    } };
}

impl MemShare {
    /// A share by this plan, which has given no link yet. Takes no memory.
    pub fn new(alloc: Global, plan: SharePlan) -> MemShare
        ensures { result ≡ share_of plan }
    {
        let SharePlan { links, fail, quiet } = plan;
        MemShare {
            coming: links.into_vec(),
            over: Vec::new(alloc),
            failing: fail,
            quiet,
            next_call: 1,
            faults: 0,
            lent: 0,
            link_faults: 0,
            link_quiets: 0,
            link_ends: 0,
        }
    }

    /// The links that were given back.
    pub fn over(&self) -> &[MemLink]
        ensures { result.now ≡ self.now.over }
    {
        self.over.as_slice()
    }

    /// How often an accept has failed.
    pub fn faults(&self) -> u64
        ensures { result ≡ self.now.faults }
    {
        self.faults
    }

    /// How often the links that were given back failed, were quiet, and told the end.
    pub(crate) fn link_sums(&self) -> (u64, u64, u64)
        ensures faults { result.0 ≡ self.now.link_counts.faults }
        ensures quiets { result.1 ≡ self.now.link_counts.quiets }
        ensures ends { result.2 ≡ self.now.link_counts.ends }
    {
        (self.link_faults, self.link_quiets, self.link_ends)
    }
}

impl Share for MemShare {
    type Conn = MemLink;

    ghost coming = { λ share. Some share.coming };

    ghost over = { λ share. Some share.over };

    ghost faults = { λ share. share.faults };

    ghost lent = { λ share. share.lent };

    ghost link_counts = { λ share. share.link_counts };

    fn accept(&mut self) -> Result<Option<MemLink>, NetFault>
        ensures given { GivesFirst (Some self.old.coming) (Some self.new.coming) result }
        ensures fresh { GivesNew (λ link. link.counts) result }
        ensures lent { Lends self.old.lent self.new.lent result }
        ensures over { Some self.new.over ≡ Some self.old.over }
        ensures counts { self.new.link_counts ≡ self.old.link_counts }
        ensures cause { NetCause self.old.faults self.new.faults result }
        ensures steady { OnOk result (self.new.faults ≡ self.old.faults) }
        ensures wants { IfErr result (λ fault. fault ≡ NetFault.WantOfMemory → self.new.faults ≡ self.old.faults) }

        // What it answers but for want of memory, and all that it leaves.
        ensures answer { IsAnswerOr (Err NetFault.WantOfMemory) (accept_answer self.old) result }
        ensures leaves { self.new ≡ after_accept result self.old }
    {
        let Some(lent) = self.lent.checked_add(1) else {
            return Err(NetFault::WantOfMemory);
        };
        // Room for the link when it comes back: then nothing is refused.
        if self.over.reserve(lent).is_err() {
            return Err(NetFault::WantOfMemory);
        }
        let number = self.next_call;
        self.next_call = self.next_call.saturating_add(1);
        if is_listed(self.failing.as_slice(), number) {
            self.faults = self.faults.saturating_add(1);
            return Err(NetFault::Failed);
        }
        if is_listed(self.quiet.as_slice(), number) || self.coming.is_empty() {
            return Ok(None);
        }
        self.lent = lent;
        Ok(Some(self.coming.remove(0)))
    }

    fn back(&mut self, conn: MemLink)
        requires lent { 0 < self.old.lent }
        ensures lent { self.new.lent + 1 ≡ self.old.lent }
        ensures over { Some self.new.over ≡ with_more (Some self.old.over) (conn ∷ []) }
        ensures counts { self.new.link_counts ≡ plus self.old.link_counts conn.counts }
        ensures coming { Some self.new.coming ≡ Some self.old.coming }
        ensures faults { self.new.faults ≡ self.old.faults }

        // All that it leaves.
        ensures leaves { self.new ≡ share_with_back conn self.old }
    {
        self.lent -= 1;
        self.link_faults = self.link_faults.saturating_add(conn.faults());
        self.link_quiets = self.link_quiets.saturating_add(conn.quiets());
        self.link_ends = self.link_ends.saturating_add(conn.ends());
        self.over.push_reserved(conn);
    }
}
