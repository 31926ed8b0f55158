//! What a net, or a share of one, counts.
ghost use Rattle.std.specs.Prelude.{◌≡◌, ◌+◌, ◌<◌, ◌≤◌, OnOk, OnErr, IfErr, IfOk, Ok};
ghost use Rattle.tea_io.specs.Told.{count_up};
ghost use Rattle.tea_io.specs.Links.{no_counts};
ghost use Rattle.tea_io.specs.Nets.{plus, sum_of, NetCause};
ghost use Rattle.ws_link.specs.Counting.{counts_of};

use crate::counters::Counters;
use tea_io::NetFault;

/// How often a call has failed, how many links are out, and the sums of the counts of those that were given back.
#[derive(Clone, Copy)]
pub struct Tally {
    pub faults: u64,
    pub lent: usize,
    pub sums: Counters,
}

impl Tally {
    /// Nothing is counted yet.
    pub fn new() -> Tally
        ensures faults { result.faults ≡ 0 }
        ensures lent { result.lent ≡ 0 }
        ensures counts { counts_of result.sums ≡ no_counts }
    {
        Tally {
            faults: 0,
            lent: 0,
            sums: Counters::new(),
        }
    }

    /// Counts a call that failed.
    pub fn fail(&mut self) -> NetFault
        ensures counted { self.new.faults ≡ count_up self.old.faults }
        ensures lent { self.new.lent ≡ self.old.lent }
        ensures sums { self.new.sums ≡ self.old.sums }
        ensures later { self.old.faults ≤ self.new.faults }
        ensures fault { result ≡ NetFault.Failed }
    {
        self.faults = self.faults.saturating_add(1);
        NetFault::Failed
    }

    /// Counts a link that is lent. Where there is none, the failure is counted; being out of memory is none.
    pub fn lend<T: Drop>(&mut self, made: Result<T, NetFault>) -> Result<T, NetFault>
        ensures made { IfOk result (λ link. made ≡ Ok link) }
        ensures lent { OnOk result (self.new.lent ≡ self.old.lent + 1) }
        ensures none_lent { OnErr result (self.new.lent ≡ self.old.lent) }
        ensures sums { self.new.sums ≡ self.old.sums }
        ensures cause { NetCause self.old.faults self.new.faults result }
        ensures steady { OnOk result (self.new.faults ≡ self.old.faults) }
        ensures wants { IfErr result (λ fault. fault ≡ NetFault.WantOfMemory → self.new.faults ≡ self.old.faults) }
    {
        let Some(lent) = self.lent.checked_add(1) else {
            return Err(self.fail());
        };
        match made {
            Ok(link) => {
                self.lent = lent;
                Ok(link)
            }
            Err(NetFault::Failed) => Err(self.fail()),
            Err(NetFault::WantOfMemory) => Err(NetFault::WantOfMemory),
        }
    }

    /// Counts a link that was given back.
    pub fn take_back(&mut self, counters: Counters)
        requires { 0 < self.old.lent }
        ensures lent { self.new.lent + 1 ≡ self.old.lent }
        ensures counts { counts_of self.new.sums ≡ plus (counts_of self.old.sums) (counts_of counters) }
        ensures faults { self.new.faults ≡ self.old.faults }
    {
        self.lent -= 1;
        self.sums.add(counters);
    }

    /// Adds what a share has counted.
    pub fn add(&mut self, share: Tally)
        ensures faults { self.new.faults ≡ sum_of self.old.faults share.faults }
        ensures counts { counts_of self.new.sums ≡ plus (counts_of self.old.sums) (counts_of share.sums) }
        ensures lent { self.new.lent ≡ self.old.lent }
    {
        self.faults = self.faults.saturating_add(share.faults);
        self.sums.add(share.sums);
    }
}
