//! A net that is not there.
ghost use Rattle.std.specs.Prelude.{◌≡◌, ◌≤◌, true, None, Err};
ghost use Rattle.tea_io.specs.Told.{count_up};
ghost use Rattle.tea_io.specs.Links.{only_faults};
ghost use Rattle.tea_io.specs.Nets.{NetCause};

use crate::link::{Heard, Link, LinkFault};
use crate::net::{Net, NetFault};
use tea_base::Text;

/// A net whose every call fails, and is counted. It tells nothing. It gives no link, so `lent` stays 0.
#[derive(Debug, Drop)]
pub struct NoNet {
    faults: u64,
    lent: u64,
    link_faults: u64,
}

/// A link whose every call fails, and is counted. No net gives one.
#[derive(Debug, Drop)]
pub struct NoLink {
    faults: u64,
}

impl NoNet {
    /// No call has failed yet.
    pub fn new() -> NoNet
        ensures { result.faults ≡ 0 }
    {
        NoNet {
            faults: 0,
            lent: 0,
            link_faults: 0,
        }
    }

    /// How often a call has failed.
    pub fn faults(&self) -> u64
        ensures { result ≡ self.now.faults }
    {
        self.faults
    }

    fn fail(&mut self) -> NetFault
        ensures counted { self.new.faults ≡ count_up self.old.faults }
        ensures lent { self.new.lent ≡ self.old.lent }
        ensures links { self.new.link_faults ≡ self.old.link_faults }
        ensures later { self.old.faults ≤ self.new.faults }
        ensures fault { result ≡ NetFault.Failed }
    {
        self.faults = self.faults.saturating_add(1);
        NetFault::Failed
    }
}

impl Net for NoNet {
    type Conn = NoLink;

    ghost coming = { λ net. None };

    ghost over = { λ net. None };

    ghost asked = { λ net. None };

    ghost faults = { λ net. net.faults };

    ghost lent = { λ net. net.lent };

    ghost link_counts = { λ net. only_faults net.link_faults };

    fn listen(&mut self, _address: &Text) -> Result<(), NetFault>
        ensures lent { self.new.lent ≡ self.old.lent }
        ensures counts { only_faults self.new.link_faults ≡ only_faults self.old.link_faults }
        ensures cause { NetCause self.old.faults self.new.faults result }
        ensures answer { result ≡ Err NetFault.Failed }
        ensures counted { self.new.faults ≡ count_up self.old.faults }
    {
        Err(self.fail())
    }

    fn accept(&mut self) -> Result<NoLink, NetFault>
        ensures lent { self.new.lent ≡ self.old.lent }
        ensures counts { only_faults self.new.link_faults ≡ only_faults self.old.link_faults }
        ensures cause { NetCause self.old.faults self.new.faults result }
        ensures answer { result ≡ Err NetFault.Failed }
        ensures counted { self.new.faults ≡ count_up self.old.faults }
    {
        Err(self.fail())
    }

    fn connect(&mut self, _address: &Text) -> Result<NoLink, NetFault>
        ensures lent { self.new.lent ≡ self.old.lent }
        ensures counts { only_faults self.new.link_faults ≡ only_faults self.old.link_faults }
        ensures cause { NetCause self.old.faults self.new.faults result }
        ensures answer { result ≡ Err NetFault.Failed }
        ensures counted { self.new.faults ≡ count_up self.old.faults }
    {
        Err(self.fail())
    }

    fn back(&mut self, conn: NoLink) {
        self.lent -= 1;
        self.link_faults = self.link_faults.saturating_add(conn.faults);
    }
}

impl Link for NoLink {
    ghost coming = { λ link. None };

    ghost heard = { λ link. None };

    ghost sent = { λ link. None };

    ghost counts = { λ link. only_faults link.faults };

    ghost closed = { λ link. true };

    fn recv(&mut self) -> Heard
        ensures later { self.old.faults ≤ self.new.faults }
        ensures answer { result ≡ Heard.Failed }
        ensures counted { self.new.faults ≡ count_up self.old.faults }
    {
        self.faults = self.faults.saturating_add(1);
        Heard::Failed
    }

    fn send(&mut self, _frame: &[u8]) -> Result<(), LinkFault>
        ensures later { self.old.faults ≤ self.new.faults }
        ensures answer { result ≡ Err LinkFault.Failed }
        ensures counted { self.new.faults ≡ count_up self.old.faults }
    {
        self.faults = self.faults.saturating_add(1);
        Err(LinkFault::Failed)
    }

    fn close(&mut self) {}
}
