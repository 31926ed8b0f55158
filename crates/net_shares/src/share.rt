//! A share of a net, which gives links to one thread.
ghost use Rattle.std.specs.Prelude.{◌≡◌, ℕ, ◌+◌, ◌<◌, [], ◌∷◌, List, Option, IfErr, OnOk};
ghost use Rattle.tea_io.specs.Told.{with_more};
ghost use Rattle.tea_io.specs.Links.{Counts};
ghost use Rattle.tea_io.specs.Nets.{plus, NetCause};
ghost use Rattle.tea_io.specs.declared.net.NetFault.TheVariants.{WantOfMemory};
ghost use Rattle.net_shares.specs.Shares.{GivesFirst, GivesNew, Lends};

use tea_io::{Link, NetFault};

/// A share of a net that listens. It gives links to one thread, and takes back those that are no longer used. A net of the system gives each link that
/// comes by one share.
pub trait Share {
    /// The links that it gives. They may move to other threads.
    type Conn: Link + Send + Drop;

    /// The links that it will give, in order, where they are told.
    ghost coming: { Self → Option (List Self.Conn) };

    /// The links that were given back, in order, where they are told.
    ghost over: { Self → Option (List Self.Conn) };

    /// How often a call has failed.
    ghost faults: { Self → ℕ };

    /// How many links were given out and not given back.
    ghost lent: { Self → ℕ };

    /// The sums of the counts of the links that were given back.
    ghost link_counts: { Self → Counts };

    /// The next link, or none where none came for about a second.
    fn accept(&mut self) -> Result<Option<Self::Conn>, NetFault>
        ensures given { GivesFirst (coming self.old) (coming self.new) result }
        ensures fresh { GivesNew Self.Conn.counts result }
        ensures lent { Lends (lent self.old) (lent self.new) result }
        ensures over { over self.new ≡ over self.old }
        ensures counts { link_counts self.new ≡ link_counts self.old }
        ensures cause { NetCause (faults self.old) (faults self.new) result }
        ensures steady { OnOk result (faults self.new ≡ faults self.old) }
        ensures wants { IfErr result (λ fault. fault ≡ WantOfMemory → faults self.new ≡ faults self.old) };

    /// Takes back a link that this share gave and that is no longer used. Takes no memory.
    fn back(&mut self, conn: Self::Conn)
        requires lent { 0 < lent self.old }
        ensures lent { lent self.new + 1 ≡ lent self.old }
        ensures over { over self.new ≡ with_more (over self.old) (conn ∷ []) }
        ensures counts { link_counts self.new ≡ plus (link_counts self.old) (Self.Conn.counts conn) }
        ensures coming { coming self.new ≡ coming self.old }
        ensures faults { faults self.new ≡ faults self.old };
}
