//! A net that gives shares of itself.
ghost use Rattle.std.specs.Prelude.{◌≡◌, ℕ, ◌+◌, ◌<◌, IfOk, OnOk, OnErr};
ghost use Rattle.tea_io.specs.Links.{no_counts};
ghost use Rattle.tea_io.specs.Nets.{plus, sum_of, AsksNet, NetCause};
ghost use Rattle.tea_io.specs.declared.net.NetCall.TheVariants.{Listen};
ghost use Rattle.net_shares.specs.Shares.{none_of, with_all};

use crate::share::Share;
use tea_base::Text;
use tea_io::{Net, NetFault};

/// A net that gives shares of itself, so that several threads accept beside each other.
pub trait SharedNet: Net {
    /// The shares that it gives. They may move to other threads.
    type Part: Share<Conn = Self::Conn> + Send + Drop;

    /// How many shares were given out and not given back.
    ghost shared: { Self → ℕ };

    /// Listens at an address, as `listen` does. No share is given, and none is let go.
    fn listen_shared(&mut self, address: &Text) -> Result<(), NetFault>
        ensures shared { shared self.new ≡ shared self.old }
        ensures coming { Self.coming self.new ≡ Self.coming self.old }
        ensures over { Self.over self.new ≡ Self.over self.old }
        ensures lent { Self.lent self.new ≡ Self.lent self.old }
        ensures counts { Self.link_counts self.new ≡ Self.link_counts self.old }
        ensures asked { AsksNet (Self.asked self.old) (Self.asked self.new) (Listen address.now) result }
        ensures cause { NetCause (Self.faults self.old) (Self.faults self.new) result };

    /// A share of the net, which listens. It has given no link yet.
    fn share(&mut self) -> Result<Self::Part, NetFault>
        ensures new_over { IfOk result (λ part. Self.Part.over part ≡ none_of (Self.over self.new)) }
        ensures new_faults { IfOk result (λ part. Self.Part.faults part ≡ 0) }
        ensures new_lent { IfOk result (λ part. Self.Part.lent part ≡ 0) }
        ensures new_counts { IfOk result (λ part. Self.Part.link_counts part ≡ no_counts) }
        ensures shared { OnOk result (shared self.new ≡ shared self.old + 1) }
        ensures none_shared { OnErr result (shared self.new ≡ shared self.old) }
        ensures coming { Self.coming self.new ≡ Self.coming self.old }
        ensures over { Self.over self.new ≡ Self.over self.old }
        ensures asked { Self.asked self.new ≡ Self.asked self.old }
        ensures lent { Self.lent self.new ≡ Self.lent self.old }
        ensures counts { Self.link_counts self.new ≡ Self.link_counts self.old }
        ensures cause { NetCause (Self.faults self.old) (Self.faults self.new) result };

    /// Takes back a share that this net gave, once it has all its links back. Takes no memory.
    fn rejoin(&mut self, part: Self::Part)
        requires shared { 0 < shared self.old }
        requires lent { Self.Part.lent part ≡ 0 }
        ensures shared { shared self.new + 1 ≡ shared self.old }
        ensures over { Self.over self.new ≡ with_all (Self.over self.old) (Self.Part.over part) }
        ensures faults { Self.faults self.new ≡ sum_of (Self.faults self.old) (Self.Part.faults part) }
        ensures counts { Self.link_counts self.new ≡ plus (Self.link_counts self.old) (Self.Part.link_counts part) }
        ensures coming { Self.coming self.new ≡ Self.coming self.old }
        ensures asked { Self.asked self.new ≡ Self.asked self.old }
        ensures lent { Self.lent self.new ≡ Self.lent self.old };
}
