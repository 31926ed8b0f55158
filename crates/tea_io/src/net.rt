//! A net, which gives links.
ghost use Rattle.std.specs.Prelude.{◌≡◌, ℕ, ◌+◌, ◌<◌, [], ◌∷◌, List, Option, IfOk, OnOk, OnErr};
ghost use Rattle.tea_io.specs.declared.net.NetCall.{NetCall};
ghost use Rattle.tea_io.specs.declared.net.NetCall.TheVariants.{Listen, Accept, Connect};
ghost use Rattle.tea_io.specs.declared.net.NetFault.TheVariants.{WantOfMemory};
ghost use Rattle.tea_io.specs.Told.{with_more, TakesFirst};
ghost use Rattle.tea_io.specs.Links.{Counts, no_counts};
ghost use Rattle.tea_io.specs.Nets.{plus, AsksNet, NetCause};

use crate::link::Link;
use tea_base::Text;

/// A call of a net that was made, with its address.
#[derive(Debug, Drop)]
pub enum NetCall {
    /// A `listen` at this address.
    Listen(Text),
    /// An `accept`.
    Accept,
    /// A `connect` to this address.
    Connect(Text),
}

/// Why a call of a net was not answered.
#[derive(Clone, Copy, Debug, PartialEq, Eq)]
pub enum NetFault {
    /// The call failed. This is counted.
    Failed,
    /// An allocation was refused.
    WantOfMemory,
}

impl From<tea_base::WantOfMemory> for NetFault {
    ghost from_gives = { λ _ fault. fault ≡ WantOfMemory };

    fn from(_: tea_base::WantOfMemory) -> Self {
        NetFault::WantOfMemory
    }
}

/// Gives links to peers, and takes back those that are no longer used.
pub trait Net {
    /// The links that it gives. They may move to other threads.
    type Conn: Link + Send + Drop;

    /// The links that it will give, in order, where they are told.
    ghost coming: { Self → Option (List Self.Conn) };

    /// The links that were given back, in order, where they are told.
    ghost over: { Self → Option (List Self.Conn) };

    /// The calls so far that listen, accept or connect, where they are told.
    ghost asked: { Self → Option (List NetCall) };

    /// How often a call has failed.
    ghost faults: { Self → ℕ };

    /// How many links were given out and not given back.
    ghost lent: { Self → ℕ };

    /// The sums of the counts of the links that were given back.
    ghost link_counts: { Self → Counts };

    /// Listens at an address.
    fn listen(&mut self, address: &Text) -> Result<(), NetFault>
        ensures coming { coming self.new ≡ coming self.old }
        ensures over { over self.new ≡ over self.old }
        ensures lent { lent self.new ≡ lent self.old }
        ensures counts { link_counts self.new ≡ link_counts self.old }
        ensures asked { AsksNet (asked self.old) (asked self.new) (Listen address.now) result }
        ensures cause { NetCause (faults self.old) (faults self.new) result };

    /// The next link of those that connect to the address at which it listens.
    fn accept(&mut self) -> Result<Self::Conn, NetFault>
        ensures given { IfOk result (λ conn. TakesFirst (coming self.old) (coming self.new) conn) }
        ensures kept { OnErr result (coming self.new ≡ coming self.old) }
        ensures fresh { IfOk result (λ conn. Self.Conn.counts conn ≡ no_counts) }
        ensures over { over self.new ≡ over self.old }
        ensures lent { OnOk result (lent self.new ≡ lent self.old + 1) }
        ensures none_lent { OnErr result (lent self.new ≡ lent self.old) }
        ensures counts { link_counts self.new ≡ link_counts self.old }
        ensures asked { AsksNet (asked self.old) (asked self.new) Accept result }
        ensures cause { NetCause (faults self.old) (faults self.new) result };

    /// A link to an address.
    fn connect(&mut self, address: &Text) -> Result<Self::Conn, NetFault>
        ensures given { IfOk result (λ conn. TakesFirst (coming self.old) (coming self.new) conn) }
        ensures kept { OnErr result (coming self.new ≡ coming self.old) }
        ensures fresh { IfOk result (λ conn. Self.Conn.counts conn ≡ no_counts) }
        ensures over { over self.new ≡ over self.old }
        ensures lent { OnOk result (lent self.new ≡ lent self.old + 1) }
        ensures none_lent { OnErr result (lent self.new ≡ lent self.old) }
        ensures counts { link_counts self.new ≡ link_counts self.old }
        ensures asked { AsksNet (asked self.old) (asked self.new) (Connect address.now) result }
        ensures cause { NetCause (faults self.old) (faults self.new) result };

    /// Takes back a link that this net gave and that is no longer used. Takes no memory.
    fn back(&mut self, conn: Self::Conn)
        requires lent { 0 < lent self.old }
        ensures lent { lent self.new + 1 ≡ lent self.old }
        ensures over { over self.new ≡ with_more (over self.old) (conn ∷ []) }
        ensures counts { link_counts self.new ≡ plus (link_counts self.old) (Self.Conn.counts conn) }
        ensures coming { coming self.new ≡ coming self.old }
        ensures asked { asked self.new ≡ asked self.old }
        ensures faults { faults self.new ≡ faults self.old };
}
