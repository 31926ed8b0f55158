//! A net that says on the error stream whether it listens, and whose links are followed.
ghost use Rattle.std.specs.Prelude.{◌≡◌, None};

use crate::served::{Served, ServiceEnd};
use crate::told_link::ToldLink;
use crate::told_share::ToldShare;
use hints::NetReason;
use net_shares::SharedNet;
use run_notes::{Guest, WorldWatch};
use std::io::{Eprint, ErrorKind};
use std::sync::atomic::{AtomicU32, Ordering};
use std::time::Clock;
use tea_base::Text;
use tea_io::{Net, NetFault};
use ws_link::WsNet;

/// Tells why it does not listen.
pub trait Refused {
    /// Why the last `listen` or `connect` failed, where it did.
    fn refusal(&self) -> Option<ErrorKind>;

    /// Whether the handshake of the link that was given back last was not done.
    fn is_unshaken(&self) -> bool;
}

impl<R> Refused for WsNet<R> {
    fn refusal(&self) -> Option<ErrorKind> {
        WsNet::refusal(self)
    }

    fn is_unshaken(&self) -> bool {
        WsNet::is_unshaken(self)
    }
}

/// How many links a net and its shares have accepted. Threads may count beside each other.
#[derive(Drop)]
pub struct GuestCount {
    accepted: AtomicU32,
}

impl GuestCount {
    /// None was accepted.
    pub fn new() -> GuestCount {
        GuestCount {
            accepted: AtomicU32::new(0),
        }
    }

    /// Counts one more, and gives its number, from 0.
    pub fn next(&self) -> u32 {
        self.accepted.fetch_add(1, Ordering::SeqCst)
    }
}

/// A net whose `listen` is followed by one line on the error stream: where it listens and which session it serves, or why it does not
/// listen. A line that cannot be written is no fault. Unless it is to be quiet, it says what its links bring too.
#[derive(Drop)]
pub struct ToldNet<'a, R: Copy, N> {
    rt: R,
    net: N,
    served: &'a Served,
    /// Whether nothing is to be said of its links.
    is_quiet: bool,
    /// How many links it and its shares have accepted.
    guests: &'a GuestCount,
    /// What follows the world of a view, while the view has no link.
    watch: Option<WorldWatch>,
}

impl<'a, R: Copy, N: Net + Refused> ToldNet<'a, R, N> {
    /// A net that serves this session, and whose links are counted by this.
    pub fn new(
        rt: R,
        net: N,
        served: &'a Served,
        guests: &'a GuestCount,
        is_quiet: bool,
    ) -> ToldNet<'a, R, N>
        ensures { result.net ≡ net }
    {
        ToldNet {
            rt,
            net,
            served,
            is_quiet,
            guests,
            watch: None,
        }
    }

    /// Why the net or a link failed, where one did.
    pub fn reason(&self) -> NetReason {
        match self.net.refusal() {
            Some(kind) => NetReason::System(kind),
            None if self.net.is_unshaken() => NetReason::Handshake,
            None => NetReason::Link,
        }
    }
}

/// What follows the link of a view: what followed the link before it, or else a new one.
fn watch_of(watch: Option<WorldWatch>, served: &Served) -> Option<WorldWatch> {
    match watch {
        Some(watch) => Some(watch),
        None => served.watch(),
    }
}

/// Says where a reflector listens, and which session it serves.
fn tell_place<R: Eprint + AllocGlobal>(rt: &R, place: &str, served: &Served) {
    let id = match served.id() {
        Some(id) => hex::encode(rt.alloc(), id.0.as_slice()).ok(),
        None => None,
    };
    let _ = match id {
        Some(id) => eprintln!(rt; "listening at {place}, session {id}"),
        None => eprintln!(rt; "listening at {place}"),
    };
}

/// Says what ends a service.
fn tell_end<R: Eprint>(rt: &R, end: &ServiceEnd) {
    let _ = match end {
        ServiceEnd::File(file) => {
            let file = file.as_str();
            eprintln!(rt; "it ends once {file} is there and its links have ended")
        }
        ServiceEnd::Kill { is_kept: true } => eprintln!(rt;
            "only a kill ends it, and the same line goes on from the journal: --until STOP names a file that ends it"
        ),
        ServiceEnd::Kill { is_kept: false } => eprintln!(rt;
            "only a kill ends it, and then no session is written: --until STOP names a file that ends it"
        ),
        ServiceEnd::Unknown => Ok(()),
    };
}

/// Says why it does not listen there.
fn tell_refusal<R: Eprint>(rt: &R, place: &str, refusal: Option<ErrorKind>) {
    let reason = reason_of(refusal);
    let _ = eprintln!(rt; "cannot listen at {place}: {reason}");
}

/// Why an address is refused, in plain words.
fn reason_of(refusal: Option<ErrorKind>) -> &'static str {
    match refusal {
        Some(ErrorKind::AddrInUse) => "the port is in use",
        Some(ErrorKind::AddrNotAvailable) => "this machine does not have that address",
        Some(ErrorKind::PermissionDenied) => "the system does not permit that port",
        _ => "the system refused it",
    }
}

/// Says whether a net listens at this address, or why it does not.
fn tell_listened<R: Eprint + AllocGlobal>(
    rt: &R,
    address: &Text,
    served: &Served,
    listens: bool,
    refusal: Option<ErrorKind>,
) {
    if listens {
        tell_place(rt, address.as_str(), served);
    } else {
        tell_refusal(rt, address.as_str(), refusal);
    }
}

impl<R: Eprint + Clock + AllocGlobal + Copy + Send, N: Net + Refused> Net for ToldNet<'_, R, N> {
    type Conn = ToldLink<R, N::Conn>;

    ghost coming = { λ told. None };

    ghost over = { λ told. None };

    ghost asked = { λ told. N.asked told.net };

    ghost faults = { λ told. N.faults told.net };

    ghost lent = { λ told. N.lent told.net };

    ghost link_counts = { λ told. N.link_counts told.net };

    fn listen(&mut self, address: &Text) -> Result<(), NetFault> {
        let listened = self.net.listen(address);
        let (listens, refusal) = (listened.is_ok(), self.net.refusal());
        tell_listened(&self.rt, address, self.served, listens, refusal);
        listened
    }

    fn accept(&mut self) -> Result<ToldLink<R, N::Conn>, NetFault> {
        let link = self.net.accept()?;
        let guest = if self.is_quiet {
            None
        } else {
            Some(Guest::new(self.rt.alloc(), self.guests.next()))
        };
        Ok(ToldLink::new(self.rt, link, guest, None))
    }

    fn connect(&mut self, address: &Text) -> Result<ToldLink<R, N::Conn>, NetFault> {
        let link = self.net.connect(address)?;
        let watch = if self.is_quiet {
            None
        } else {
            watch_of(self.watch.take(), self.served)
        };
        Ok(ToldLink::new(self.rt, link, None, watch))
    }

    fn back(&mut self, conn: ToldLink<R, N::Conn>) {
        let (link, watch) = conn.into_parts();
        if watch.is_some() {
            self.watch = watch;
        }
        self.net.back(link);
    }
}

impl<'a, R: Eprint + Clock + AllocGlobal + Copy + Send, N: SharedNet + Refused> SharedNet
    for ToldNet<'a, R, N> {
    type Part = ToldShare<'a, R, N::Part>;

    ghost shared = { λ told. N.shared told.net };

    fn listen_shared(&mut self, address: &Text) -> Result<(), NetFault> {
        let listened = self.net.listen_shared(address);
        let (listens, refusal) = (listened.is_ok(), self.net.refusal());
        tell_listened(&self.rt, address, self.served, listens, refusal);
        if listens && !self.is_quiet {
            tell_end(&self.rt, self.served.end());
        }
        listened
    }

    fn share(&mut self) -> Result<ToldShare<'a, R, N::Part>, NetFault> {
        let share = self.net.share()?;
        Ok(ToldShare::new(self.rt, share, self.guests, self.is_quiet))
    }

    fn rejoin(&mut self, part: ToldShare<'a, R, N::Part>) {
        self.net.rejoin(part.into_share());
    }
}
