//! A share of a net of links over WebSockets.
ghost use Rattle.std.specs.Prelude.{◌≡◌, None};
ghost use Rattle.tea_io.specs.Links.{no_counts};
ghost use Rattle.ws_link.specs.Counting.{counts_of};

use crate::link::WsLink;
use crate::stage::{Stage, accepting};
use crate::tally::Tally;
use crate::watch::News;
use net_shares::Share;
use std::alloc::Global;
use std::io::{self, ErrorKind};
use std::net::{Net as Sockets, TcpListener, TcpStream};
use std::os::fd::OwnedFd;
use std::random::RandomSource;
use std::thread::sleep;
use std::time::{Clock, Duration, Instant};
use tea_io::NetFault;

/// How long an accept of a share waits, in milliseconds: for a connection, or before one that failed is tried again.
const ACCEPT_TIME: u64 = 1000;

/// A share of a net: a handle of the net's listener, which the system gives each connection once, and of its news, by which all links of the net wake
/// each other.
#[derive(Drop)]
pub struct WsShare<R> {
    alloc: Global,
    rt: R,
    listener: TcpListener,
    news: News,
    tally: Tally,
}

impl<R> WsShare<R> {
    /// A share that listens by these. It has given no link. Takes no memory.
    pub(crate) fn new(alloc: Global, rt: R, listener: TcpListener, news: News) -> WsShare<R>
        ensures faults { result.tally.faults ≡ 0 }
        ensures lent { result.tally.lent ≡ 0 }
        ensures counts { counts_of result.tally.sums ≡ no_counts }
    {
        WsShare {
            alloc,
            rt,
            listener,
            news,
            tally: Tally::new(),
        }
    }

    /// What it has counted.
    pub(crate) fn tally(&self) -> Tally
        ensures { result ≡ self.now.tally }
    {
        self.tally
    }
}

/// Another handle of a listener, by which each accept waits for a second at the most. That is so of the listener's own accepts from then on: the
/// system keeps the time with the socket (SO_RCVTIMEO of socket(7)).
pub(crate) fn listener_in_time(listener: &TcpListener) -> io::Result<TcpListener> {
    let socket = TcpStream::from(OwnedFd::from(listener.try_clone()?));
    socket.set_read_timeout(Some(Duration::from_millis(ACCEPT_TIME)))?;
    Ok(TcpListener::from(OwnedFd::from(socket)))
}

/// Whether an accept that failed so fails each time: what it asks is no descriptor, no socket, or does not listen. What else accept(2) answers may pass,
/// such as that the descriptors are used up.
fn lasts(error: &io::Error) -> bool {
    match error.raw_os_error() {
        Some(code) => code == libc::EBADF || code == libc::ENOTSOCK || code == libc::EINVAL,
        None => false,
    }
}

/// Waits as long as an accept to which nobody comes.
fn pause<R: Clock>(rt: &R) {
    sleep(rt, Duration::from_millis(ACCEPT_TIME));
}

/// The next connection of such a listener, or none where none came in time, or the system had none to give. One that its client has given up before it
/// was taken is no fault of the listener.
fn stream_in_time<R: Clock>(rt: &R, listener: &TcpListener) -> Result<Option<TcpStream>, NetFault> {
    match listener.accept() {
        Ok((stream, _)) => Ok(Some(stream)),
        Err(error) if lasts(&error) => Err(NetFault::Failed),
        Err(error) => {
            match error.kind() {
                ErrorKind::WouldBlock | ErrorKind::ConnectionAborted | ErrorKind::Interrupted => {}
                _ => pause(rt),
            }
            Ok(None)
        }
    }
}

/// The link of such a connection, whose handshake is to come. A connection for which the system or the memory has no room is let go.
fn stage_in_time<R: Sockets + Clock + RandomSource + Copy>(
    alloc: Global,
    rt: R,
    listener: &TcpListener,
    news: &News,
) -> Result<Option<Stage<R>>, NetFault> {
    let Some(stream) = stream_in_time(&rt, listener)? else {
        return Ok(None);
    };
    match accepting(alloc, rt, stream, news) {
        Ok(stage) => Ok(Some(stage)),
        Err(_) => {
            pause(&rt);
            Ok(None)
        }
    }
}

impl<R: Sockets + Clock + RandomSource + Copy + Send> Share for WsShare<R> {
    type Conn = WsLink<R>;

    ghost coming = { λ share. None };

    ghost over = { λ share. None };

    ghost faults = { λ share. share.tally.faults };

    ghost lent = { λ share. share.tally.lent };

    ghost link_counts = { λ share. counts_of share.tally.sums };

    fn accept(&mut self) -> Result<Option<WsLink<R>>, NetFault> {
        match stage_in_time(self.alloc, self.rt, &self.listener, &self.news) {
            Ok(Some(stage)) => {
                let stage = self.tally.lend(Ok(stage))?;
                Ok(Some(WsLink::new(self.alloc, self.rt, stage)))
            }
            Ok(None) => Ok(None),
            Err(_) => Err(self.tally.fail()),
        }
    }

    fn back(&mut self, mut conn: WsLink<R>) {
        self.tally.take_back(conn.counters());
        let now = Instant::now(&self.rt).ok();
        conn.close_since(now);
    }
}
