//! A net of links over WebSockets.
ghost use Rattle.std.specs.Prelude.{◌≡◌, ◌+◌, None, IfOk, OnOk, OnErr};
ghost use Rattle.tea_io.specs.Links.{no_counts};
ghost use Rattle.tea_io.specs.Nets.{NetCause};
ghost use Rattle.ws_link.specs.Counting.{counts_of};

use crate::address::socket_address;
use crate::keys::Keys;
use crate::link::WsLink;
use crate::share::{WsShare, listener_in_time};
use crate::stage::{Stage, accepting, limits};
use crate::tally::Tally;
use crate::watch::{News, Watch};
use crate::wire::Wire;
use net_shares::SharedNet;
use std::alloc::Global;
use std::io::ErrorKind;
use std::net::{Net as Sockets, TcpListener, TcpStream};
use std::random::RandomSource;
use std::time::{Clock, Duration, Instant};
use tea_base::Text;
use tea_io::{Net, NetFault};
use tungstenite::handshake::client;
use tungstenite::{Error, RandomKeys};

/// How long a connect waits for the peer, in milliseconds.
const CONNECT_TIME: u64 = 5000;

/// A net over TCP whose links are WebSockets (RFC 6455). An address is a port behind `localhost:`, which is 127.0.0.1, or
/// behind the four numbers of IPv4. Nothing is encrypted: it is meant for the loopback.
#[derive(Drop)]
pub struct WsNet<R> {
    alloc: Global,
    rt: R,
    listening: Option<(TcpListener, News)>,
    /// Why the last `listen` or `connect` failed.
    refusal: Option<ErrorKind>,
    /// Whether the handshake of the link that was given back last was not done.
    is_unshaken: bool,
    tally: Tally,
    /// How many shares are out.
    shared: usize,
    /// Since when links are given back in a row.
    closing: Option<Instant>,
}

impl<R> WsNet<R> {
    /// A net that listens nowhere yet. Takes no memory.
    pub fn new(alloc: Global, rt: R) -> WsNet<R>
        ensures faults { result.tally.faults ≡ 0 }
        ensures lent { result.tally.lent ≡ 0 }
        ensures counts { counts_of result.tally.sums ≡ no_counts }
        ensures shared { result.shared ≡ 0 }
    {
        WsNet {
            alloc,
            rt,
            listening: None,
            refusal: None,
            is_unshaken: false,
            tally: Tally::new(),
            shared: 0,
            closing: None,
        }
    }

    /// How often a call has failed.
    pub fn faults(&self) -> u64
        ensures { result ≡ self.now.tally.faults }
    {
        self.tally.faults
    }

    /// Why the last `listen` or `connect` failed, where it did.
    pub fn refusal(&self) -> Option<ErrorKind>
        ensures { result ≡ self.now.refusal }
    {
        self.refusal
    }

    /// Whether the handshake of the link that was given back last was not done.
    pub fn is_unshaken(&self) -> bool {
        self.is_unshaken
    }
}

impl<R: Clock + RandomSource + Copy> WsNet<R> {
    /// Lends a link of this stage. Where there is none, the failure is counted; being out of memory is none.
    fn lend(&mut self, made: Result<Stage<R>, NetFault>) -> Result<WsLink<R>, NetFault>
        ensures lent { OnOk result (self.new.tally.lent ≡ self.old.tally.lent + 1) }
        ensures none_lent { OnErr result (self.new.tally.lent ≡ self.old.tally.lent) }
        ensures fresh { IfOk result (λ link. counts_of link.counters ≡ no_counts) }
        ensures sums { self.new.tally.sums ≡ self.old.tally.sums }
        ensures cause { NetCause self.old.tally.faults self.new.tally.faults result }
        ensures shared { self.new.shared ≡ self.old.shared }
    {
        let stage = self.tally.lend(made)?;
        self.closing = None;
        Ok(WsLink::new(self.alloc, self.rt, stage))
    }
}

/// A listener at an address, taken at once again after an earlier run.
fn listener_at<R>(rt: &R, address: &Text) -> Result<TcpListener, ErrorKind>
where
    R: Sockets<Listener = TcpListener, Stream = TcpStream>,
{
    let Some(at) = socket_address(address.as_str()) else {
        return Err(ErrorKind::InvalidInput);
    };
    TcpListener::bind(rt, at).map_err(|error| error.kind())
}

/// A listener, and the news of its links.
fn listening_at<R>(rt: &R, address: &Text) -> Result<(TcpListener, News), ErrorKind>
where
    R: Sockets<Listener = TcpListener, Stream = TcpStream>,
{
    let listener = listener_at(rt, address)?;
    match News::new() {
        Some(news) => Ok((listener, news)),
        None => Err(ErrorKind::Other),
    }
}

/// The next connection of a listener. One that its client has given up before it was taken is no fault of the listener, and neither is it one that
/// nobody came for a while.
fn next_stream(listener: &TcpListener) -> Option<TcpStream> {
    for _ in 0..u64::MAX {
        match listener.accept() {
            Ok((stream, _)) => return Some(stream),
            Err(error) => match error.kind() {
                ErrorKind::ConnectionAborted | ErrorKind::Interrupted | ErrorKind::WouldBlock => {}
                _ => return None,
            },
        }
    }
    None
}

/// The next link of a listener, whose handshake is to come.
fn accepted<R>(
    alloc: Global,
    rt: R,
    listening: &Option<(TcpListener, News)>,
) -> Result<Stage<R>, NetFault>
where
    R: Sockets<Listener = TcpListener, Stream = TcpStream> + Clock + RandomSource + Copy,
{
    let Some((listener, news)) = listening else {
        return Err(NetFault::Failed);
    };
    let Some(stream) = next_stream(listener) else {
        return Err(NetFault::Failed);
    };
    accepting(alloc, rt, stream, news)
}

/// A handle of the listener for a share, and the same news.
fn parted(listening: &Option<(TcpListener, News)>) -> Option<(TcpListener, News)> {
    let (listener, news) = listening.as_ref()?;
    let listener = listener_in_time(listener).ok()?;
    let news = news.share()?;
    Some((listener, news))
}

/// A connection to an address.
fn stream_to<R>(rt: &R, address: &Text) -> Result<TcpStream, ErrorKind>
where
    R: Sockets<Listener = TcpListener, Stream = TcpStream>,
{
    let Some(at) = socket_address(address.as_str()) else {
        return Err(ErrorKind::InvalidInput);
    };
    TcpStream::connect_timeout(rt, &at, Duration::from_millis(CONNECT_TIME)).map_err(
        |error| error.kind(),
    )
}

/// A link over a connection to an address, whose handshake is to come.
fn connected<R>(
    alloc: Global,
    rt: R,
    address: &Text,
    stream: TcpStream,
) -> Result<Stage<R>, NetFault>
where
    R: Sockets<Listener = TcpListener, Stream = TcpStream> + Clock + RandomSource + Copy,
{
    let Ok(uri) = format!(in alloc; "ws://{}/", address.as_str()) else {
        return Err(NetFault::WantOfMemory);
    };
    let mut nonce = [0u8; 16];
    if rt.fill_bytes(&mut nonce).is_err() {
        return Err(NetFault::Failed);
    }
    // The URI of an address is valid, so that only memory can be missing.
    let Ok(request) = client::request_of(alloc, uri.as_str()) else {
        return Err(NetFault::WantOfMemory);
    };
    let keys = Keys::Client(RandomKeys::new(rt));
    let watch = Watch::new(alloc, &rt, &stream, None)?;
    let wire = Wire::new(alloc, rt, stream, watch);
    match client::start(alloc, nonce, keys, request, wire, Some(limits())) {
        Ok(handshake) => Ok(Stage::Connecting(handshake)),
        Err(Error::OutOfMemory) => Err(NetFault::WantOfMemory),
        Err(_) => Err(NetFault::Failed),
    }
}

impl<R> Net for WsNet<R>
where
    R: Sockets<Listener = TcpListener, Stream = TcpStream> + Clock + RandomSource + Copy + Send,
{
    type Conn = WsLink<R>;

    ghost coming = { λ net. None };

    ghost over = { λ net. None };

    ghost asked = { λ net. None };

    ghost faults = { λ net. net.tally.faults };

    ghost lent = { λ net. net.tally.lent };

    ghost link_counts = { λ net. counts_of net.tally.sums };

    fn listen(&mut self, address: &Text) -> Result<(), NetFault> {
        self.listen_at(address)
    }

    fn accept(&mut self) -> Result<WsLink<R>, NetFault> {
        let made = accepted(self.alloc, self.rt, &self.listening);
        self.lend(made)
    }

    fn connect(&mut self, address: &Text) -> Result<WsLink<R>, NetFault> {
        match stream_to(&self.rt, address) {
            Ok(stream) => {
                self.refusal = None;
                let made = connected(self.alloc, self.rt, address, stream);
                self.lend(made)
            }
            Err(kind) => {
                self.refusal = Some(kind);
                Err(self.tally.fail())
            }
        }
    }

    fn back(&mut self, mut conn: WsLink<R>) {
        self.tally.take_back(conn.counters());
        self.is_unshaken = conn.is_unshaken();
        if self.closing.is_none() {
            self.closing = Instant::now(&self.rt).ok();
        }
        conn.close_since(self.closing);
    }
}

impl<R> WsNet<R>
where
    R: Sockets<Listener = TcpListener, Stream = TcpStream>,
{
    /// Listens at an address, and at no other from then on.
    fn listen_at(&mut self, address: &Text) -> Result<(), NetFault>
        ensures shared { self.new.shared ≡ self.old.shared }
        ensures lent { self.new.tally.lent ≡ self.old.tally.lent }
        ensures sums { self.new.tally.sums ≡ self.old.tally.sums }
        ensures cause { NetCause self.old.tally.faults self.new.tally.faults result }
    {
        self.listening = None;
        match listening_at(&self.rt, address) {
            Ok(listening) => {
                self.listening = Some(listening);
                self.refusal = None;
                Ok(())
            }
            Err(kind) => {
                self.refusal = Some(kind);
                Err(self.tally.fail())
            }
        }
    }
}

impl<R> SharedNet for WsNet<R>
where
    R: Sockets<Listener = TcpListener, Stream = TcpStream> + Clock + RandomSource + Copy + Send,
{
    type Part = WsShare<R>;

    ghost shared = { λ net. net.shared };

    fn listen_shared(&mut self, address: &Text) -> Result<(), NetFault> {
        self.listen_at(address)
    }

    fn share(&mut self) -> Result<WsShare<R>, NetFault> {
        let Some(shared) = self.shared.checked_add(1) else {
            return Err(self.tally.fail());
        };
        match parted(&self.listening) {
            Some((listener, news)) => {
                self.shared = shared;
                Ok(WsShare::new(self.alloc, self.rt, listener, news))
            }
            None => Err(self.tally.fail()),
        }
    }

    fn rejoin(&mut self, part: WsShare<R>) {
        self.shared -= 1;
        self.tally.add(part.tally());
    }
}
