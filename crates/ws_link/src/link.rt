//! A link over a WebSocket.
ghost use Rattle.std.specs.Prelude.{◌≡◌, false, None};
ghost use Rattle.tea_io.specs.Links.{no_counts};
ghost use Rattle.ws_link.specs.Counting.{counts_of};

use crate::counters::Counters;
use crate::stage::{Last, Stage};
use std::alloc::Global;
use std::mem;
use std::random::RandomSource;
use std::time::{Clock, Instant};
use tea_io::{Heard, Link, LinkFault};

/// A link over a WebSocket (RFC 6455) on TCP: each frame is one binary message of at most 8,388,608 bytes. The handshake is
/// made at the first calls.
///
/// A receive that has no message is quiet: after 50 milliseconds at a link that was accepted, after 10 at one that was made, and after
/// 50 while the handshake is not finished. One that took a part of a message goes on, up to a second. It is quiet sooner where another
/// link of its net has news: one that was accepted, received a message other than ALIVE, and has then begun to send. News ends no two receives within 4
/// milliseconds. A receive after 256 frames that were sent waits for nothing.
///
/// Pings are answered at any receive. At a link that was accepted, each ping and each pong of a peer that has sent a message is told as
/// the frame ALIVE, and a peer that was silent for 15 seconds, or for 1,000 receives, is sent a ping.
///
/// A Close and an orderly end of TCP are the end. All else is a failure: a bad handshake, a text, a message that is too long, a breach
/// of the protocol, a reset. A receive that is out of memory may have lost a message. After each of these the link answers so at each
/// receive, and no frame is sent. A send fails where for 5 seconds not a byte was taken, or where the peer did not finish the handshake
/// in about that time.
///
/// A close sends Close, reads on for at most a second until the peer ends TCP, and closes the socket. Then a receive says that the link
/// has ended, and a send fails.
#[derive(Drop)]
pub struct WsLink<R: Clock + RandomSource + Copy> {
    alloc: Global,
    rt: R,
    stage: Stage<R>,
    counters: Counters,
    is_closed: bool,
}

impl<R: Clock + RandomSource + Copy> WsLink<R> {
    /// A link at this stage. Takes no memory.
    pub(crate) fn new(alloc: Global, rt: R, stage: Stage<R>) -> WsLink<R>
        ensures counts { counts_of result.counters ≡ no_counts }
        ensures closed { result.is_closed ≡ false }
    {
        WsLink {
            alloc,
            rt,
            stage,
            counters: Counters::new(),
            is_closed: false,
        }
    }

    /// How often a call failed, a receive was quiet, and a receive told the end.
    pub(crate) fn counters(&self) -> Counters
        ensures { result ≡ self.now.counters }
    {
        self.counters
    }

    /// Whether its handshake was not done.
    pub(crate) fn is_unshaken(&self) -> bool {
        self.stage.is_unshaken()
    }

    /// Closes in good manners, if it is not closed: sends Close, stops sending, reads on to the peer's end, for a second since that time
    /// at the most, and lets go of the connection.
    pub(crate) fn close_since(&mut self, since: Option<Instant>)
        ensures { self.new.counters ≡ self.old.counters }
    {
        let stage = mem::replace(&mut self.stage, Stage::Over(None, Last::Failed));
        self.stage = stage.close(since);
    }
}

impl<R: Clock + RandomSource + Copy> Link for WsLink<R> {
    ghost coming = { λ link. None };

    ghost heard = { λ link. None };

    ghost sent = { λ link. None };

    ghost counts = { λ link. counts_of link.counters };

    ghost closed = { λ link. link.is_closed };

    fn recv(&mut self) -> Heard {
        let stage = mem::replace(&mut self.stage, Stage::Over(None, Last::Failed));
        let (stage, heard) = stage.recv(self.alloc);
        self.stage = stage;
        self.counters.note_heard(&heard);
        heard
    }

    fn send(&mut self, frame: &[u8]) -> Result<(), LinkFault> {
        let stage = mem::replace(&mut self.stage, Stage::Over(None, Last::Failed));
        let (stage, sent) = stage.send(self.alloc, frame);
        self.stage = stage;
        self.counters.note_sent(sent);
        sent
    }

    fn close(&mut self) {
        let now = Instant::now(&self.rt).ok();
        self.close_since(now);
        self.is_closed = true;
    }
}
