//! A TCP stream whose calls end in time.
ghost use Rattle.std.specs.Io.{ReadsAtMost, WritesAtMost};

use crate::receives::{Receives, left_of};
use crate::watch::{Watch, wait_to_read, wait_to_write};
use std::alloc::Global;
use std::io::{self, ErrorKind, Read, Write};
use std::net::{Shutdown, TcpStream};
use std::time::{Clock, Duration, Instant};

/// How long a peer may take no byte of what it is sent, in milliseconds.
const SEND_TIME: u64 = 5000;
/// How long a send waits before it tries again, in milliseconds. The system says that a stream may be written only once a good part
/// of what waits in it was taken. A slow peer may need longer for that than it may take no byte.
const SEND_STEP: u64 = 50;
/// How long an accepted link's peer may be silent before it is sent a ping, in milliseconds.
const PING_TIME: u64 = 15_000;
/// At how many quiet receives in a row it is sent one sooner. Callers give a link up after some thousands, and where others send, or where a
/// long row of frames was sent, these come in seconds.
const PING_QUIETS: u32 = 1000;
/// How long a call goes on with a handshake, in milliseconds.
const HANDSHAKE_TIME: u64 = 50;
/// How long a link that is given back sends its Close, and how long it reads on, in milliseconds.
const CLOSE_TIME: u64 = 1000;
/// How long a Close is sent where that time is over, in milliseconds.
const LATE_CLOSE_TIME: u64 = 50;
/// How long a link that is given back waits for bytes before it looks at the time, in milliseconds.
const CLOSE_STEP: u64 = 50;
/// How many bytes one read of a head, or of what comes after the end, asks for.
const CHUNK: usize = 4096;
/// The longest head of a handshake that is waited for.
const LONGEST_HEAD: usize = 65536;

/// A TCP stream. Its reads wait for nothing, and its writes fail where the peer takes no byte for too long. The head of a handshake is
/// given only once it is whole, so that a peer may send it in pieces of any size.
#[derive(Drop)]
pub struct Wire<R> {
    rt: R,
    stream: TcpStream,
    watch: Watch,
    receives: Receives,
    /// Whether nothing is left to read, until the watch says that more has come.
    is_drained: bool,
    /// Whether a message came after which nothing was sent yet.
    owes_news: bool,
    /// Since when the peer is silent, or was last sent a ping, where it has sent a message before.
    silent: Option<Instant>,
    /// How many receives were quiet since then.
    quiets: u32,
    /// How many milliseconds a peer may take no byte of what is written.
    patience: u64,
    /// The head so far, or what is not yet given of it.
    head: Vec<u8>,
    has_head: bool,
    is_stuck: bool,
}

impl<R: Clock + Copy> Wire<R> {
    /// A stream whose handshake is to come. Takes no memory.
    pub fn new(alloc: Global, rt: R, stream: TcpStream, watch: Watch) -> Wire<R> {
        let receives = Receives::new(watch.is_of_net());
        Wire {
            rt,
            stream,
            watch,
            receives,
            is_drained: false,
            owes_news: false,
            silent: None,
            quiets: 0,
            patience: SEND_TIME,
            head: Vec::new(alloc),
            has_head: false,
            is_stuck: false,
        }
    }

    /// Has the system send each write at once, and wait at no read and no write.
    pub fn set_options(&self) -> io::Result<()> {
        self.stream.set_nodelay(true)?;
        self.stream.set_nonblocking(true)
    }

    /// Has each write end in the time of a close that began then, or soon where that time is over.
    pub fn hurry(&mut self, since: Option<Instant>) {
        self.patience = if left_of(since, self.now(), CLOSE_TIME).is_zero() {
            LATE_CLOSE_TIME
        } else {
            CLOSE_TIME
        };
    }

    /// The time, where the clock tells it.
    fn now(&self) -> Option<Instant> {
        Instant::now(&self.rt).ok()
    }

    /// A receive begins.
    pub fn begin(&mut self) {
        let now = self.now();
        self.receives.begin(now);
    }

    /// A frame is sent. The other links of the net wake where a message came since the last one.
    pub fn note_frame(&mut self) {
        self.receives.note_frame();
        if self.owes_news {
            self.owes_news = false;
            self.watch.tell();
        }
    }

    /// A message came. Where it is news, the next frame that is sent wakes the other links.
    pub fn note_message(&mut self, is_news: bool) {
        self.owes_news = self.owes_news || is_news;
        self.note_life();
    }

    /// The peer is there.
    fn note_life(&mut self) {
        self.silent = self.now();
        self.quiets = 0;
    }

    /// A ping or a pong came. Says whether that is a sign of life: at a link that was accepted, from a peer that has sent a message.
    pub fn is_sign_of_life(&mut self) -> bool {
        self.receives.forget_part();
        if self.silent.is_none() || !self.watch.is_of_net() {
            return false;
        }
        self.note_life();
        true
    }

    /// Whether the time of the receive is over.
    pub fn is_late(&self) -> bool {
        self.receives.left(self.now()).is_zero()
    }

    /// A receive was quiet. Says whether the peer of a link that was accepted is due a ping. The next one is due as much later.
    pub fn note_quiet(&mut self) -> bool {
        if self.silent.is_none() || !self.watch.is_of_net() {
            return false;
        }
        self.quiets = self.quiets.saturating_add(1);
        let is_due = self.quiets >= PING_QUIETS
            || left_of(self.silent, self.now(), PING_TIME).is_zero();
        if is_due {
            self.note_life();
        }
        is_due
    }

    /// Waits for bytes in the time of a receive, and says whether some may have come. News ends the wait, but not in the midst of a
    /// message, and no sooner than the gap after the last time.
    pub fn wait(&mut self) -> bool {
        for _ in 0..u64::MAX {
            let left = self.receives.left(self.now());
            let ready = self.watch.wait(left);
            if ready.news {
                self.receives.note_news();
            }
            if ready.bytes {
                self.is_drained = false;
                return true;
            }
            if !ready.news || left.is_zero() {
                break;
            }
        }
        let now = self.now();
        self.receives.end_quiet(now);
        false
    }

    /// Says that nothing more is sent.
    pub fn stop_sending(&self) {
        let _ = self.stream.shutdown(Shutdown::Write);
    }

    /// Reads what still comes, up to the peer's end, or for a second since that time. It reads once at the least. Bytes that are
    /// unread where a stream is closed would have the system reset it, and the peer lose what it was sent.
    pub fn read_on(&mut self, since: Option<Instant>) {
        if self.set_options().is_err() {
            return;
        }
        let mut chunk = [0u8; CHUNK];
        for _ in 0..u64::MAX {
            match self.stream.read(&mut chunk) {
                Ok(0) => return,
                Ok(_) => {}
                Err(error) => match error.kind() {
                    ErrorKind::WouldBlock => {
                        wait_to_read(&self.stream, Duration::from_millis(CLOSE_STEP));
                    }
                    ErrorKind::Interrupted => {}
                    _ => return,
                },
            }
            if left_of(since, self.now(), CLOSE_TIME).is_zero() {
                return;
            }
        }
    }

    /// Reads what has come.
    fn read_stream(&mut self, buf: &mut [u8]) -> io::Result<usize>
        ensures { ReadsAtMost result buf.new }
    {
        if self.is_drained {
            return Err(io::Error::from(ErrorKind::WouldBlock));
        }
        match self.stream.read(buf) {
            Ok(count) => {
                self.receives.note_part();
                Ok(count)
            }
            Err(error) => match error.kind() {
                ErrorKind::WouldBlock => {
                    self.is_drained = true;
                    Err(error)
                }
                ErrorKind::Interrupted => Err(io::Error::from(ErrorKind::WouldBlock)),
                _ => Err(error),
            },
        }
    }

    /// Reads what comes within a time. News does not end it.
    fn read_until(&mut self, chunk: &mut [u8], since: Option<Instant>) -> io::Result<usize>
        ensures { ReadsAtMost result chunk.new }
    {
        for _ in 0..u64::MAX {
            match self.read_stream(chunk) {
                Err(error) if is_for_later(&error) => {}
                done => return done,
            }
            let left = left_of(since, self.now(), HANDSHAKE_TIME);
            if left.is_zero() {
                break;
            }
            wait_to_read(&self.stream, left);
            self.is_drained = false;
        }
        Err(io::Error::from(ErrorKind::WouldBlock))
    }

    /// Reads up to the end of the head, or of what comes in the time of a call.
    fn read_head(&mut self) -> io::Result<()> {
        let since = self.now();
        let mut chunk = [0u8; CHUNK];
        for _ in 0..u64::MAX {
            let count = self.read_until(&mut chunk, since)?;
            if self.head.extend_from_slice(&chunk[..count]).is_err() {
                return Err(io::Error::from(ErrorKind::OutOfMemory));
            }
            if count == 0 || self.head.len() > LONGEST_HEAD || has_end(self.head.as_slice()) {
                self.has_head = true;
                return Ok(());
            }
        }
        Err(io::Error::from(ErrorKind::WouldBlock))
    }

    /// Writes to a stream that took no byte just now, as soon as it takes one.
    fn write_late(&mut self, buf: &[u8]) -> io::Result<usize>
        ensures { WritesAtMost result buf.now }
    {
        let since = self.now();
        for _ in 0..u64::MAX {
            wait_to_write(&self.stream, Duration::from_millis(SEND_STEP));
            match self.stream.write(buf) {
                Err(error) if is_for_later(&error) => {}
                done => return done,
            }
            if left_of(since, self.now(), self.patience).is_zero() {
                break;
            }
        }
        self.is_stuck = true;
        Err(io::Error::from(ErrorKind::TimedOut))
    }
}

/// Whether a call is to be tried again.
fn is_for_later(error: &io::Error) -> bool {
    matches!(error.kind(), ErrorKind::WouldBlock | ErrorKind::Interrupted)
}

/// Whether a head ends within these bytes: by an empty line (RFC 9112, 2.1).
fn has_end(bytes: &[u8]) -> bool {
    bytes.windows(4).any(|part| part == b"\r\n\r\n".as_slice())
}

impl<R: Clock + Copy> Read for Wire<R> {
    fn read(&mut self, buf: &mut [u8]) -> io::Result<usize> {
        if !self.has_head {
            self.read_head()?;
        }
        if !self.head.is_empty() {
            let count = self.head.len().min(buf.len());
            buf[..count].copy_from_slice(&self.head[..count]);
            self.head.drain(..count);
            return Ok(count);
        }
        self.read_stream(buf)
    }
}

impl<R: Clock + Copy> Write for Wire<R> {
    fn write(&mut self, buf: &[u8]) -> io::Result<usize> {
        if self.is_stuck {
            return Err(io::Error::from(ErrorKind::TimedOut));
        }
        match self.stream.write(buf) {
            Err(error) if is_for_later(&error) => self.write_late(buf),
            done => done,
        }
    }

    fn flush(&mut self) -> io::Result<()> {
        Ok(())
    }
}
