//! What ends a link's wait: bytes of its peer, and news of the other links of its net.

use libc::net as c;
use libc::types::pollfd;
use mio::unix::SourceFd;
use mio::{Events, Interest, Poll, Token};
use std::alloc::Global;
use std::io;
use std::net::{Net as Sockets, TcpStream};
use std::os::fd::{AsRawFd, RawFd};
use std::time::Duration;
use tea_io::NetFault;

/// The events of a link's own stream.
const BYTES: Token = Token(0);
/// The events of the news of its net.
const NEWS: Token = Token(1);

/// The news of a net, which its links share: a counter of the system (eventfd(2)) that is only ever raised, and never read. A raise is
/// an event for each wait that watches the counter's edges, and stays one until that wait tells it. Raises before that are one event.
pub struct News {
    fd: RawFd,
}

impl News {
    /// News of a net, where the system has a descriptor left.
    pub fn new() -> Option<News> {
        let fd = c::eventfd(0, c::EFD_CLOEXEC | c::EFD_NONBLOCK);
        if fd < 0 {
            return None;
        }
        Some(News { fd })
    }

    /// The same news, for another owner.
    pub fn share(&self) -> Option<News> {
        let fd = os::duplicate(self.fd);
        if fd < 0 {
            return None;
        }
        Some(News { fd })
    }

    /// Ends the wait of each link of the net: the one that goes on, or the next one.
    pub fn tell(&self) {
        let _ = libc::write(self.fd, &1u64.to_ne_bytes());
    }
}

impl Drop for News {
    fn drop(self) {
        let News { fd } = self;
        libc::close(fd);
    }
}

/// What a wait tells.
#[derive(Clone, Copy)]
pub struct Ready {
    /// Bytes came, or the end of the stream, or its failure.
    pub bytes: bool,
    /// Another link of the net has news.
    pub news: bool,
}

/// What one link waits by: a poll of its own (epoll(7)).
#[derive(Drop)]
pub struct Watch {
    poll: Poll,
    events: Events<Global>,
    news: Option<News>,
}

impl Watch {
    /// A watch of a stream, and of the news of its net where it is of one.
    pub fn new<R: Sockets>(
        alloc: Global,
        rt: &R,
        stream: &TcpStream,
        news: Option<News>,
    ) -> Result<Watch, NetFault> {
        let Ok(events) = Events::with_capacity(alloc, 2) else {
            return Err(NetFault::WantOfMemory);
        };
        match watching(rt, stream, &news) {
            Ok(poll) => Ok(Watch { poll, events, news }),
            Err(_) => Err(NetFault::Failed),
        }
    }

    /// Waits for at most so long, and tells each event once. Where the system cannot wait, that counts as bytes: the read that follows
    /// fails then too, or finds nothing.
    pub fn wait(&mut self, time: Duration) -> Ready {
        let mut ready = Ready {
            bytes: self.poll.poll(&mut self.events, Some(time)).is_err(),
            news: false,
        };
        for event in self.events.iter() {
            if event.token() == NEWS {
                ready.news = true;
            } else {
                ready.bytes = true;
            }
        }
        ready
    }

    /// Whether the link is one of several of a net, which is so where it was accepted.
    pub fn is_of_net(&self) -> bool {
        self.news.is_some()
    }

    /// Ends the waits of all links of the net.
    pub fn tell(&self) {
        if let Some(news) = &self.news {
            news.tell();
        }
    }
}

/// A poll of a stream and of news.
fn watching<R: Sockets>(rt: &R, stream: &TcpStream, news: &Option<News>) -> io::Result<Poll> {
    let poll = Poll::new(rt)?;
    let fd = stream.as_raw_fd();
    poll.registry()
        .register(&mut SourceFd(&fd), BYTES, Interest::READABLE)?;
    if let Some(news) = news {
        poll.registry()
            .register(&mut SourceFd(&news.fd), NEWS, Interest::READABLE)?;
    }
    Ok(poll)
}

/// Waits until a stream may be read, for at most so long.
pub fn wait_to_read(stream: &TcpStream, time: Duration) {
    wait_for(stream, c::POLLIN, time);
}

/// Waits until a stream may be written, for at most so long.
pub fn wait_to_write(stream: &TcpStream, time: Duration) {
    wait_for(stream, c::POLLOUT, time);
}

/// Waits by poll(2) for one of these events of a stream.
fn wait_for(stream: &TcpStream, events: i16, time: Duration) {
    let millis = i32::try_from(time.as_millis()).unwrap_or(i32::MAX);
    let mut fds = [pollfd {
        fd: stream.as_raw_fd(),
        events,
        revents: 0,
    }];
    // The system counts whole milliseconds: one more, so that it does not return before the time is over.
    let _ = c::poll(&mut fds, millis.saturating_add(1));
}
