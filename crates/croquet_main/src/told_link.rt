//! A link whose frames are followed for the person at the terminal.
ghost use Rattle.std.specs.Prelude.{◌≡◌};

use run_notes::{Guest, WorldWatch};
use std::io::Eprint;
use std::time::{Clock, Instant};
use tea_base::WantOfMemory;
use tea_io::{Heard, Link, LinkFault};

/// A link whose frames are followed, where it has somebody who follows them. What is to be told is written on the error stream, before the call
/// returns. A line that cannot be written is no fault.
#[derive(Drop)]
pub struct ToldLink<R: Copy, L> {
    rt: R,
    link: L,
    /// What tells of the client of a reflector's link.
    guest: Option<Guest>,
    /// What tells of the world of a view.
    watch: Option<WorldWatch>,
}

impl<R: Copy, L> ToldLink<R, L> {
    /// Over this link, followed by these.
    pub fn new(rt: R, link: L, guest: Option<Guest>, watch: Option<WorldWatch>) -> ToldLink<R, L>
        ensures { result.link ≡ link }
    {
        ToldLink {
            rt,
            link,
            guest,
            watch,
        }
    }

    /// The link, and what tells of the world of a view.
    pub fn into_parts(self) -> (L, Option<WorldWatch>)
        ensures { result.0 ≡ self.link }
    {
        let ToldLink {
            rt: _rt,
            link,
            guest: _guest,
            watch,
        } = self;
        (link, watch)
    }
}

/// Says lines, if there are any.
fn say<R: Eprint>(rt: &R, lines: Result<String, WantOfMemory>) {
    if let Ok(lines) = lines {
        if !lines.is_empty() {
            let _ = eprint!(rt; "{lines}");
        }
    }
}

/// Says what a frame brings about in the world of a view, and counts how long that takes.
fn tell_world<R: Eprint + Clock>(rt: &R, watch: &mut WorldWatch, heard: &Heard) {
    let Heard::Frame(frame) = heard else {
        return;
    };
    let began = Instant::now(rt);
    say(rt, watch.hear(frame.bytes()));
    if let (Ok(began), Ok(now)) = (began, Instant::now(rt)) {
        let micros = now.saturating_duration_since(began).as_micros();
        watch.note_work(u64::try_from(micros).unwrap_or(u64::MAX));
    }
}

/// Says what a receive tells of a client.
fn tell_heard<R: Eprint>(rt: &R, guest: &mut Option<Guest>, heard: &Heard) {
    if let Some(guest) = guest {
        say(rt, guest.hear(heard));
    }
}

/// Says what a send tells of a client.
fn tell_sent<R: Eprint>(
    rt: &R,
    guest: &mut Option<Guest>,
    frame: &[u8],
    sent: Result<(), LinkFault>,
) {
    if let Some(guest) = guest {
        say(rt, guest.send(frame, sent));
    }
}

impl<R: Eprint + Clock + Copy, L: Link> Link for ToldLink<R, L> {
    ghost coming = { λ told. L.coming told.link };

    ghost heard = { λ told. L.heard told.link };

    ghost sent = { λ told. L.sent told.link };

    ghost counts = { λ told. L.counts told.link };

    ghost closed = { λ told. L.closed told.link };

    fn recv(&mut self) -> Heard {
        let heard = self.link.recv();
        tell_heard(&self.rt, &mut self.guest, &heard);
        if let Some(watch) = &mut self.watch {
            tell_world(&self.rt, watch, &heard);
        }
        heard
    }

    fn send(&mut self, frame: &[u8]) -> Result<(), LinkFault> {
        let sent = self.link.send(frame);
        tell_sent(&self.rt, &mut self.guest, frame, sent);
        if let Some(watch) = &mut self.watch {
            watch.send(frame);
        }
        sent
    }

    fn close(&mut self) {
        self.link.close();
    }
}
