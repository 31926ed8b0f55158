//! A link of which the first frame was taken.
ghost use Rattle.tea_io.specs.Told.{with_more};

use std::marker::{Brand, Model, PhantomData};
use tea_base::Blob;
use tea_io::{Heard, Link, LinkFault};

/// What a link had told before its first frame, and this frame. Each link that is peeked at picks it.
pub trait Peeking {
    ghost use Rattle.std.specs.Prelude.{ℕ, List, Option};
    ghost use Rattle.tea_io.specs.declared.link.Heard.{Heard};

    ghost before: { Option (List Heard) };

    ghost first: { List ℕ };
}

impl Peeking for Brand {
    ghost use Rattle.std.specs.Prelude.{[], None};

    ghost before = { None };

    ghost first = { [] };
}

/// A link that gives its first frame once more, and is then the link. It tells what the link tells, without the frame that was taken.
#[derive(Drop)]
pub struct Peeked<L: Link + Drop, J: Peeking> {
    first: Option<Blob>,
    link: L,
    peeking: PhantomData<J>,
}

impl<L: Link + Drop, J: Peeking> Model for Peeked<L, J> {
    ghost use Rattle.host_server.specs.Peeking.{IsPeeked, PeekState};

    ghost Value = { PeekState L };

    ghost view = { λ peeked. record { first = peeked.first; link = peeked.link } };

    ghost invariant = { λ peeked. IsPeeked J.before J.first peeked.first (L.heard peeked.link) };
}

impl<L: Link + Drop, J: Peeking> Peeked<L, J> {
    ghost use Rattle.std.specs.Prelude.{◌≡◌, [], ◌∷◌, Some};
    ghost use Rattle.tea_io.specs.Told.{with_more};
    ghost use Rattle.tea_io.specs.declared.link.Heard.TheVariants.{Frame};
    ghost use Rattle.host_server.specs.Peeking.{IsPeeked};

    /// A link whose first frame was taken.
    pub fn new(first: Blob, link: L) -> Peeked<L, J>
        requires first { first ≡ J.first }
        requires told { L.heard link ≡ with_more J.before (Frame first ∷ []) }
        ensures first { result.first ≡ Some first }
        ensures link { result.link ≡ link }
    {
        Peeked {
            first: Some(first),
            link,
            peeking: PhantomData,
        }
    }

    /// The link itself.
    pub fn into_link(self) -> L
        ensures link { result ≡ self.link }
        ensures peeked { IsPeeked J.before J.first self.first (L.heard self.link) }
    {
        let Peeked { link, .. } = self;
        link
    }
}

impl<L: Link + Drop, J: Peeking> Link for Peeked<L, J> {
    ghost use Rattle.host_server.specs.Peeking.{first_to_come, heard_so_far};

    ghost coming = { λ peeked. first_to_come peeked.first (L.coming peeked.link) };

    ghost heard = { λ peeked. heard_so_far J.before peeked.first (L.heard peeked.link) };

    ghost sent = { λ peeked. L.sent peeked.link };

    ghost counts = { λ peeked. L.counts peeked.link };

    ghost closed = { λ peeked. L.closed peeked.link };

    fn recv(&mut self) -> Heard {
        match self.first.take() {
            Some(first) => Heard::Frame(first),
            None => self.link.recv(),
        }
    }

    fn send(&mut self, frame: &[u8]) -> Result<(), LinkFault> {
        self.link.send(frame)
    }

    fn close(&mut self) {
        self.link.close();
    }
}
