//! A share of a net whose links are followed.
ghost use Rattle.std.specs.Prelude.{◌≡◌, None};

use crate::told_link::ToldLink;
use crate::told_net::GuestCount;
use net_shares::Share;
use run_notes::Guest;
use std::io::Eprint;
use std::time::Clock;
use tea_io::NetFault;

/// A share of a net. Unless it is to be quiet, it says what its links bring.
#[derive(Drop)]
pub struct ToldShare<'a, R: Copy, S> {
    rt: R,
    share: S,
    /// How many links all shares of its net have accepted.
    guests: &'a GuestCount,
    /// Whether nothing is to be said of its links.
    is_quiet: bool,
}

impl<'a, R: Copy, S> ToldShare<'a, R, S> {
    /// Over this share, whose links are counted by this.
    pub fn new(rt: R, share: S, guests: &'a GuestCount, is_quiet: bool) -> ToldShare<'a, R, S>
        ensures { result.share ≡ share }
    {
        ToldShare {
            rt,
            share,
            guests,
            is_quiet,
        }
    }

    /// The share.
    pub fn into_share(self) -> S
        ensures { result ≡ self.entry.share }
    {
        let ToldShare {
            rt: _rt,
            share,
            guests: _guests,
            is_quiet: _is_quiet,
        } = self;
        share
    }
}

impl<R: Eprint + Clock + AllocGlobal + Copy + Send, S: Share> Share for ToldShare<'_, R, S> {
    type Conn = ToldLink<R, S::Conn>;

    ghost coming = { λ told. None };

    ghost over = { λ told. None };

    ghost faults = { λ told. S.faults told.share };

    ghost lent = { λ told. S.lent told.share };

    ghost link_counts = { λ told. S.link_counts told.share };

    fn accept(&mut self) -> Result<Option<ToldLink<R, S::Conn>>, NetFault> {
        let Some(link) = self.share.accept()? else {
            return Ok(None);
        };
        let guest = if self.is_quiet {
            None
        } else {
            Some(Guest::new(self.rt.alloc(), self.guests.next()))
        };
        Ok(Some(ToldLink::new(self.rt, link, guest, None)))
    }

    fn back(&mut self, conn: ToldLink<R, S::Conn>) {
        let (link, _watch) = conn.into_parts();
        self.share.back(link);
    }
}
