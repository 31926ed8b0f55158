//! The handle of a seat, in memory of the host.
ghost use Rattle.croquet_page.specs.declared.seat.Seat.{Seat};
ghost use Rattle.croquet_page.specs.contracts.seat.Seat.{the_row as seat_row};

use crate::seat::Seat;
use std::marker::Model;

/// The handle of a seat: the place that `page_seat` wrote.
#[repr(C)]
pub struct Handle {
    at: *mut u8,
    ghost seat: { Seat } by { seat_row.coded },
}

impl Model for Handle {
    ghost use Rattle.std.specs.Borrow.{full_share};
    ghost use Rattle.croquet_page.specs.contracts.seat.Seat.{the_row as seat_row};
    ghost use Rattle.std.specs.Ptr.{lies_at};

    ghost also_owns = { λ h. lies_at seat_row full_share h.at h.seat };
}

impl Handle {
    ghost use Rattle.std.specs.Prelude.{◌≡◌};
    ghost use Rattle.std.specs.Borrow.{sem};
    ghost use Rattle.croquet_page.specs.Lending.{LendsSeat};

    /// The seat. This is the one function whose whole proof is written by hand.
    pub fn get(&mut self) -> &mut Seat
        ensures* lends { sem 𝓛 (LendsSeat self.entry result) }
        ensures seat { result.now ≡ self.old.seat }
    {
        unsafe { &mut *(self.at as *mut Seat) }
    }
}
