// How many seats are reserved, and for whom.

ghost use Rattle.std.specs.Prelude.{◌≡◌};
ghost use Rattle.reserved_seats.specs.Reservations.{AreWithinQuota};

use std::marker::Model;

/// The reserved seats of each programme, which come on top of its quota, and for each candidate
/// whether the candidate is marked.
#[derive(Drop)]
pub struct Reserved {
    seats: Vec<u32>,
    marked: Vec<bool>,
}

impl Model for Reserved {
    ghost use Rattle.reserved_seats.specs.Reservations.{Reservation, AreWithinQuota};

    ghost Value = { Reservation };

    ghost view = { λ r. record { seats = r.seats.items; marked = r.marked.items } };

    ghost invariant = { λ r. AreWithinQuota r.seats.items };
}

impl Reserved {
    /// So many seats of each programme, at most `MAX_QUOTA`, for these candidates. It takes no
    /// memory.
    pub fn from_parts(seats: Vec<u32>, marked: Vec<bool>) -> Reserved
        requires { AreWithinQuota seats.items }
        ensures { result ≡ record { seats = seats.items; marked = marked.items } }
    {
        Reserved { seats, marked }
    }

    /// The reserved seats of each programme.
    pub fn seats(&self) -> &[u32]
        ensures seats { result.now ≡ self.now.seats }
        ensures limit { AreWithinQuota self.now.seats }
    {
        &self.seats
    }

    /// For each candidate whether the candidate is marked.
    pub fn marked(&self) -> &[bool]
        ensures { result.now ≡ self.now.marked }
    {
        &self.marked
    }
}
