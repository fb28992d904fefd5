// The two kinds of seats, and offers: what stands between a row of the programmes file and an index
// of a market.

ghost use Rattle.std.specs.Prelude.{◌≡◌, ◌+◌, ◌<◌, ◌≤◌, length, Option};
ghost use Rattle.place_base.specs.declared.limits.TheConstants.{MOST_PROGRAMMES};
ghost use Rattle.reserved_seats.specs.Offers.{general, reserved, index_of, offer_at};
ghost use Rattle.reserved_seats.specs.Fields.{code_of, letter_of, seat_of};

use place_base::Finder;

/// A kind of seats.
#[derive(Clone, Copy, Debug, PartialEq, Eq)]
pub enum Seat {
    /// Those that every candidate may hold.
    General,
    /// Those that marked candidates alone may hold.
    Reserved,
}

impl Seat {
    /// The letter that prints it: `G` or `R`.
    pub fn letter(self) -> &'static [u8]
        ensures letter { result.now ≡ letter_of self }
        ensures back { seat_of result.now ≡ Option.Some self }
    {
        match self {
            Seat::General => b"G",
            Seat::Reserved => b"R",
        }
    }

    /// The kind that a field names, None exactly where it is neither `G` nor `R`.
    pub fn of_letter(field: &[u8]) -> Option<Seat>
        ensures { result ≡ seat_of field.now }
    {
        match field {
            b"G" => Some(Seat::General),
            b"R" => Some(Seat::Reserved),
            _ => None,
        }
    }
}

/// An offer: a row of the programmes file, and the kind of its seats.
#[derive(Clone, Copy, Debug, PartialEq, Eq)]
pub struct Offer {
    /// The index of the row.
    pub row: u32,
    /// Which of its seats.
    pub seat: Seat,
}

impl Offer {
    /// The general seats of a row.
    pub fn general(row: u32) -> Offer
        ensures { result ≡ general row }
    {
        Offer {
            row,
            seat: Seat::General,
        }
    }

    /// The reserved seats of a row.
    pub fn reserved(row: u32) -> Offer
        ensures { result ≡ reserved row }
    {
        Offer {
            row,
            seat: Seat::Reserved,
        }
    }

    /// The offer at an index of the market of a file with so many rows. The general seats of a row
    /// stand at its own index, and the reserved ones so many behind it.
    pub fn at(rows: u32, index: u32) -> Offer
        ensures offer { result ≡ offer_at rows index }
        ensures back { index_of rows result ≡ index }
        ensures row { index < rows + rows → result.row < rows }
    {
        if index < rows {
            Offer::general(index)
        } else {
            Offer::reserved(index - rows)
        }
    }

    /// Its index in the market of a file with so many rows.
    pub fn index(self, rows: u32) -> u32
        requires few { rows ≤ MOST_PROGRAMMES }
        requires row { self.row < rows }
        ensures index { result ≡ index_of rows self }
        ensures back { offer_at rows result ≡ self }
    {
        match self.seat {
            Seat::General => self.row,
            Seat::Reserved => rows + self.row,
        }
    }

    /// The code that prints it, beside the letter of its seats where the file has reserved ones.
    pub fn code<P: Finder>(self, programmes: &P) -> u64
        requires { self.row < length (P.numbers programmes.now) }
        ensures { result ≡ code_of (P.numbers programmes.now) self }
    {
        programmes.number_at(self.row)
    }
}
