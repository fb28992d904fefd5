// The laws.

ghost use Rattle.market.specs.Stability.{IsStable};
ghost use Rattle.reserved_seats.specs.Expansion.{expanded};
ghost use Rattle.reserved_seats.specs.Holders.{AreAcceptableOffers, HoldReservedLast};

use crate::Reserved;
use market::{Market, Placement};

/// In the expanded market a programme's general seats are acceptable to a candidate exactly where
/// the programme is in the market itself, and its reserved seats exactly where the candidate is
/// marked as well.
///
/// A law: it changes and answers nothing, and a call gives it to a proof.
pub fn acceptable_offers(market: &Market, reserved: &Reserved)
    ensures { AreAcceptableOffers market.now reserved.now }
{
    // Its clause says that the market is valid.
    let _ = market.type_count();
}

/// In every stable placement of the expanded market, who holds a reserved seat is marked, and the
/// general seats of the same programme are all held by candidates with a better rank.
///
/// A law: it changes and answers nothing, and a call gives it to a proof.
pub fn reserved_seats_last(market: &Market, reserved: &Reserved, placement: &Placement)
    requires { IsStable (expanded market.now reserved.now) placement.now }
    ensures { HoldReservedLast market.now reserved.now placement.now }
{
    // Its clause says that the market is valid.
    let _ = market.type_count();
}
