// The laws.

ghost use Rattle.market.specs.Stability.{IsStable};
ghost use Rattle.market.specs.Mechanism.{mechanism_placement};
ghost use Rattle.fixed_seats.specs.Shared.{FillsAlike, HasBetterHolders};

use market::{Market, Placement};

/// Every stable placement leaves the same candidates without a programme as the mechanism's, and
/// fills the same number of seats of each programme.
///
/// A law: it changes and answers nothing, and a call gives it to a proof.
pub fn same_everywhere(market: &Market, other: &Placement)
    requires { IsStable market.now other.now }
    ensures { FillsAlike (mechanism_placement market.now) other.now }
{
    // Its clause says that the market is valid.
    let _ = market.type_count();
}

/// Who holds a programme in the mechanism's placement, and not in another stable one, has a better
/// rank in its score type than each candidate who holds it there and not in the mechanism's.
///
/// A law: it changes and answers nothing, and a call gives it to a proof.
pub fn better_holders(market: &Market, other: &Placement)
    requires { IsStable market.now other.now }
    ensures { HasBetterHolders market.now (mechanism_placement market.now) other.now }
{
    // Its clause says that the market is valid.
    let _ = market.type_count();
}
