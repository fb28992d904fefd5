// What a full entry says, as a law over stable placements, and what a base rank says.

ghost use Rattle.market.specs.Stability.{IsStable};
ghost use Rattle.reports.specs.BaseTables.{HoldsAcceptable, IsBaseTable, IsNoneWhereUnheld};
ghost use Rattle.reports.specs.FullEntries.{FullMeansFilled};

use crate::BaseRanks;
use market::{Market, Placement};

/// In a stable placement, as the mechanism's is, the programme of a list entry that is full has as
/// many holders as its quota, each with a better rank in its score type than the candidate.
///
/// A law: it changes and answers nothing, and a call gives it to a proof.
pub fn full_entries_are_filled(market: &Market, placement: &Placement)
    requires { IsStable market.now placement.now }
    ensures { FullMeansFilled market.now placement.now }
{
    // Its clause says that the market is valid.
    let _ = market.type_count();
}

/// Where each held programme is acceptable to its holder, as in every placement of the mechanism,
/// exactly the programmes that nobody holds have no base rank.
///
/// A law: it changes and answers nothing, and a call gives it to a proof.
pub fn only_unheld_have_no_base(market: &Market, placement: &Placement, ranks: &BaseRanks)
    requires table { IsBaseTable market.now placement.now ranks.now }
    requires acceptable { HoldsAcceptable market.now placement.now }
    ensures { IsNoneWhereUnheld market.now ranks.now }
{
    // Its clause says that the market is valid.
    let _ = market.type_count();
}
