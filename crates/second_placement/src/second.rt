// The market of the seats left.

ghost use Rattle.std.specs.Prelude.{◌≡◌, length, IfOk};
ghost use Rattle.market.specs.Stability.{IsPlacement};
ghost use Rattle.second_placement.specs.SeatsLeft.{EachFitsBeside, second_problem};

use crate::seats_left::{lists_left, programmes_left};
use market::{Market, Placement};
use std::alloc::{AllocError, Global};

/// The market of the seats left. Each quota is lowered by the number of registered candidates who
/// hold that programme in `placement`, and the list of each candidate who holds one there is empty.
/// Types, bars, orders, ranks and the other lists stay. `registered` says of each candidate whether
/// it has registered. The market is spent, also where memory is refused, and nothing else is.
pub fn second_market(
    alloc: Global,
    market: Market,
    placement: &Placement,
    registered: &[bool],
) -> Result<Market, AllocError>
    requires placement { IsPlacement market placement.now }
    requires registered { length registered.now ≡ length market.lists }
    ensures market { IfOk result (λ second. second
        ≡ second_problem market placement.now registered.now) }

    // Whoever is placed there, no seat is given twice, and nobody gets a second one.
    ensures beside { EachFitsBeside market placement.now registered.now }
{
    let parts = market.into_parts();
    let programmes = programmes_left(parts.programmes, placement.held(), registered);
    let lists = lists_left(alloc, parts.lists, placement.held());
    Market::build(
        alloc,
        parts.types,
        programmes,
        lists,
        parts.orders,
        parts.ranks,
    )
}
