// The report of what all stable placements share.

ghost use Rattle.std.specs.Prelude.{◌≡◌, ◌<◌, length, slice_index, IfOk};
ghost use Rattle.market.specs.Mechanism.{mechanism_placement};
ghost use Rattle.fixed_seats.specs.Reports.{IsOfEveryStable};

use crate::counting::{holders, unplaced};
use market::{Market, Placement};
use stable_laws::worst_stable;
use std::alloc::{AllocError, Global};
use std::marker::Model;

/// What every stable placement of a market leaves and fills: the candidates without a programme,
/// and for each programme how many hold it.
#[derive(Drop)]
pub struct FixedReport {
    unplaced: Vec<u32>,
    held: Vec<u32>,
}

impl Model for FixedReport {
    ghost use Rattle.fixed_seats.specs.Reports.{Seats};

    ghost Value = { Seats };

    ghost view = { λ r. record { unplaced = r.unplaced.items; held = r.held.items } };
}

/// What every stable placement of the market leaves and fills, by the mechanism's placement in it.
/// Nothing but memory is refused.
pub fn fixed_report(
    alloc: Global,
    market: &Market,
    placement: &Placement,
) -> Result<FixedReport, AllocError>
    requires { placement.now ≡ mechanism_placement market.now }
    ensures { IfOk result (IsOfEveryStable market.now) }
{
    // Its clause says that the market is valid.
    let _ = market.type_count();
    worst_stable(market);
    let programmes = market.programme_count() as usize;
    let unplaced = unplaced(alloc, placement.held())?;
    let held = holders(alloc, programmes, placement.held())?;
    Ok(FixedReport { unplaced, held })
}

impl FixedReport {
    /// The candidates whom no stable placement gives a programme, rising.
    pub fn unplaced(&self) -> &[u32]
        ensures { result.now ≡ self.now.unplaced }
    {
        &self.unplaced
    }

    /// How many candidates hold a programme in every stable placement.
    pub fn held(&self, programme: u32) -> u32
        requires { programme < length self.now.held }
        ensures { result ≡ slice_index self.now.held programme }
    {
        self.held[programme as usize]
    }
}
