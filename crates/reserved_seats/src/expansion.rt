// The expanded market.

ghost use Rattle.std.specs.Prelude.{◌≡◌, ◌<◌, ◌≤◌, ℕ, true, [], length, slice_index_or, IfOk, OnOk};
ghost use Rattle.place_base.specs.declared.limits.TheConstants.{MOST_PROGRAMMES};
ghost use Rattle.market.specs.Problems.{IsValid};
ghost use Rattle.reserved_seats.specs.Expansion.{both_kinds, offered_list, offered_lists, expanded, problem_of, FitsMarket, IsListOf};

use crate::{Offer, Reserved};
use market::{List, Market, MarketParts, Prog};
use std::alloc::{AllocError, Global};

/// The expanded market: behind all programmes each stands once more, of the same type and with the
/// same bar, with its reserved seats as its quota; and in the list of each marked candidate the
/// reserved seats of a programme stand just after its general ones. The market is spent, also where
/// memory is refused, and nothing else is refused.
pub fn expand(alloc: Global, market: Market, reserved: &Reserved) -> Result<Market, AllocError>
    requires { FitsMarket market reserved.now }

    // The market is the definition's, all of it, and that is a valid one.
    ensures expanded { IfOk result (λ m. m ≡ expanded market reserved.now) }
    ensures valid { IsValid (expanded market reserved.now) }
{
    let parts = expand_parts(alloc, market.into_parts(), reserved)?;
    let MarketParts {
        types,
        programmes,
        lists,
        orders,
        ranks,
    } = parts;
    Market::build(alloc, types, programmes, lists, orders, ranks)
}

/// What the expanded market is made of, from what a market is made of: who has no market yet need
/// build but one. Orders and ranks are moved, and so are the lists of those who are not marked.
pub fn expand_parts(
    alloc: Global,
    parts: MarketParts,
    reserved: &Reserved,
) -> Result<MarketParts, AllocError>
    requires valid { IsValid (problem_of parts) }
    requires fit { FitsMarket (problem_of parts) reserved.now }
    ensures expanded { IfOk result (λ wide.
        problem_of wide ≡ expanded (problem_of parts) reserved.now) }
    ensures valid { IsValid (expanded (problem_of parts) reserved.now) }
{
    let MarketParts {
        types,
        programmes,
        mut lists,
        orders,
        ranks,
    } = parts;
    let rows = programmes.len() as u32;
    let programmes = with_reserved(alloc, &programmes, reserved.seats())?;
    offer_reserved(alloc, rows, &mut lists, reserved.marked())?;
    Ok(MarketParts {
        types,
        programmes,
        lists,
        orders,
        ranks,
    })
}

// These programmes, and behind them each once more with its reserved seats.
fn with_reserved(alloc: Global, general: &[Prog], seats: &[u32]) -> Result<Vec<Prog>, AllocError>
    requires { length seats.now ≡ length general.now }
    ensures { IfOk result (λ programmes. programmes.items ≡ both_kinds general.now seats.now) }
{
    let mut programmes = Vec::from_slice(alloc, general)?;
    programmes.reserve(general.len())?;
    for (row, programme) in general.iter().enumerate() {
        programmes.push(Prog {
            quota: seats[row],
            ..*programme
        })?;
    }
    Ok(programmes)
}

// Offers reserved seats to the marked candidates: each list of rows becomes one of offers.
fn offer_reserved(
    alloc: Global,
    rows: u32,
    lists: &mut [List],
    marked: &[bool],
) -> Result<(), AllocError>
    requires few { rows ≤ MOST_PROGRAMMES }
    requires candidates { length marked.now ≡ length lists.old }
    requires lists { (i : ℕ) → i < length lists.old
        → IsListOf rows (slice_index_or lists.old i []) }
    ensures { OnOk result (lists.new ≡ offered_lists rows marked.now lists.old) }
{
    for (candidate, is_marked) in marked.iter().enumerate() {
        if *is_marked {
            let offered = with_reserved_entries(alloc, rows, lists[candidate].items())?;
            lists[candidate] = offered;
        }
    }
    Ok(())
}

// The list of a marked candidate: of each row its general seats, and then its reserved ones.
fn with_reserved_entries(alloc: Global, rows: u32, list: &[u32]) -> Result<List, AllocError>
    requires few { rows ≤ MOST_PROGRAMMES }
    requires list { IsListOf rows list.now }
    ensures { IfOk result (λ offered. offered ≡ offered_list rows true list.now) }
{
    let mut offered = Vec::with_capacity(alloc, 2 * list.len())?;
    for row in list {
        offered.push(Offer::general(*row).index(rows))?;
        offered.push(Offer::reserved(*row).index(rows))?;
    }
    Ok(List::from_vec(offered))
}
