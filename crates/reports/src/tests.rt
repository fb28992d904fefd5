// Reports on placements of worked examples, followed by hand: the base ranks, and the reason of each
// list entry.

ghost use Rattle.std.specs.Prelude.{◌≡◌, ◌<◌, ◌∷◌, [], length, IfOk, IfSome};
ghost use Rattle.market.specs.Examples.{exchange, rank_bars};
ghost use Rattle.market.specs.Problems.{list_of};
ghost use Rattle.reports.specs.BaseTables.{HoldsProgrammes, IsBaseTable};

use crate::{BaseRanks, Reason, base_ranks, reason};
use market::{Market, Placement, examples};
use std::alloc::{AllocError, Global};
use std::test::Fail;

// What the two candidates of an example hold.
fn held(alloc: Global, first: Option<u32>, second: Option<u32>) -> Result<Placement, AllocError>
    requires first { IfSome first (λ p. p < 2) }
    requires second { IfSome second (λ p. p < 2) }
    ensures held { IfOk result (λ p. p ≡ first ∷ second ∷ []) }
    ensures exchange { IfOk result (HoldsProgrammes exchange) }
    ensures rank_bars { IfOk result (HoldsProgrammes rank_bars) }
{
    Ok(Placement::from_vec(vec![in alloc; first, second]?))
}

// The reasons of the two entries of each of two lists.
fn reasons(market: &Market, placement: &Placement, bases: &BaseRanks) -> [[Reason; 2]; 2]
    requires candidates { length market.now.lists ≡ 2 }
    requires first { length (list_of market.now 0) ≡ 2 }
    requires second { length (list_of market.now 1) ≡ 2 }
    requires placed { length placement.now ≡ 2 }
    requires bases { IsBaseTable market.now placement.now bases.now }
{
    [
        [
            reason(market, placement, bases, 0, 0),
            reason(market, placement, bases, 0, 1),
        ],
        [
            reason(market, placement, bases, 1, 0),
            reason(market, placement, bases, 1, 1),
        ],
    ]
}

// The base rank and the number of holders of the two programmes of the exchange, and the reasons
// of each list, when this is held.
#[tactic(auto, unfolding(market::specs::Problems::list_of))]
fn reports(
    alloc: Global,
    first: Option<u32>,
    second: Option<u32>,
) -> Result<([(Option<u32>, u32); 2], [[Reason; 2]; 2]), AllocError>
    requires first { IfSome first (λ p. p < 2) }
    requires second { IfSome second (λ p. p < 2) }
{
    let market = examples::exchange(alloc)?;
    let placement = held(alloc, first, second)?;
    let bases = base_ranks(alloc, &market, &placement)?;
    let programmes = [
        (bases.base(0), bases.held(0)),
        (bases.base(1), bases.held(1)),
    ];
    Ok((programmes, reasons(&market, &placement, &bases)))
}

#[test]
fn each_holds_the_second_wish(rt: HostRuntime) -> Result<(), Fail> {
    let (programmes, entries) = reports(rt.alloc(), Some(1), Some(0))?;
    assert_eq!(rt; programmes, [(Some(1), 1), (Some(1), 1)]);
    assert_eq!(rt; entries[0], [Reason::Full(Some(1)), Reason::Placed]);
    assert_eq!(rt; entries[1], [Reason::Full(Some(1)), Reason::Placed]);
    Ok(())
}

#[test]
fn one_holds_the_first_wish_and_one_nothing(rt: HostRuntime) -> Result<(), Fail> {
    let (programmes, entries) = reports(rt.alloc(), Some(0), None)?;
    assert_eq!(rt; programmes, [(Some(2), 1), (None, 0)]);
    assert_eq!(rt; entries[0], [Reason::Placed, Reason::Below]);
    assert_eq!(rt; entries[1], [Reason::Full(None), Reason::Full(Some(2))]);
    Ok(())
}

// The same of the market with rank bars, when each candidate holds the second wish.
#[tactic(auto, unfolding(market::specs::Problems::list_of))]
fn reports_with_bars(
    alloc: Global,
) -> Result<([(Option<u32>, u32); 2], [[Reason; 2]; 2]), AllocError> {
    let market = examples::rank_bars(alloc)?;
    let placement = held(alloc, Some(0), Some(1))?;
    let bases = base_ranks(alloc, &market, &placement)?;
    let programmes = [
        (bases.base(0), bases.held(0)),
        (bases.base(1), bases.held(1)),
    ];
    Ok((programmes, reasons(&market, &placement, &bases)))
}

#[test]
fn a_rank_one_behind_the_bar_is_told_the_bar(rt: HostRuntime) -> Result<(), Fail> {
    let (programmes, entries) = reports_with_bars(rt.alloc())?;
    assert_eq!(rt; programmes, [(Some(50), 1), (Some(7), 1)]);
    assert_eq!(rt; entries[0], [Reason::Bar(7), Reason::Placed]);
    assert_eq!(rt; entries[1], [Reason::Bar(50), Reason::Placed]);
    Ok(())
}
