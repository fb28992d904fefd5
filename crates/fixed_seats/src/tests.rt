// Reports on markets that can be followed by hand, made with ample memory.

ghost use Rattle.std.specs.Prelude.{◌≡◌, [], ◌∷◌, length, IfOk};
ghost use Rattle.market.specs.Examples.{prog};
ghost use Rattle.market.specs.Problems.{problem};

use crate::{FixedReport, better_holders, fixed_report, same_everywhere};
use dictatorship::mechanism_plain;
use market::examples::exchange;
use market::{List, Market, Placement, Prog};
use stable_laws::exchange_stable_placements;
use std::alloc::{AllocError, Global};
use std::test::Fail;

// The report of a market, with what the mechanism gives each candidate.
#[tactic(auto, unfolding(market::specs::Mechanism::mechanism))]
fn reported(alloc: Global, market: &Market) -> Result<(FixedReport, Placement), AllocError>
    ensures { IfOk result (λ r. length r.0.held ≡ length market.now.programmes) }
{
    let outcome = mechanism_plain(alloc, market)?;
    let report = fixed_report(alloc, market, &outcome.placement)?;
    Ok((report, outcome.placement))
}

// Both stable placements of the exchange place both candidates and fill both programmes, and they
// give each candidate another one. The laws' premise is met.
#[test]
fn both_placements_of_the_exchange_have_the_report(rt: HostRuntime) -> Result<(), Fail> {
    let alloc = rt.alloc();
    let market = exchange(alloc)?;
    let (report, placement) = reported(alloc, &market)?;
    assert_eq!(rt; report.unplaced(), &[][..]);
    assert_eq!(rt; (report.held(0), report.held(1)), (1, 1));
    let other = Placement::from_vec(vec![in alloc; Some(0), Some(1)]?);
    exchange_stable_placements();
    same_everywhere(&market, &other);
    better_holders(&market, &other);
    assert_eq!(rt; placement.held(), &[Some(1), Some(0)][..]);
    Ok(())
}

// A programme of three seats, and no candidate.
fn market_of_nobody(alloc: Global) -> Result<Market, AllocError>
    ensures { IfOk result (λ m. m ≡ problem 1 (prog 0 3 ∷ []) [] ([] ∷ []) ([] ∷ [])) }
{
    let programmes = vec![in alloc;
        Prog {
            kind: 0,
            quota: 3,
            bar: None
        },
    ]?;
    let orders = vec![in alloc; List::from_vec(Vec::new(alloc))]?;
    let ranks = vec![in alloc; List::from_vec(Vec::new(alloc))]?;
    Market::build(alloc, 1, programmes, Vec::new(alloc), orders, ranks)
}

#[test]
fn nobody_is_unplaced_in_a_market_of_nobody(rt: HostRuntime) -> Result<(), Fail> {
    let alloc = rt.alloc();
    let market = market_of_nobody(alloc)?;
    let (report, placement) = reported(alloc, &market)?;
    assert_eq!(rt; report.unplaced(), &[][..]);
    assert_eq!(rt; report.held(0), 0);
    assert_eq!(rt; placement.held().len(), 0);
    Ok(())
}
