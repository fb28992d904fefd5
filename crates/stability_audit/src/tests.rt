// Verdicts on placements of three worked examples, followed by hand.

ghost use Rattle.std.specs.Prelude.{◌≡◌, ◌<◌, ◌∷◌, [], IfOk, IfSome};
ghost use Rattle.market.specs.Examples.{exchange, freed_seat, rank_bars};
ghost use Rattle.reports.specs.BaseTables.{HoldsProgrammes};

use crate::{Verdict, audit};
use market::{Placement, examples};
use std::alloc::{AllocError, Global};
use std::test::Fail;
use std::thread::Threads;

// What two candidates hold.
fn held(alloc: Global, first: Option<u32>, second: Option<u32>) -> Result<Placement, AllocError>
    requires first { IfSome first (λ p. p < 2) }
    requires second { IfSome second (λ p. p < 2) }
    ensures held { IfOk result (λ p. p ≡ first ∷ second ∷ []) }
    ensures exchange { IfOk result (HoldsProgrammes exchange) }
    ensures freed_seat { IfOk result (HoldsProgrammes freed_seat) }
    ensures rank_bars { IfOk result (HoldsProgrammes rank_bars) }
{
    Ok(Placement::from_vec(vec![in alloc; first, second]?))
}

// The verdict on what the two candidates of the exchange hold.
fn verdict_on_exchange<R: Threads + Sync>(
    rt: &R,
    alloc: Global,
    first: Option<u32>,
    second: Option<u32>,
) -> Result<Verdict, AllocError>
    requires first { IfSome first (λ p. p < 2) }
    requires second { IfSome second (λ p. p < 2) }
{
    let market = examples::exchange(alloc)?;
    let placement = held(alloc, first, second)?;
    audit(rt, alloc, &market, &placement)
}

// The verdict on what the two candidates of the freed seat hold.
fn verdict_on_freed_seat<R: Threads + Sync>(
    rt: &R,
    alloc: Global,
    first: Option<u32>,
    second: Option<u32>,
) -> Result<Verdict, AllocError>
    requires first { IfSome first (λ p. p < 2) }
    requires second { IfSome second (λ p. p < 2) }
{
    let market = examples::freed_seat(alloc)?;
    let placement = held(alloc, first, second)?;
    audit(rt, alloc, &market, &placement)
}

// The verdict on what the two candidates of the market with rank bars hold.
fn verdict_with_bars<R: Threads + Sync>(
    rt: &R,
    alloc: Global,
    first: Option<u32>,
    second: Option<u32>,
) -> Result<Verdict, AllocError>
    requires first { IfSome first (λ p. p < 2) }
    requires second { IfSome second (λ p. p < 2) }
{
    let market = examples::rank_bars(alloc)?;
    let placement = held(alloc, first, second)?;
    audit(rt, alloc, &market, &placement)
}

#[test]
fn both_placements_of_the_exchange_are_stable(rt: HostRuntime) -> Result<(), Fail> {
    let alloc = rt.alloc();
    let first_wishes = verdict_on_exchange(&rt, alloc, Some(0), Some(1))?;
    let second_wishes = verdict_on_exchange(&rt, alloc, Some(1), Some(0))?;
    assert_eq!(rt; first_wishes, Verdict::Stable);
    assert_eq!(rt; second_wishes, Verdict::Stable);
    Ok(())
}

#[test]
fn the_first_fault_of_a_placement_is_told(rt: HostRuntime) -> Result<(), Fail> {
    let alloc = rt.alloc();
    let seat_left = verdict_on_exchange(&rt, alloc, Some(0), None)?;
    assert_eq!(rt; seat_left, Verdict::Blocking(1, 1));
    let one_seat_twice = verdict_on_exchange(&rt, alloc, Some(0), Some(0))?;
    assert_eq!(rt; one_seat_twice, Verdict::OverQuota(0));
    let unlisted = verdict_on_freed_seat(&rt, alloc, None, Some(0))?;
    assert_eq!(rt; unlisted, Verdict::NotAcceptable(1));
    Ok(())
}

#[test]
fn a_free_seat_behind_a_bar_blocks_nothing(rt: HostRuntime) -> Result<(), Fail> {
    let alloc = rt.alloc();
    let within_the_bars = verdict_with_bars(&rt, alloc, Some(0), Some(1))?;
    assert_eq!(rt; within_the_bars, Verdict::Stable);
    let behind_the_bars = verdict_with_bars(&rt, alloc, Some(1), Some(0))?;
    assert_eq!(rt; behind_the_bars, Verdict::NotAcceptable(0));
    let nothing_held = verdict_with_bars(&rt, alloc, None, None)?;
    assert_eq!(rt; nothing_held, Verdict::Blocking(0, 0));
    Ok(())
}
