// The worked markets, placed by rounds over teams. Each call that takes memory is made with ample
// memory.

ghost use Rattle.std.specs.Prelude.{◌≡◌, ◌<◌, ◌≤◌, [], ◌∷◌, IfOk};
ghost use Rattle.interleaving_core.specs.declared.limits.TheConstants.{MAX_WORKERS};
ghost use Rattle.market.specs.Examples.{prog};

use crate::Rounds;
use gate_workers::OpenGate;
use market::examples::{exchange, freed_seat, three_rounds};
use market::{List, Market, Outcome, Placer, Prog, Steps};
use std::alloc::{AllocError, Global};
use std::marker::Brand;
use std::process::Abort;
use std::sync::ledger::{Blank, Ledger};
use std::test::Fail;
use std::thread::Threads;

// What teams of so many workers make of a market.
fn outcome_of<R: Threads + Sync, L: Ledger>(
    rt: &R,
    alloc: Global,
    blank: Blank,
    market: &Market,
    workers: u32,
) -> Result<Outcome, AllocError>
    requires ledger { (blank.name ≡ L.name) × (blank.parts ≡ L.parts) × (0 < blank.parts) }
    requires workers { (0 < workers) × (workers ≤ MAX_WORKERS) }
{
    let mut turns = Steps::<L>::new(blank);
    Rounds::new(workers, &OpenGate).run(rt, alloc, market, &mut turns)
}

// The same by the placer.
fn placed<R: Threads + Sync, L: Ledger>(
    rt: &R,
    alloc: Global,
    blank: Blank,
    market: &Market,
) -> Result<Outcome, AllocError>
    requires ledger { (blank.name ≡ L.name) × (blank.parts ≡ L.parts) × (0 < blank.parts) }
{
    let mut turns = Steps::<L>::new(blank);
    Rounds::new(2, &OpenGate).place(rt, alloc, market, &mut turns)
}

// Compares what each candidate holds, and the counts of rounds, cuts and turns.
fn check_outcome(
    rt: &impl Abort,
    outcome: &Outcome,
    held: &[Option<u32>],
    counts: (u32, u32, u64),
) {
    assert_eq!(rt; outcome.placement.held(), held);
    assert_eq!(rt; (outcome.rounds, outcome.cuts, outcome.turns), counts);
}

// The same of what teams of so many workers make of a market.
fn check_teams<R: Threads + Sync + Abort>(
    rt: &R,
    alloc: Global,
    market: &Market,
    workers: u32,
    held: &[Option<u32>],
    counts: (u32, u32, u64),
) -> Result<(), AllocError>
    requires workers { (0 < workers) × (workers ≤ MAX_WORKERS) }
{
    let outcome = outcome_of::<R, Brand>(rt, alloc, Blank::new(1), market, workers)?;
    check_outcome(rt, &outcome, held, counts);
    Ok(())
}

// The same of what the placer makes of it.
fn check_placer<R: Threads + Sync + Abort>(
    rt: &R,
    alloc: Global,
    market: &Market,
    held: &[Option<u32>],
    counts: (u32, u32, u64),
) -> Result<(), AllocError> {
    let outcome = placed::<R, Brand>(rt, alloc, Blank::new(1), market)?;
    check_outcome(rt, &outcome, held, counts);
    Ok(())
}

// The outcome of the market of three rounds, by teams of three sizes and by the placer.
fn check_three_rounds<R: Threads + Sync + Abort>(
    rt: &R,
    alloc: Global,
    market: &Market,
) -> Result<(), AllocError> {
    let (held, counts) = ([Some(0), Some(2), Some(1)], (3, 2, 11));
    check_teams(rt, alloc, market, 1, &held, counts)?;
    check_teams(rt, alloc, market, 2, &held, counts)?;
    check_teams(rt, alloc, market, 64, &held, counts)?;
    check_placer(rt, alloc, market, &held, counts)
}

// In the first round all six turns are run; then three of the second type, and two of the first.
#[test]
fn only_changed_turns_run_again(rt: HostRuntime) -> Result<(), Fail> {
    let alloc = rt.alloc();
    check_three_rounds(&rt, alloc, &three_rounds(alloc)?)?;
    Ok(())
}

// Without a cut there is one round; a cut of one type leaves the other alone.
#[test]
fn an_untouched_type_is_not_run_again(rt: HostRuntime) -> Result<(), Fail> {
    let alloc = rt.alloc();
    let (uncut, cut) = ([Some(1), Some(0)], [Some(0), Some(1)]);
    check_teams(&rt, alloc, &exchange(alloc)?, 2, &uncut, (1, 0, 4))?;
    check_teams(&rt, alloc, &freed_seat(alloc)?, 2, &cut, (2, 1, 6))?;
    Ok(())
}

// A programme of a type with one seat.
fn one_seat(kind: u32) -> Prog
    ensures { result ≡ prog kind 1 }
{
    Prog {
        kind,
        quota: 1,
        bar: None,
    }
}

// Four lists.
fn four_lists(
    alloc: Global,
    first: &[u32],
    second: &[u32],
    third: &[u32],
    fourth: &[u32],
) -> Result<Vec<List>, AllocError>
    ensures { IfOk result (λ lists. lists.items
        ≡ first.now ∷ second.now ∷ third.now ∷ fourth.now ∷ []) }
{
    let first = List::from_slice(alloc, first)?;
    let second = List::from_slice(alloc, second)?;
    let third = List::from_slice(alloc, third)?;
    let fourth = List::from_slice(alloc, fourth)?;
    Ok(vec![in alloc; first, second, third, fourth]?)
}

// Four candidates and five programmes of three types; the fourth type has none.
fn five_rounds(alloc: Global) -> Result<Market, AllocError> {
    let programmes = vec![in alloc;
        one_seat(2),
        one_seat(0),
        one_seat(0),
        one_seat(0),
        one_seat(1),
    ]?;
    let lists = four_lists(alloc, &[3, 4, 0, 2], &[0, 3], &[1, 2, 0, 4], &[1, 2])?;
    let orders = four_lists(
        alloc,
        &[1, 2, 0, 3],
        &[3, 2, 1, 0],
        &[0, 2, 3, 1],
        &[0, 1, 2, 3],
    )?;
    let ranks = four_lists(
        alloc,
        &[1, 2, 3, 4],
        &[1, 2, 3, 4],
        &[1, 2, 3, 4],
        &[1, 2, 3, 4],
    )?;
    Market::build(alloc, 4, programmes, lists, orders, ranks)
}

// Candidate 0 takes 2 and 0, then 4 and 0, and at last 3 and 4, and is cut each time. Of the 16 turns
// the second round runs two of the first type and three of the second; the third, after the cut of
// the first turn of the third type, all four of that; the fourth all four of the first type; and the
// last round the last turn of the second alone.
#[test]
fn a_candidate_is_cut_in_three_rounds(rt: HostRuntime) -> Result<(), Fail> {
    let alloc = rt.alloc();
    let market = five_rounds(alloc)?;
    let (held, counts) = ([Some(3), Some(0), Some(1), Some(2)], (5, 5, 30));
    check_teams(&rt, alloc, &market, 1, &held, counts)?;
    check_teams(&rt, alloc, &market, 4, &held, counts)?;
    check_teams(&rt, alloc, &market, 64, &held, counts)?;
    Ok(())
}
