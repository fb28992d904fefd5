// Worked examples, run: three markets, and one dictatorship. Each call that takes memory is made
// with ample memory.

ghost use Rattle.std.specs.Prelude.{◌≡◌, ◌<◌, IfOk};

use crate::{PlainPlacer, mechanism_plain, run_plain};
use market::examples::{exchange, freed_seat, three_rounds, two_turns};
use market::{Outcome, Placer, Steps};
use std::alloc::{AllocError, Global};
use std::marker::Brand;
use std::process::Abort;
use std::sync::ledger::{Blank, Ledger};
use std::test::Fail;
use std::thread::Threads;

// What the plain placer makes of the market of three rounds, and its counter, which stands at 18.
fn counted<R: Threads + Sync, L: Ledger>(
    rt: &R,
    alloc: Global,
    blank: Blank,
) -> Result<(Outcome, Steps<L>), AllocError>
    requires ledger { (blank.name ≡ L.name) × (blank.parts ≡ L.parts) × (0 < blank.parts) }
    ensures { IfOk result (λ found. found.1 ≡ 18) }
{
    let market = three_rounds(alloc)?;
    let mut turns = Steps::<L>::new(blank);
    let outcome = PlainPlacer.place(rt, alloc, &market, &mut turns)?;
    Ok((outcome, turns))
}

// The same, for any ledger.
fn placed<R: Threads + Sync, L: Ledger>(
    rt: &R,
    alloc: Global,
    blank: Blank,
) -> Result<Outcome, AllocError>
    requires ledger { (blank.name ≡ L.name) × (blank.parts ≡ L.parts) × (0 < blank.parts) }
{
    let (outcome, _turns) = counted::<R, L>(rt, alloc, blank)?;
    Ok(outcome)
}

#[test]
fn the_second_seat_goes_to_the_second_turn(rt: HostRuntime) -> Result<(), Fail> {
    let alloc = rt.alloc();
    let choices = run_plain(alloc, &two_turns(alloc)?)?;
    assert_eq!(rt; choices.as_slice(), &[0, 1][..]);
    Ok(())
}

// Compares what each candidate holds, and the rounds, the cuts and the turns.
fn check_outcome(
    rt: &impl Abort,
    outcome: &Outcome,
    held: &[Option<u32>],
    counts: (u32, u32, u64),
) {
    assert_eq!(rt; outcome.placement.held(), held);
    assert_eq!(rt; (outcome.rounds, outcome.cuts, outcome.turns), counts);
}

// Both candidates would rather exchange. That placement is stable too, and not the mechanism's.
#[test]
fn nobody_gets_a_first_wish_in_the_exchange(rt: HostRuntime) -> Result<(), Fail> {
    let alloc = rt.alloc();
    let outcome = mechanism_plain(alloc, &exchange(alloc)?)?;
    check_outcome(&rt, &outcome, &[Some(1), Some(0)], (1, 0, 4));
    Ok(())
}

// In the first round the first candidate takes both seats, and is cut to the first of them. In the
// second the other one takes the second seat. Each round has the two turns of two types.
#[test]
fn a_cut_frees_a_seat(rt: HostRuntime) -> Result<(), Fail> {
    let alloc = rt.alloc();
    let outcome = mechanism_plain(alloc, &freed_seat(alloc)?)?;
    check_outcome(&rt, &outcome, &[Some(0), Some(1)], (2, 1, 8));
    Ok(())
}

// The placer gives what the mechanism gives.
#[test]
fn one_cut_leads_to_the_next(rt: HostRuntime) -> Result<(), Fail> {
    let alloc = rt.alloc();
    let held = [Some(0), Some(2), Some(1)];
    let by_placer = placed::<HostRuntime, Brand>(&rt, alloc, Blank::new(1))?;
    check_outcome(&rt, &by_placer, &held, (3, 2, 18));
    let by_mechanism = mechanism_plain(alloc, &three_rounds(alloc)?)?;
    check_outcome(&rt, &by_mechanism, &held, (3, 2, 18));
    Ok(())
}
