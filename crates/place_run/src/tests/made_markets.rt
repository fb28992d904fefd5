// Markets that are made from numbers. The texts are those of a script that was written after the
// definitions, with a generator and whole rounds of its own.

ghost use Rattle.std.specs.Prelude.{◌≡◌, ◌<◌};

use super::gates::Draws;
use super::{ends, shelf};
use case_maker::make_market;
use dictatorship::PlainPlacer;
use market::{Market, Placer, Steps};
use std::alloc::{AllocError, Global};
use std::marker::Brand;
use std::process::Abort;
use std::sync::ledger::{Blank, Ledger};
use std::test::Fail;
use std::thread::Threads;

const OF_FORTY: &[u8] = b"candidates 300\nprogrammes 40\ntypes 5\nentries 3151\nrounds 14\n\
cuts 349\nturns 12142\nplaced 282\nseats 317\n";

const LARGE: &[u8] = b"candidates 20000\nprogrammes 500\ntypes 5\nentries 237118\nrounds 19\n\
cuts 23896\nturns 1315291\nplaced 18534\nseats 20856\n";

// Words, what they print, and how many turns the workers draw.
const SUMMARIES: [(&[&str], &[u8], u64); 9] = [
    (
        &["make", "1", "0", "0", "1"],
        b"candidates 0\nprogrammes 0\ntypes 1\nentries 0\nrounds 1\ncuts 0\nturns 0\nplaced 0\n\
seats 0\n",
        0,
    ),
    // Three of the six turns that three candidates could have in two types were drawn.
    (
        &["make", "5", "3", "0", "2"],
        b"candidates 3\nprogrammes 0\ntypes 2\nentries 0\nrounds 1\ncuts 0\nturns 3\nplaced 0\n\
seats 0\n",
        3,
    ),
    (
        &["make", "95", "5", "3", "2"],
        b"candidates 5\nprogrammes 3\ntypes 2\nentries 8\nrounds 2\ncuts 1\nturns 8\nplaced 2\n\
seats 4\n",
        8,
    ),
    (
        &["make", "7", "300", "40", "5", "--workers", "1"],
        OF_FORTY,
        12_142,
    ),
    (
        &["make", "7", "300", "40", "5", "--workers", "2"],
        OF_FORTY,
        12_142,
    ),
    (
        &["make", "7", "300", "40", "5", "--workers", "7"],
        OF_FORTY,
        12_142,
    ),
    (
        &["make", "7", "300", "40", "5", "--workers", "64"],
        OF_FORTY,
        12_142,
    ),
    (
        &["make", "1", "20000", "500", "5", "--workers", "1"],
        LARGE,
        1_315_291,
    ),
    (
        &["make", "1", "20000", "500", "5", "--workers", "8"],
        LARGE,
        1_315_291,
    ),
];

// Each of these words prints this over a shelf without a file, which is not called, and its workers
// draw so many turns.
fn are_summed_up(
    rt: &(impl Threads + Sync + Abort),
    alloc: Global,
    summaries: &[(&[&str], &[u8], u64)],
) -> Result<(), Fail> {
    for (texts, text, turns) in summaries {
        let gate = Draws::none();
        let shelf = shelf(alloc, &[])?;
        ends(rt, alloc, texts, shelf, &gate, (0, *text, b"", 0, 0))?;
        assert_eq!(rt; gate.several(), *turns, "{texts:?}");
    }
    Ok(())
}

#[test]
fn a_made_market_is_summed_up_by_any_number_of_workers(rt: HostRuntime) -> Result<(), Fail> {
    are_summed_up(&rt, rt.alloc(), &SUMMARIES)
}

// What the plain placer makes of a market: rounds, cuts, and candidates who hold a programme.
fn plain_counts<R: Threads + Sync>(
    rt: &R,
    alloc: Global,
    market: &Market,
) -> Result<(u32, u32, usize), AllocError> {
    plain_counts_by::<R, Brand>(rt, alloc, market, Blank::new(1))
}

// The same with a counter of turns of any ledger.
fn plain_counts_by<R: Threads + Sync, L: Ledger>(
    rt: &R,
    alloc: Global,
    market: &Market,
    blank: Blank,
) -> Result<(u32, u32, usize), AllocError>
    requires ledger { (blank.name ≡ L.name) × (blank.parts ≡ L.parts) × (0 < blank.parts) }
{
    let mut turns = Steps::<L>::new(blank);
    let outcome = PlainPlacer.place(rt, alloc, market, &mut turns)?;
    let held = outcome.placement.held();
    let placed = held.iter().filter(|programme| programme.is_some()).count();
    Ok((outcome.rounds, outcome.cuts, placed))
}

// The counts of the large summary.
#[test]
fn the_plain_placer_finds_the_same_in_a_large_market(rt: HostRuntime) -> Result<(), Fail> {
    let alloc = rt.alloc();
    let market = make_market(alloc, 1, 20_000, 500, 5)?;
    assert_eq!(rt; plain_counts(&rt, alloc, &market)?, (19, 23_896, 18_534));
    Ok(())
}
