// Runs over files in memory, which a reader can check by hand.
ghost use Rattle.std.specs.Prelude.{◌≡◌, ◌≤◌, ◌<◌, IfOk, length};

// Each call of a shelf fails once.
mod failed_reads;
// Gates that count turns.
mod gates;
// Files at their limits.
mod large_files;
// Markets that are made from numbers.
mod made_markets;
// Files in each number of parts.
mod parts;
// Each put fails once.
mod refused_in_turn;
// Runs that cannot fail.
mod sure_runs;
// Markets that are placed.
mod worked_markets;

use self::gates::{Draws, DrawsInPairs};
use self::worked_markets::{
    CHAIN_BASE, CHAIN_CANDIDATES, CHAIN_PLACED, CHAIN_PROGRAMMES, CHAIN_RANKS, CHAIN_REASONS,
    MARKETS, Worked,
};
use crate::inputs::Inputs;
use crate::problem::Problem;
use crate::status::Stop;
use crate::{Status, run_words};
use gate_workers::{Gate, OpenGate};
use market::{Placer, Steps};
use place_edges::{MemShelf, MemSink};
use round_rerun::Rounds;
use std::alloc::{AllocError, Global};
use std::marker::Brand;
use std::process::Abort;
use std::sync::ledger::{Blank, Ledger};
use std::test::Fail;
use std::thread::Threads;

const PLACE: [&str; 4] = ["place", "p", "c", "r"];

const BY_TWO: [&str; 6] = ["place", "p", "c", "r", "--workers", "2"];

// The same by one worker, by two, by as many as when the words say nothing, by seven, and by the
// most.
const PLACE_BY: [&[&str]; 5] = [
    &["place", "p", "c", "r", "--workers", "1"],
    &BY_TWO,
    &PLACE,
    &["place", "p", "c", "r", "--workers", "7"],
    &["place", "p", "c", "r", "--workers", "64"],
];

// The files of the freed seat: the first candidate is best in both types, takes both seats, and is
// cut.
const PROGRAMMES: &[u8] = b"programme,type,quota\n101,SAY,1\n201,EA,1\n";

const CANDIDATES: &[u8] = b"candidate,list\n1,101;201\n2,201\n";

const RANKS: &[u8] = b"candidate,type,rank\n1,SAY,1\n2,SAY,2\n1,EA,1\n2,EA,2\n";

const PLACED: &[u8] = b"candidate,programme\n1,101\n2,201\n";

const TWENTY_FIVE_PROGRAMMES: &[u8] =
    b"programme,type,quota\n1,SAY,1\n2,SAY,1\n3,SAY,1\n4,SAY,1\n5,SAY,1\n6,SAY,1\n7,SAY,1\n8,SAY,1\n\
    9,SAY,1\n10,SAY,1\n11,SAY,1\n12,SAY,1\n13,SAY,1\n14,SAY,1\n15,SAY,1\n16,SAY,1\n17,SAY,1\n\
    18,SAY,1\n19,SAY,1\n20,SAY,1\n21,SAY,1\n22,SAY,1\n23,SAY,1\n24,SAY,1\n25,SAY,1\n";

// The only candidate of theirs has a rank.
const ONE_RANK: &[u8] = b"candidate,type,rank\n1,SAY,1\n";

// What a run came to.
#[derive(Drop)]
struct Ran {
    status: Status,
    out: MemSink,
    notes: MemSink,
    faults: u64,
    calls: u64,
}

fn words(alloc: Global, texts: &[&str]) -> Result<Vec<String>, AllocError> {
    let mut words = Vec::new(alloc);
    for text in texts {
        words.push(String::from_str(alloc, text)?)?;
    }
    Ok(words)
}

// A shelf with these files.
fn shelf(alloc: Global, files: &[(&str, &[u8])]) -> Result<MemShelf, AllocError> {
    let mut shelf = MemShelf::new(alloc);
    for (name, bytes) in files {
        shelf.add(String::from_str(alloc, name)?, bytes.to_vec(alloc)?)?;
    }
    Ok(shelf)
}

// Runs these words over this shelf, with these sinks and this gate.
fn run_on(
    rt: &(impl Threads + Sync),
    alloc: Global,
    texts: &[&str],
    shelf: &mut MemShelf,
    (out, notes): (&mut MemSink, &mut MemSink),
    gate: &impl Gate,
) -> Result<Status, AllocError> {
    let words = words(alloc, texts)?;
    let status = run_words(rt, alloc, &words, shelf, out, notes, gate);
    Ok(status)
}

// Runs these words over this shelf, with this gate.
fn run(
    rt: &(impl Threads + Sync),
    alloc: Global,
    texts: &[&str],
    mut shelf: MemShelf,
    gate: &impl Gate,
) -> Result<Ran, AllocError> {
    let mut out = MemSink::new(alloc, 16, 65_536)?;
    let mut notes = MemSink::new(alloc, 16, 65_536)?;
    let status = run_on(rt, alloc, texts, &mut shelf, (&mut out, &mut notes), gate)?;
    Ok(Ran {
        status,
        out,
        notes,
        faults: shelf.faults(),
        calls: shelf.calls(),
    })
}

// Runs these words over this shelf, with this gate, and compares the number of the status, the text
// and the line, how often the shelf failed, and how often it was called: a file of one piece has an
// open and two takes.
fn ends(
    rt: &(impl Threads + Sync + Abort),
    alloc: Global,
    texts: &[&str],
    shelf: MemShelf,
    gate: &impl Gate,
    wanted: (u8, &[u8], &[u8], u64, u64),
) -> Result<Status, Fail> {
    let ran = run(rt, alloc, texts, shelf, gate)?;
    let (out, notes) = (ran.out.bytes(), ran.notes.bytes());
    let ended = (ran.status.code(), out, notes, ran.faults, ran.calls);
    assert_eq!(rt; ended, wanted);
    Ok(ran.status)
}

// The words of `place`, four of them.
fn place_words(alloc: Global) -> Result<Vec<String>, AllocError>
    ensures { IfOk result (λ words. length words.items ≡ 4) }
{
    let place = String::from_str(alloc, "place")?;
    let programmes = String::from_str(alloc, "p")?;
    let candidates = String::from_str(alloc, "c")?;
    let ranks = String::from_str(alloc, "r")?;
    Ok(vec![in alloc; place, programmes, candidates, ranks]?)
}

// The market of these files.
fn problem_of(
    rt: &(impl Threads + Sync),
    alloc: Global,
    mut shelf: MemShelf,
) -> Result<Problem, Stop> {
    let words = place_words(alloc)?;
    let inputs = Inputs::read(rt, alloc, &words, &mut shelf, 2)?;
    Ok(Problem::build(rt, alloc, inputs, 2)?)
}

// The rounds, the cuts and the turns of these files, which two workers place.
fn counts_of<R: Threads + Sync>(
    rt: &R,
    alloc: Global,
    shelf: MemShelf,
) -> Result<(u32, u32, u64), Stop> {
    counts_by::<R, Brand>(rt, alloc, shelf, Blank::new(1))
}

// The same with a counter of turns of any ledger.
fn counts_by<R: Threads + Sync, L: Ledger>(
    rt: &R,
    alloc: Global,
    shelf: MemShelf,
    blank: Blank,
) -> Result<(u32, u32, u64), Stop>
    requires ledger { (blank.name ≡ L.name) × (blank.parts ≡ L.parts) × (0 < blank.parts) }
{
    let problem = problem_of(rt, alloc, shelf)?;
    let mut turns = Steps::<L>::new(blank);
    let outcome = Rounds::new(2, &OpenGate).place(rt, alloc, &problem.market, &mut turns)?;
    Ok((outcome.rounds, outcome.cuts, outcome.turns))
}

// A shelf with the files of a market.
fn files_of(alloc: Global, market: &Worked) -> Result<MemShelf, AllocError> {
    shelf(
        alloc,
        &[
            ("p", market.programmes),
            ("c", market.candidates),
            ("r", market.ranks),
        ],
    )
}

// Each market has so many rounds, cuts and turns.
fn are_counted(
    rt: &(impl Threads + Sync + Abort),
    alloc: Global,
    markets: &[Worked],
) -> Result<(), Fail> {
    for market in markets {
        let found = counts_of(rt, alloc, files_of(alloc, market)?);
        assert_eq!(rt; found.ok(), Some(market.counts));
    }
    Ok(())
}

#[test]
fn only_what_a_cut_changed_is_run_again(rt: HostRuntime) -> Result<(), Fail> {
    are_counted(&rt, rt.alloc(), &MARKETS)
}

// These words print this of a market, and their workers draw as many turns as it takes.
fn prints(
    rt: &(impl Threads + Sync + Abort),
    alloc: Global,
    texts: &[&str],
    market: &Worked,
    text: &[u8],
) -> Result<(), Fail> {
    let (_rounds, _cuts, turns) = market.counts;
    let gate = Draws::none();
    let shelf = files_of(alloc, market)?;
    ends(rt, alloc, texts, shelf, &gate, (0, text, b"", 0, 9))?;
    assert_eq!(rt; gate.several(), turns);
    Ok(())
}

// These words place each market.
fn are_placed(
    rt: &(impl Threads + Sync + Abort),
    alloc: Global,
    texts: &[&str],
    markets: &[Worked],
) -> Result<(), Fail> {
    for market in markets {
        prints(rt, alloc, texts, market, market.placed)?;
    }
    Ok(())
}

#[test]
fn files_without_a_fault_are_placed_by_any_number_of_workers(rt: HostRuntime) -> Result<(), Fail> {
    for texts in PLACE_BY {
        are_placed(&rt, rt.alloc(), texts, &MARKETS)?;
    }
    Ok(())
}

// A shelf with the files of a market, a placement file beside them, and a registrations file in
// which candidate 1 alone has registered.
fn files_with(alloc: Global, market: &Worked, placement: &[u8]) -> Result<MemShelf, AllocError> {
    let mut shelf = files_of(alloc, market)?;
    shelf.add(String::from_str(alloc, "h")?, placement.to_vec(alloc)?)?;
    shelf.add(
        String::from_str(alloc, "s")?,
        b"candidate\n1\n".to_vec(alloc)?,
    )?;
    Ok(shelf)
}

const CHAIN: [(&str, &[u8]); 3] = [
    ("p", CHAIN_PROGRAMMES),
    ("c", CHAIN_CANDIDATES),
    ("r", CHAIN_RANKS),
];

// What two workers print of the three rounds.
const CHAIN_BY_TWO: [(&[&str], &[u8]); 3] = [
    (&BY_TWO, CHAIN_PLACED),
    (&["base", "p", "c", "r", "--workers", "2"], CHAIN_BASE),
    (&["reasons", "p", "c", "r", "--workers", "2"], CHAIN_REASONS),
];

// Two workers draw the turns of the three rounds side by side, and print this.
fn are_drawn_side_by_side(
    rt: &(impl Threads + Sync + Abort),
    alloc: Global,
    texts: &[&str],
    printed: &[u8],
) -> Result<(), Fail> {
    let gate = DrawsInPairs::none();
    let shelf = shelf(alloc, &CHAIN)?;
    ends(rt, alloc, texts, shelf, &gate, (0, printed, b"", 0, 9))?;
    assert_eq!(rt; gate.several(), 11);
    assert!(rt; !gate.has_given_up());
    Ok(())
}

#[test]
fn two_workers_draw_the_turns_of_three_rounds_side_by_side(rt: HostRuntime) -> Result<(), Fail> {
    for (texts, printed) in CHAIN_BY_TWO {
        are_drawn_side_by_side(&rt, rt.alloc(), texts, printed)?;
    }
    Ok(())
}

const FREED_SEAT: [(&str, &[u8]); 3] = [("p", PROGRAMMES), ("c", CANDIDATES), ("r", RANKS)];
