// Runs over files in memory, which a reader can check by hand, and one clerk's calls.
ghost use Rattle.std.specs.Prelude.{◌≡◌, IfSome, length};
ghost use Rattle.registration_desk.specs.Desks.{AllNew, key_of, at_opening};

// Gates that hold clerks and count their calls.
mod gates;
// Each read and each put fails once.
mod refused_in_turn;

use self::gates::{Come, Meeting, OneWay};
use crate::{
    Clerk, Desk, DeskGate, DeskPoint, DeskState, DeskStatus, OpenDesk, Reply, run_desk, serve_next,
};
use place_edges::{MemShelf, MemSink, SureShelf, SureSink};
use placement_file::{read_alone, read_requests};
use std::alloc::{AllocError, Global};
use std::process::Abort;
use std::sync::Wait;
use std::test::Fail;
use std::thread::Threads;

// Candidates 1 and 3 are placed, and 2 holds none.
const PLACEMENT: &[u8] = b"candidate,programme\n1,101\n2,-\n3,201\n";

const REQUESTS: &[u8] = b"candidate\n3\n2\n9\n1\n3\n";

const REGISTERED: &[u8] = b"candidate\n1\n3\n";

const NUMBERS: &[u8] = b"registered 2 again 1 notplaced 1 unknown 1\n";

const DESK: [&str; 2] = ["p", "r"];

const BY_TWO: [&str; 4] = ["p", "r", "--clerks", "2"];

// The same by one clerk, by two, by as many as when the words say nothing, and by the most.
const DESK_BY: [&[&str]; 4] = [
    &["p", "r", "--clerks", "1"],
    &BY_TWO,
    &DESK,
    &["p", "r", "--clerks", "64"],
];

// What a run came to.
#[derive(Drop)]
struct Ran {
    status: DeskStatus,
    out: MemSink,
    notes: MemSink,
    faults: u64,
    calls: u64,
}

fn words(alloc: Global, texts: &[&str]) -> Result<Vec<String>, AllocError> {
    let mut words = Vec::new(alloc);
    for text in texts {
        words.push(String::from_str(alloc, text)?)?;
    }
    Ok(words)
}

// A shelf with these files.
fn shelf(alloc: Global, files: &[(&str, &[u8])]) -> Result<MemShelf, AllocError> {
    let mut shelf = MemShelf::new(alloc);
    for (name, bytes) in files {
        shelf.add(String::from_str(alloc, name)?, bytes.to_vec(alloc)?)?;
    }
    Ok(shelf)
}

// Runs these words over this shelf, with this gate.
fn run(
    rt: &(impl Threads + Wait + Sync),
    alloc: Global,
    texts: &[&str],
    mut shelf: MemShelf,
    gate: &impl DeskGate,
) -> Result<Ran, AllocError> {
    let mut out = MemSink::new(alloc, 4, 65_536)?;
    let mut notes = MemSink::new(alloc, 16, 65_536)?;
    let words = words(alloc, texts)?;
    let status = run_desk(rt, alloc, &words, &mut shelf, &mut out, &mut notes, gate);
    Ok(Ran {
        status,
        out,
        notes,
        faults: shelf.faults(),
        calls: shelf.calls(),
    })
}

// Runs these words over this shelf, with this gate, and compares the number of the status, both
// texts, how often the shelf failed, and how often it was called: a file of one piece has an open
// and two takes.
fn ends(
    rt: &(impl Threads + Wait + Sync + Abort),
    alloc: Global,
    texts: &[&str],
    shelf: MemShelf,
    gate: &impl DeskGate,
    (code, out, note, faults, calls): (u8, &[u8], &[u8], u64, u64),
) -> Result<DeskStatus, Fail> {
    let ran = run(rt, alloc, texts, shelf, gate)?;
    let ended = (ran.status.code(), ran.out.bytes(), ran.notes.bytes());
    assert_eq!(rt;
        (ended, ran.faults, ran.calls),
        ((code, out, note), faults, calls)
    );
    Ok(ran.status)
}

#[test]
fn two_clerks_serve_side_by_side(rt: HostRuntime) -> Result<(), Fail> {
    let alloc = rt.alloc();
    let gate = Meeting::new();
    let shelf = shelf(alloc, &[("p", PLACEMENT), ("r", b"candidate\n1\n3\n")])?;
    let note = b"registered 2 again 0 notplaced 0 unknown 0\n";
    ends(
        &rt,
        alloc,
        &BY_TWO,
        shelf,
        &gate,
        (0, REGISTERED, note, 0, 6),
    )?;
    assert!(rt; !gate.has_given_up());
    assert_eq!(rt; gate.counts(), ([1, 1, 1, 1], 0));
    Ok(())
}

// What one clerk comes to who serves five requests.
const ONE_WAY: [Come; 10] = [
    (0, 0, DeskPoint::Before),
    (0, 0, DeskPoint::After),
    (0, 1, DeskPoint::Before),
    (0, 1, DeskPoint::After),
    (0, 2, DeskPoint::Before),
    (0, 2, DeskPoint::After),
    (0, 3, DeskPoint::Before),
    (0, 3, DeskPoint::After),
    (0, 4, DeskPoint::Before),
    (0, 4, DeskPoint::After),
];

#[test]
fn one_clerk_comes_to_both_points_of_each_of_its_calls(rt: HostRuntime) -> Result<(), Fail> {
    let alloc = rt.alloc();
    let gate = OneWay::new(ONE_WAY);
    let shelf = shelf(alloc, &[("p", PLACEMENT), ("r", REQUESTS)])?;
    let wanted = (0, REGISTERED, NUMBERS, 0, 6);
    ends(&rt, alloc, DESK_BY[0], shelf, &gate, wanted)?;
    assert_eq!(rt; gate.counts(), (10, 10));
    Ok(())
}

// Four thousand requests of four candidates.
fn many_requests(alloc: Global) -> Result<Vec<u8>, AllocError> {
    let mut bytes = b"candidate\n".to_vec(alloc)?;
    for _ in 0..1000u32 {
        bytes.extend_from_slice(b"3\n2\n9\n1\n")?;
    }
    Ok(bytes)
}

#[test]
fn any_number_of_clerks_answers_four_thousand_requests(rt: HostRuntime) -> Result<(), Fail> {
    let alloc = rt.alloc();
    let requests = many_requests(alloc)?;
    let note = b"registered 2 again 1998 notplaced 1000 unknown 1000\n";
    for texts in DESK_BY {
        let shelf = shelf(alloc, &[("p", PLACEMENT), ("r", requests.as_slice())])?;
        ends(
            &rt,
            alloc,
            texts,
            shelf,
            &OpenDesk,
            (0, REGISTERED, note, 0, 6),
        )?;
    }
    Ok(())
}

// What several clerks may share, and one may hand to another.
fn crosses_threads<T: Send + Sync>(_value: &T) {}

// A desk is shared by its clerks, and a clerk moves to a thread.
fn moves_to_threads(desk: &Desk, clerk: &Clerk) {
    crosses_threads(desk);
    crosses_threads(clerk);
}

// Serves until the one clerk of a desk has no request left, and closes the desk.
fn one_clerk<R: Wait>(
    rt: &R,
    alloc: Global,
    desk: Desk,
    mut crew: Vec<Clerk>,
) -> Option<(DeskState, u32)>
    requires new { AllNew desk crew.items }
    requires one { (length crew.items ≡ 1) × ((key_of desk).clerks ≡ 1) }
    ensures { IfSome result (λ r. r.1 ≡ length (at_opening desk).requests) }
{
    let mut clerk = crew.pop()?;
    while clerk.left() > 0 {
        serve_next(rt, &desk, &mut clerk);
    }
    let served = clerk.served();
    let clerks = Vec::from_array(alloc, [clerk]).ok()?;
    Some((desk.close(clerks), served))
}

#[test]
fn each_request_has_its_own_reply(rt: HostRuntime) -> Result<(), Fail> {
    let alloc = rt.alloc();
    let seats = read_alone(alloc, PLACEMENT)?;
    let requests = read_requests(alloc, REQUESTS)?;
    let (desk, crew) = Desk::open(alloc, seats, requests, 1)?;
    for clerk in crew.iter() {
        moves_to_threads(&desk, clerk);
    }
    let (closed, served) = one_clerk(&rt, alloc, desk, crew).ok_or("memory")?;
    crosses_threads(&closed);
    assert!(rt; served == 5 && closed.total() == 2);
    let wanted = [
        Reply::Registered(1),
        Reply::NotPlaced,
        Reply::Unknown,
        Reply::Registered(2),
        Reply::Already(1),
    ];
    assert!(rt; closed.calls() == 5);
    for (index, reply) in wanted.iter().enumerate() {
        assert!(rt; closed.reply(index as u32) == *reply);
    }
    Ok(())
}

#[test]
fn nothing_fails_over_a_sure_shelf_and_a_sure_sink(rt: HostRuntime) -> Result<(), Fail> {
    let alloc = rt.alloc();
    let mut shelf = SureShelf::new(alloc);
    for (name, bytes) in [("p", PLACEMENT), ("r", REQUESTS)] {
        shelf.add(String::from_str(alloc, name)?, bytes.to_vec(alloc)?)?;
    }
    let words = words(alloc, &DESK)?;
    let mut out = SureSink::new();
    let mut notes = SureSink::new();
    let status = run_desk(
        &rt, alloc, &words, &mut shelf, &mut out, &mut notes, &OpenDesk,
    );
    assert_eq!(rt; status, DeskStatus::Done);
    Ok(())
}
