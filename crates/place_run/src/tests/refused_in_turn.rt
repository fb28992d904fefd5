// Each put of a sink fails once, in turn.
ghost use Rattle.std.specs.Prelude.{◌<◌};

use super::worked_markets::{MARKETS, Worked};
use super::{
    CANDIDATES, FREED_SEAT, PLACE, PLACED, PROGRAMMES, RANKS, Ran, files_with, run_on, shelf,
};
use gate_workers::OpenGate;
use place_edges::{MemShelf, MemSink};
use std::alloc::{AllocError, Global};
use std::process::Abort;
use std::test::Fail;
use std::thread::Threads;

// A sink of pieces of so many bytes, whose put of this number fails; the number 0 is no put's.
fn sink(alloc: Global, piece: usize, put: u64) -> Result<MemSink, AllocError>
    requires { 0 < piece }
{
    let mut sink = MemSink::new(alloc, piece, 1 << 20)?;
    sink.fail_at(put)?;
    Ok(sink)
}

// Runs these words over this shelf. A put of `out`, in pieces of so many bytes, fails, and one of
// `notes`, in pieces of one byte.
pub(super) fn run_failing(
    rt: &(impl Threads + Sync),
    alloc: Global,
    texts: &[&str],
    shelf: &mut MemShelf,
    piece: usize,
    put: u64,
    note_put: u64,
) -> Result<Ran, AllocError>
    requires { 0 < piece }
{
    let mut out = sink(alloc, piece, put)?;
    let mut notes = sink(alloc, 1, note_put)?;
    let status = run_on(rt, alloc, texts, shelf, (&mut out, &mut notes), &OpenGate)?;
    Ok(Ran {
        status,
        out,
        notes,
        faults: shelf.faults(),
        calls: shelf.calls(),
    })
}

// The words of each command over the files of the freed seat, or of a market that is made, and the
// text that it writes.
const TEXTS: [(&[&str], &[u8]); 6] = [
    (
        &["place", "p", "c", "r"],
        b"candidate,programme\n1,101\n2,201\n",
    ),
    (
        &["base", "p", "c", "r"],
        b"programme,quota,held,base\n101,1,1,1\n201,1,1,2\n",
    ),
    (
        &["reasons", "p", "c", "r"],
        b"candidate,programme,reason,base\n1,101,PLACED,-\n1,201,BELOW,-\n2,201,PLACED,-\n",
    ),
    (&["audit", "p", "c", "r", "h"], b"STABLE\n"),
    (
        &["second", "p", "c", "r", "h", "s"],
        b"candidate,programme\n1,-\n2,-\n",
    ),
    (
        &["make", "1", "0", "0", "1"],
        b"candidates 0\nprogrammes 0\ntypes 1\nentries 0\nrounds 1\ncuts 0\nturns 0\n\
placed 0\nseats 0\n",
    ),
];

// Where this put fails, the run is a write fault, and what was put before it stands.
fn fails_at_put(
    rt: &(impl Threads + Sync + Abort),
    alloc: Global,
    texts: &[&str],
    market: &Worked,
    piece: usize,
    put: u64,
    front: &[u8],
) -> Result<(), Fail>
    requires { 0 < piece }
{
    let mut shelf = files_with(alloc, market, market.placed)?;
    let ran = run_failing(rt, alloc, texts, &mut shelf, piece, put, 0)?;
    let ended = (
        ran.status.code(),
        ran.out.faults(),
        ran.out.bytes(),
        ran.notes.bytes(),
    );
    assert_eq!(rt; ended, (5, 1, front, b"write fault\n".as_slice()));
    Ok(())
}

// Each put of pieces of so many bytes fails in turn.
fn fail_at_each_put(
    rt: &(impl Threads + Sync + Abort),
    alloc: Global,
    texts: &[&str],
    text: &[u8],
    market: &Worked,
    piece: usize,
) -> Result<(), Fail>
    requires { 0 < piece }
{
    let mut front = Vec::new(alloc);
    let mut put = 1u64;
    for bytes in text.chunks(piece) {
        fails_at_put(rt, alloc, texts, market, piece, put, &front)?;
        front.extend_from_slice(bytes)?;
        put = put.saturating_add(1);
    }
    Ok(())
}

#[test]
fn a_put_that_fails_leaves_exactly_what_was_put_before_it(rt: HostRuntime) -> Result<(), Fail> {
    let alloc = rt.alloc();
    for (texts, text) in TEXTS {
        fail_at_each_put(&rt, alloc, texts, text, &MARKETS[1], 1)?;
        fail_at_each_put(&rt, alloc, texts, text, &MARKETS[1], 16)?;
        fail_at_each_put(&rt, alloc, texts, text, &MARKETS[1], 4096)?;
    }
    Ok(())
}

// A run whose notes fail: its words and files, the put of `out` that fails too (the number 0 is no
// put's), the number of the status, what is on `out`, and the line, of which a run that ends with
// its text has nothing.
#[derive(Clone, Copy)]
struct Noted {
    texts: &'static [&'static str],
    files: &'static [(&'static str, &'static [u8])],
    put: u64,
    code: u8,
    out: &'static [u8],
    line: &'static [u8],
}

const NOTED: [Noted; 6] = [
    Noted {
        texts: &PLACE,
        files: &[("p", PROGRAMMES), ("c", b"candidate,list\nx,101\n")],
        put: 0,
        code: 3,
        out: b"",
        line: b"fault candidates line 2 field 1 F03 NotNumber earlier 0\n",
    },
    Noted {
        texts: &PLACE,
        files: &[("p", PROGRAMMES)],
        put: 0,
        code: 4,
        out: b"",
        line: b"read fault\n",
    },
    Noted {
        texts: &["plan"],
        files: &[],
        put: 0,
        code: 2,
        out: b"",
        line: b"words UnknownCommand 1\n",
    },
    // The first piece of the text is put.
    Noted {
        texts: &PLACE,
        files: &FREED_SEAT,
        put: 2,
        code: 5,
        out: b"candidate,progra",
        line: b"write fault\n",
    },
    Noted {
        texts: &PLACE,
        files: &FREED_SEAT,
        put: 0,
        code: 0,
        out: PLACED,
        line: b"",
    },
    // Nobody holds a seat.
    Noted {
        texts: &["audit", "p", "c", "r", "h"],
        files: &[
            ("p", PROGRAMMES),
            ("c", CANDIDATES),
            ("r", RANKS),
            ("h", b"candidate,programme\n"),
        ],
        put: 0,
        code: 7,
        out: b"BLOCKING,1,101\n",
        line: b"",
    },
];

// Where this put of notes fails, and so many did, status and `out` are the run's, and this front of
// the line was noted.
fn notes_fail_at_put(
    rt: &(impl Threads + Sync + Abort),
    alloc: Global,
    run: &Noted,
    put: u64,
    faults: u64,
    front: &[u8],
) -> Result<(), Fail> {
    let mut shelf = shelf(alloc, run.files)?;
    let ran = run_failing(rt, alloc, run.texts, &mut shelf, 16, run.put, put)?;
    let ended = (
        ran.status.code(),
        ran.out.bytes(),
        ran.notes.bytes(),
        ran.notes.faults(),
    );
    assert_eq!(rt; ended, (run.code, run.out, front, faults));
    Ok(())
}

// Each put of the line fails in turn, and a put behind the line is none.
fn notes_fail_at_each_put(
    rt: &(impl Threads + Sync + Abort),
    alloc: Global,
    run: &Noted,
) -> Result<(), Fail> {
    let line = run.line;
    for at in 0..line.len() {
        notes_fail_at_put(rt, alloc, run, at as u64 + 1, 1, &line[..at])?;
    }
    let behind = (line.len() as u64).saturating_add(1);
    notes_fail_at_put(rt, alloc, run, behind, 0, line)
}

#[test]
fn notes_that_fail_at_any_put_have_a_prefix_of_the_line_and_change_nothing_else(
    rt: HostRuntime,
) -> Result<(), Fail> {
    for run in NOTED {
        notes_fail_at_each_put(&rt, rt.alloc(), &run)?;
    }
    Ok(())
}
