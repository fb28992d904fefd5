// Each call of the shelf, each put of the text and each put of the line fails once, in turn.
ghost use Rattle.std.specs.Prelude.{◌<◌};

use super::{DESK, NUMBERS, PLACEMENT, REGISTERED, REQUESTS, shelf, words};
use crate::{OpenDesk, run_desk};
use place_edges::{MemShelf, MemSink};
use std::alloc::{AllocError, Global};
use std::process::Abort;
use std::sync::Wait;
use std::test::Fail;
use std::thread::Threads;

// A sink of pieces of so many bytes.
fn sink(alloc: Global, piece: usize) -> Result<MemSink, AllocError>
    requires { 0 < piece }
{
    MemSink::new(alloc, piece, 65_536)
}

// A shelf with the placement and these requests.
fn files(alloc: Global, requests: &[u8]) -> Result<MemShelf, AllocError> {
    shelf(alloc, &[("p", PLACEMENT), ("r", requests)])
}

// Runs these words over this shelf, with these sinks, and compares the number of the status and
// both texts.
fn ends_with(
    rt: &(impl Threads + Wait + Sync + Abort),
    alloc: Global,
    texts: &[&str],
    shelf: &mut MemShelf,
    (out, notes): (&mut MemSink, &mut MemSink),
    (code, text, line): (u8, &[u8], &[u8]),
) -> Result<(), Fail> {
    let words = words(alloc, texts)?;
    let status = run_desk(rt, alloc, &words, shelf, out, notes, &OpenDesk);
    let ended = (status.code(), out.bytes(), notes.bytes());
    assert_eq!(rt; ended, (code, text, line));
    Ok(())
}

// Where nothing fails any more, the next run over the same shelf is done.
fn is_done(
    rt: &(impl Threads + Wait + Sync + Abort),
    alloc: Global,
    shelf: &mut MemShelf,
) -> Result<(), Fail> {
    let (mut out, mut notes) = (sink(alloc, 16)?, sink(alloc, 16)?);
    let sinks = (&mut out, &mut notes);
    ends_with(rt, alloc, &DESK, shelf, sinks, (0, REGISTERED, NUMBERS))
}

// Where this call of the shelf fails, the run is a read fault, and the next one is done.
fn fails_at_read(
    rt: &(impl Threads + Wait + Sync + Abort),
    alloc: Global,
    read: u64,
) -> Result<(), Fail> {
    let mut shelf = files(alloc, REQUESTS)?;
    shelf.fail_at(read)?;
    let (mut out, mut notes) = (sink(alloc, 16)?, sink(alloc, 16)?);
    let sinks = (&mut out, &mut notes);
    let wanted = (4, b"".as_slice(), b"read fault\n".as_slice());
    ends_with(rt, alloc, &DESK, &mut shelf, sinks, wanted)?;
    assert_eq!(rt; (shelf.faults(), shelf.calls()), (1, read));
    is_done(rt, alloc, &mut shelf)?;
    assert_eq!(rt; shelf.faults(), 1);
    Ok(())
}

#[test]
fn a_read_that_fails_is_a_read_fault_and_the_next_run_is_done(rt: HostRuntime) -> Result<(), Fail> {
    // an open, a take of all bytes, and a take at the end, for each of the two files
    for read in 1..=6u64 {
        fails_at_read(&rt, rt.alloc(), read)?;
    }
    Ok(())
}

// Where this put of the text fails, the run is a write fault, and what was put before it stands.
// The next run is done.
fn fails_at_put(
    rt: &(impl Threads + Wait + Sync + Abort),
    alloc: Global,
    piece: usize,
    put: u64,
    front: &[u8],
) -> Result<(), Fail>
    requires { 0 < piece }
{
    let mut shelf = files(alloc, REQUESTS)?;
    let (mut out, mut notes) = (sink(alloc, piece)?, sink(alloc, 16)?);
    out.fail_at(put)?;
    let sinks = (&mut out, &mut notes);
    let wanted = (5, front, b"write fault\n".as_slice());
    ends_with(rt, alloc, &DESK, &mut shelf, sinks, wanted)?;
    assert_eq!(rt; out.faults(), 1);
    is_done(rt, alloc, &mut shelf)
}

// Each put of pieces of so many bytes fails in turn.
fn fail_at_each_put(
    rt: &(impl Threads + Wait + Sync + Abort),
    alloc: Global,
    piece: usize,
) -> Result<(), Fail>
    requires { 0 < piece }
{
    let mut front = Vec::new(alloc);
    let mut put = 1u64;
    for bytes in REGISTERED.chunks(piece) {
        fails_at_put(rt, alloc, piece, put, &front)?;
        front.extend_from_slice(bytes)?;
        put = put.saturating_add(1);
    }
    Ok(())
}

#[test]
fn a_put_that_fails_leaves_exactly_what_was_put_before_it(rt: HostRuntime) -> Result<(), Fail> {
    fail_at_each_put(&rt, rt.alloc(), 1)?;
    fail_at_each_put(&rt, rt.alloc(), 4)?;
    fail_at_each_put(&rt, rt.alloc(), 16)?;
    fail_at_each_put(&rt, rt.alloc(), 4096)
}

// A run, and what it comes to where each put of its line succeeds.
struct Ended {
    texts: &'static [&'static str],
    requests: &'static [u8],
    // Which put of the text fails, and 0 where none does.
    failing: u64,
    code: u8,
    text: &'static [u8],
    line: &'static [u8],
}

// A run for each status but want of memory.
const ENDED: [Ended; 5] = [
    Ended {
        texts: &DESK,
        requests: REQUESTS,
        failing: 0,
        code: 0,
        text: REGISTERED,
        line: NUMBERS,
    },
    Ended {
        texts: &["p"],
        requests: REQUESTS,
        failing: 0,
        code: 2,
        text: b"",
        line: b"words WordCount 2\n",
    },
    Ended {
        texts: &DESK,
        requests: b"candidate\n1\nx\n",
        failing: 0,
        code: 3,
        text: b"",
        line: b"fault registrations line 3 field 1 F03 NotNumber earlier 0\n",
    },
    Ended {
        texts: &["p", "x"],
        requests: REQUESTS,
        failing: 0,
        code: 4,
        text: b"",
        line: b"read fault\n",
    },
    Ended {
        texts: &DESK,
        requests: REQUESTS,
        failing: 2,
        code: 5,
        text: b"c",
        line: b"write fault\n",
    },
];

// Where this put of the line fails, the status and the text are as ever, and what was put of the
// line before it stands.
fn fails_at_note(
    rt: &(impl Threads + Wait + Sync + Abort),
    alloc: Global,
    ended: &Ended,
    put: u64,
    front: &[u8],
) -> Result<(), Fail> {
    let mut shelf = files(alloc, ended.requests)?;
    let (mut out, mut notes) = (sink(alloc, 1)?, sink(alloc, 1)?);
    out.fail_at(ended.failing)?;
    notes.fail_at(put)?;
    let sinks = (&mut out, &mut notes);
    let wanted = (ended.code, ended.text, front);
    ends_with(rt, alloc, ended.texts, &mut shelf, sinks, wanted)?;
    assert_eq!(rt; notes.faults(), 1);
    Ok(())
}

// Each put of one byte of the line fails in turn.
fn fail_at_each_note(
    rt: &(impl Threads + Wait + Sync + Abort),
    alloc: Global,
    ended: &Ended,
) -> Result<(), Fail> {
    let mut put = 1u64;
    for place in 0..ended.line.len() {
        fails_at_note(rt, alloc, ended, put, &ended.line[..place])?;
        put = put.saturating_add(1);
    }
    Ok(())
}

#[test]
fn notes_that_fail_at_any_put_have_a_prefix_of_the_line(rt: HostRuntime) -> Result<(), Fail> {
    for ended in &ENDED {
        fail_at_each_note(&rt, rt.alloc(), ended)?;
    }
    Ok(())
}
