// Each call of a shelf fails once, in turn.
use super::files_with;
use super::refused_in_turn::run_failing;
use super::worked_markets::{MARKETS, Worked};
use place_edges::MemShelf;
use std::alloc::Global;
use std::process::Abort;
use std::test::Fail;
use std::thread::Threads;

// The words of each command, how often it calls the shelf, and what it prints of the freed seat.
const COMMANDS: [(&[&str], u64, &[u8]); 5] = [
    (
        &["place", "p", "c", "r"],
        9,
        b"candidate,programme\n1,101\n2,201\n",
    ),
    (
        &["base", "p", "c", "r"],
        9,
        b"programme,quota,held,base\n101,1,1,1\n201,1,1,2\n",
    ),
    (
        &["reasons", "p", "c", "r"],
        9,
        b"candidate,programme,reason,base\n1,101,PLACED,-\n1,201,BELOW,-\n2,201,PLACED,-\n",
    ),
    (&["audit", "p", "c", "r", "h"], 12, b"STABLE\n"),
    (
        &["second", "p", "c", "r", "h", "s"],
        15,
        b"candidate,programme\n1,-\n2,-\n",
    ),
];

// A run over this shelf ends with this number, so many faults and calls of the shelf, this text and
// this line.
fn ends_over(
    rt: &(impl Threads + Sync + Abort),
    alloc: Global,
    texts: &[&str],
    shelf: &mut MemShelf,
    wanted: (u8, u64, u64, &[u8], &[u8]),
) -> Result<(), Fail> {
    let ran = run_failing(rt, alloc, texts, shelf, 16, 0, 0)?;
    let (out, notes) = (ran.out.bytes(), ran.notes.bytes());
    assert_eq!(rt;
        (ran.status.code(), ran.faults, ran.calls, out, notes),
        wanted
    );
    Ok(())
}

// Where this call of the shelf fails, the run is a read fault, ends there and prints nothing. A
// second run over the same shelf is done, by as many calls as without a fault.
fn fails_at_call(
    rt: &(impl Threads + Sync + Abort),
    alloc: Global,
    texts: &[&str],
    mut shelf: MemShelf,
    call: u64,
    (calls, text): (u64, &[u8]),
) -> Result<(), Fail> {
    shelf.fail_at(call)?;
    let failed = (4, 1, call, b"".as_slice(), b"read fault\n".as_slice());
    ends_over(rt, alloc, texts, &mut shelf, failed)?;
    let done = (0, 1, calls.saturating_add(call), text, b"".as_slice());
    ends_over(rt, alloc, texts, &mut shelf, done)
}

// Each call fails in turn.
fn fail_at_each_call(
    rt: &(impl Threads + Sync + Abort),
    alloc: Global,
    market: &Worked,
    texts: &[&str],
    calls: u64,
    text: &[u8],
) -> Result<(), Fail> {
    for call in 1..=calls {
        let shelf = files_with(alloc, market, market.placed)?;
        fails_at_call(rt, alloc, texts, shelf, call, (calls, text))?;
    }
    Ok(())
}

#[test]
fn whichever_read_fails_the_run_is_a_read_fault_and_the_next_is_done(
    rt: HostRuntime,
) -> Result<(), Fail> {
    for (texts, calls, text) in COMMANDS {
        fail_at_each_call(&rt, rt.alloc(), &MARKETS[1], texts, calls, text)?;
    }
    Ok(())
}
