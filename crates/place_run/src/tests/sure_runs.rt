// Runs over a shelf and a sink that never fail.
use super::{CANDIDATES, PLACE, PROGRAMMES, RANKS, words};
use crate::run_words;
use gate_workers::OpenGate;
use place_edges::{MemSink, SureShelf, SureSink};
use std::alloc::{AllocError, Global};
use std::process::Abort;
use std::test::Fail;
use std::thread::Threads;

const BAD_RANKS: &[u8] = b"candidate,type,rank\n1,say,1\n";

// Words, the files beside which all others are empty, the number of the status, and its line.
const ENDS: [(&[&str], &[(&str, &[u8])], u8, &[u8]); 5] = [
    (
        &PLACE,
        &[("p", PROGRAMMES), ("c", CANDIDATES), ("r", RANKS)],
        0,
        b"",
    ),
    (&["plan"], &[], 2, b"words UnknownCommand 1\n"),
    (
        &PLACE,
        &[],
        3,
        b"fault programmes line 1 field 0 F01 Header earlier 0\n",
    ),
    (
        &PLACE,
        &[("p", PROGRAMMES), ("c", CANDIDATES), ("r", BAD_RANKS)],
        3,
        b"fault ranks line 2 field 2 F05 BadTypeName earlier 0\n",
    ),
    // nobody holds a seat
    (
        &["audit", "p", "c", "r", "h"],
        &[
            ("p", PROGRAMMES),
            ("c", CANDIDATES),
            ("r", RANKS),
            ("h", b"candidate,programme\n"),
        ],
        7,
        b"",
    ),
];

// A sure shelf with these files.
fn sure_shelf(alloc: Global, files: &[(&str, &[u8])]) -> Result<SureShelf, AllocError> {
    let mut shelf = SureShelf::new(alloc);
    for (name, bytes) in files {
        shelf.add(String::from_str(alloc, name)?, bytes.to_vec(alloc)?)?;
    }
    Ok(shelf)
}

// A run over this shelf and a sure sink ends with this number and line.
fn ends_surely(
    rt: &(impl Threads + Sync + Abort),
    alloc: Global,
    texts: &[&str],
    mut shelf: SureShelf,
    code: u8,
    note: &[u8],
) -> Result<(), Fail> {
    let words = words(alloc, texts)?;
    let mut out = SureSink::new();
    let mut notes = MemSink::new(alloc, 16, 65_536)?;
    let status = run_words(
        rt, alloc, &words, &mut shelf, &mut out, &mut notes, &OpenGate,
    );
    assert_eq!(rt; status.code(), code);
    assert_eq!(rt; notes.bytes(), note);
    Ok(())
}

#[test]
fn over_a_sure_shelf_and_a_sure_sink_nothing_fails_by_itself(rt: HostRuntime) -> Result<(), Fail> {
    let alloc = rt.alloc();
    for (texts, files, code, note) in ENDS {
        ends_surely(&rt, alloc, texts, sure_shelf(alloc, files)?, code, note)?;
    }
    Ok(())
}
