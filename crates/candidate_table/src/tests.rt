// Files at the edge of each rule, beside the codes 101, 202 and 303.
ghost use Rattle.std.specs.Prelude.{◌≡◌, ◌≤◌, length, IfOk};

use super::{CandidateNumbers, CandidateTable};
use place_base::FaultKind::{
    self, Duplicate, FieldCount, Header, ListTooLong, NotNumber, OutOfRange, UnknownProgramme,
};
use place_base::{FileKind, Finder};
use record_files::{TableStop, duplicate_at};
use std::alloc::Global;
use std::sync::atomic::Ordering::SeqCst;
use std::sync::atomic::{AtomicBool, AtomicU32};
use std::test::Fail;
use std::thread::Threads;

// Any table of numbers serves as the programmes' codes.
fn codes<R: Threads + Sync>(rt: &R, alloc: Global) -> Result<CandidateTable, TableStop> {
    let bytes = b"candidate,list\n101,\n202,\n303,\n";
    CandidateTable::read(rt, alloc, bytes, 1, &CandidateNumbers::new(alloc))
}

// A table read, of which no more is known than its type says: a file written out would be computed
// in each goal.
fn read<R: Threads + Sync>(
    rt: &R,
    alloc: Global,
    bytes: &[u8],
    codes: &CandidateTable,
) -> Result<CandidateTable, TableStop>
    requires { length bytes.now ≤ 1024 }
    ensures { IfOk result (λ table. length table.numbers ≡ length table.lists) }
{
    let table = CandidateTable::read(rt, alloc, bytes, 64, codes)?;
    Ok(table)
}

// Whether the table has this candidate at an index, with this list, and finds the number there.
fn has_candidate(table: &CandidateTable, index: u32, number: u64, list: &[u32]) -> bool
    requires { length table.now.numbers ≡ length table.now.lists }
{
    if index >= table.count() {
        return false;
    }
    let found = table.list(index);
    table.number_at(index) == number && table.find(number) == Some(index) && found == list
}

#[test]
fn numbers_and_lists_stand_in_file_order(rt: HostRuntime) -> Result<(), Fail> {
    let codes = codes(&rt, rt.alloc())?;
    let bytes = b"candidate,list\r\n10000000146,303;0101\r\n\r\n7,\r\n99999999999,202";
    let table = read(&rt, rt.alloc(), bytes, &codes)?;
    holds_all(table)
}

// Fails where the table is another than that of the test's file.
fn holds_all(table: CandidateTable) -> Result<(), Fail>
    requires { length table.numbers ≡ length table.lists }
{
    let candidates = has_candidate(&table, 0, 10_000_000_146, &[2, 0])
        && has_candidate(&table, 1, 7, &[])
        && has_candidate(&table, 2, 99_999_999_999, &[1]);
    if !candidates || table.count() != 3 || table.find(8).is_some() {
        return Err(Fail::new("another table"));
    }
    let (numbers, lists) = table.into_parts();
    if numbers.count() != 3 || numbers.find(7) != Some(1) || lists.len() != 3 {
        return Err(Fail::new("other parts"));
    }
    Ok(())
}

// A file, and its fault's line, field, kind and earlier line.
const FILES: [(&str, u32, u8, FaultKind, u32); 16] = [
    ("candidates,list\n", 1, 0, Header, 0),
    ("candidate,list\n1,101,\n", 2, 0, FieldCount, 0),
    ("candidate,list\n0,x\n", 2, 1, OutOfRange, 0),
    ("candidate,list\n100000000000,101\n", 2, 1, OutOfRange, 0),
    ("candidate,list\n1,101\n2,\n01,202\n", 4, 1, Duplicate, 2),
    ("candidate,list\n1,101\n1,404\n", 3, 1, Duplicate, 2),
    ("candidate,list\n1,101\n1,101;\n", 3, 2, NotNumber, 0),
    ("candidate,list\n1,0;x\n", 2, 2, OutOfRange, 0),
    ("candidate,list\n1,x;0\n", 2, 2, NotNumber, 0),
    ("candidate,list\n1,1000000000\n", 2, 2, OutOfRange, 0),
    ("candidate,list\n1,101;404\n", 2, 2, UnknownProgramme, 0),
    ("candidate,list\n1,404;404\n", 2, 2, UnknownProgramme, 0),
    (
        "candidate,list\n1,\n2,101;202;0101;404\n",
        3,
        2,
        Duplicate,
        3,
    ),
    (
        "candidate,list\n1,x;0;1;1;1;1;1;1;1;1;1;1;1;1;1;1;1;1;1;1;1;1;1;1;1\n",
        2,
        2,
        ListTooLong,
        0,
    ),
    (
        "candidate,list\n1,;;;;;;;;;;;;;;;;;;;;;;;;\n",
        2,
        2,
        ListTooLong,
        0,
    ),
    (
        "candidate,list\n1,;;;;;;;;;;;;;;;;;;;;;;;\n",
        2,
        2,
        NotNumber,
        0,
    ),
];

#[test]
fn the_first_fault_is_told(rt: HostRuntime) -> Result<(), Fail> {
    let codes = codes(&rt, rt.alloc())?;
    for pieces in &[1, 2, 7, 64] {
        tell_faults(&rt, rt.alloc(), *pieces, &codes, &FILES)?;
    }
    Ok(())
}

// Reads each file beside the codes in so many pieces, and fails where another fault is told.
fn tell_faults<R: Threads + Sync>(
    rt: &R,
    alloc: Global,
    pieces: u32,
    codes: &CandidateTable,
    files: &[(&str, u32, u8, FaultKind, u32)],
) -> Result<(), Fail> {
    if pieces == 0 || pieces > 64 {
        return Err(Fail::new("a number of pieces"));
    }
    for (text, line, field, kind, earlier) in files {
        let mut wanted = duplicate_at(FileKind::Candidates, *line, *field, *earlier);
        wanted.kind = *kind;
        if text.len() > 1024 {
            return Err(Fail::new("a long text"));
        }
        let read = CandidateTable::read(rt, alloc, text.as_bytes(), pieces, codes);
        if read.err() != Some(TableStop::Fault(wanted)) {
            return Err(Fail::new("another fault"));
        }
    }
    Ok(())
}

// The codes of a table. Who looks for one is held until another look is begun.
#[derive(Drop)]
struct Meeting {
    codes: CandidateTable,
    looks: AtomicU32,
    // Whether one was held until the end.
    given_up: AtomicBool,
}

impl Meeting {
    // Waits so long, at most, for another look; false where there never was one.
    fn waits(&self) -> bool {
        for _ in 0..200_000_000u32 {
            if self.looks.load(SeqCst) >= 2 {
                return true;
            }
        }
        false
    }
}

impl Finder for Meeting {
    ghost use Rattle.candidate_table.specs.Table.{numbers_of};

    ghost numbers = { λ meeting. numbers_of meeting.codes.numbers };

    fn count(&self) -> u32 {
        self.codes.count()
    }

    fn number_at(&self, index: u32) -> u64 {
        self.codes.number_at(index)
    }

    fn find(&self, number: u64) -> Option<u32> {
        let _ = self.looks.fetch_add(1, SeqCst);
        if !self.waits() {
            self.given_up.store(true, SeqCst);
        }
        self.codes.find(number)
    }
}

#[test]
fn parts_are_read_side_by_side(rt: HostRuntime) -> Result<(), Fail> {
    let meeting = Meeting {
        codes: codes(&rt, rt.alloc())?,
        looks: AtomicU32::new(0),
        given_up: AtomicBool::new(false),
    };
    let bytes = b"candidate,list\n1,101\n2,202\n";
    let table = CandidateTable::read(&rt, rt.alloc(), bytes, 3, &meeting)?;
    let has_met = meeting.looks.load(SeqCst) == 2 && !meeting.given_up.load(SeqCst);
    if table.count() != 2 || !has_met {
        return Err(Fail::new("the parts did not meet"));
    }
    Ok(())
}
