// Files and texts beside the codes 101, 202 and 303 and the candidates 7, 10000000146 and 8.

use super::{SeatList, placement_text, read_alone, read_placement, read_requests};
use place_base::FaultKind::{
    self, BadSeat, Duplicate, FieldCount, Header, LineTooLong, NotNumber, OutOfRange,
    UnknownCandidate, UnknownProgramme,
};
use place_base::{FileKind, Finder};
use record_files::{TableStop, duplicate_at};
use std::alloc::Global;
use std::test::Fail;

const CODES: [u64; 3] = [101, 202, 303];

const NUMBERS: [u64; 3] = [7, 10_000_000_146, 8];

// The programmes' codes.
struct Programmes;

impl Finder for Programmes {
    ghost use Rattle.placement_file.specs.declared.tests.TheConstants.{CODES};

    ghost numbers = { λ _. CODES };

    fn count(&self) -> u32 {
        3
    }

    fn number_at(&self, index: u32) -> u64 {
        CODES[index as usize]
    }

    fn find(&self, number: u64) -> Option<u32> {
        let index = CODES.iter().position(|code| number == *code)?;
        Some(index as u32)
    }
}

// The candidates' numbers.
struct Candidates;

impl Finder for Candidates {
    ghost use Rattle.placement_file.specs.declared.tests.TheConstants.{NUMBERS};

    ghost numbers = { λ _. NUMBERS };

    fn count(&self) -> u32 {
        3
    }

    fn number_at(&self, index: u32) -> u64 {
        NUMBERS[index as usize]
    }

    fn find(&self, number: u64) -> Option<u32> {
        let index = NUMBERS.iter().position(|other| number == *other)?;
        Some(index as u32)
    }
}

// A file, and what the candidates hold.
const PLACEMENTS: [(&str, [Option<u32>; 3]); 3] = [
    ("candidate,programme\n", [None, None, None]),
    (
        "\u{FEFF}candidate,programme\r\n\r\n8,0303\r\n\n10000000146,-\n007,202",
        [Some(1), None, Some(2)],
    ),
    (
        "candidate,programme\n10000000146,101\n",
        [None, Some(0), None],
    ),
];

#[test]
fn a_candidate_holds_what_the_row_says(rt: HostRuntime) -> Result<(), Fail> {
    hold(rt.alloc(), &PLACEMENTS)
}

// Fails where a file is read as another placement.
fn hold(alloc: Global, files: &[(&str, [Option<u32>; 3])]) -> Result<(), Fail> {
    for (text, held) in files {
        if text.len() > 1024 {
            return Err(Fail::new("a long text"));
        }
        let read = read_placement(alloc, text.as_bytes(), &Programmes, &Candidates)?;
        if read.as_slice() != held.as_slice() {
            return Err(Fail::new("another placement"));
        }
    }
    Ok(())
}

// A file, and its fault's line, field, kind and earlier line.
const FILES: [(&str, u32, u8, FaultKind, u32); 12] = [
    ("candidate,list\n", 1, 0, Header, 0),
    ("candidate,programme\n7,101,\n", 2, 0, FieldCount, 0),
    ("candidate,programme\n0,x\n", 2, 1, OutOfRange, 0),
    ("candidate,programme\n-,101\n", 2, 1, NotNumber, 0),
    ("candidate,programme\n7,\n", 2, 2, NotNumber, 0),
    ("candidate,programme\n7,--\n", 2, 2, NotNumber, 0),
    ("candidate,programme\n9,1000000000\n", 2, 2, OutOfRange, 0),
    ("candidate,programme\n9,404\n", 2, 1, UnknownCandidate, 0),
    ("candidate,programme\n9,-\n9,-\n", 2, 1, UnknownCandidate, 0),
    ("candidate,programme\n7,-\n\n07,101\n", 4, 1, Duplicate, 2),
    ("candidate,programme\n7,101\n7,404\n", 3, 1, Duplicate, 2),
    (
        "candidate,programme\n7,101\n8,404\n",
        3,
        2,
        UnknownProgramme,
        0,
    ),
];

#[test]
fn the_first_fault_is_told(rt: HostRuntime) -> Result<(), Fail> {
    tell_faults(rt.alloc(), &FILES)
}

// Reads each file, and fails where another fault is told.
fn tell_faults(alloc: Global, files: &[(&str, u32, u8, FaultKind, u32)]) -> Result<(), Fail> {
    for (text, line, field, kind, earlier) in files {
        let mut wanted = duplicate_at(FileKind::Placement, *line, *field, *earlier);
        wanted.kind = *kind;
        if text.len() > 1024 {
            return Err(Fail::new("a long text"));
        }
        let read = read_placement(alloc, text.as_bytes(), &Programmes, &Candidates);
        if read.err() != Some(TableStop::Fault(wanted)) {
            return Err(Fail::new("another fault"));
        }
    }
    Ok(())
}

#[test]
fn a_row_is_printed_for_each_candidate(rt: HostRuntime) -> Result<(), Fail> {
    let held = [Some(2), None, Some(0)];
    let text = placement_text(rt.alloc(), &held, &Programmes, &Candidates)?;
    if text.as_slice() != b"candidate,programme\n7,303\n10000000146,-\n8,101\n".as_slice() {
        return Err(Fail::new("another text"));
    }
    Ok(())
}

// Whether a candidate stands at an index, holds this code or none, and is found there.
fn has_seat(seats: &SeatList, index: u32, number: u64, code: Option<u32>) -> bool {
    if index >= seats.count() {
        return false;
    }
    let held = match seats.code_at(index) {
        Some(code) => Some(code.get()),
        None => None,
    };
    seats.number_at(index) == number && seats.find(number) == Some(index) && held == code
}

// The same candidates with either header; codes need no programmes file.
const SEATS: [&str; 2] = [
    "\u{FEFF}candidate,programme\r\n\r\n8,0303\r\n10000000146,-\n007,999999999",
    "candidate,programme,seat\n8,303,G\n10000000146,-,-\n7,999999999,R\n",
];

#[test]
fn a_placement_is_read_alone(rt: HostRuntime) -> Result<(), Fail> {
    hold_seats(rt.alloc(), &SEATS)
}

// Fails where a file has other candidates.
fn hold_seats(alloc: Global, files: &[&str]) -> Result<(), Fail> {
    for text in files {
        if text.len() > 1024 {
            return Err(Fail::new("a long text"));
        }
        let seats = read_alone(alloc, text.as_bytes())?;
        let all = has_seat(&seats, 0, 8, Some(303))
            && has_seat(&seats, 1, 10_000_000_146, None)
            && has_seat(&seats, 2, 7, Some(999_999_999));
        if !all || seats.count() != 3 || seats.find(9).is_some() {
            return Err(Fail::new("other candidates"));
        }
    }
    Ok(())
}

// A placement that is read alone, and its fault's line, field, kind and earlier line.
const ALONE: [(&str, u32, u8, FaultKind, u32); 13] = [
    ("", 1, 0, Header, 0),
    ("candidate,programme,seats\n", 1, 0, Header, 0),
    ("candidate,programme\n7,101,G\n", 2, 0, FieldCount, 0),
    ("candidate,programme,seat\n7,101\n", 2, 0, FieldCount, 0),
    ("candidate,programme,seat\n0,x,x\n", 2, 1, OutOfRange, 0),
    ("candidate,programme,seat\n7,x,x\n", 2, 2, NotNumber, 0),
    ("candidate,programme,seat\n7,-,G\n", 2, 3, BadSeat, 0),
    ("candidate,programme,seat\n7,101,-\n", 2, 3, BadSeat, 0),
    ("candidate,programme,seat\n7,101,\n", 2, 3, BadSeat, 0),
    ("candidate,programme,seat\n7,101,g\n", 2, 3, BadSeat, 0),
    ("candidate,programme,seat\n7,1,G\n7,2,X\n", 3, 3, BadSeat, 0),
    (
        "candidate,programme,seat\n7,1,G\n\n07,2,R\n",
        4,
        1,
        Duplicate,
        2,
    ),
    (
        "candidate,programme\n7,1\n8,-\n7,1000000000\n",
        4,
        2,
        OutOfRange,
        0,
    ),
];

#[test]
fn the_first_fault_alone_is_told(rt: HostRuntime) -> Result<(), Fail> {
    tell_alone(rt.alloc(), &ALONE)
}

// Reads each placement alone, and fails where another fault is told.
fn tell_alone(alloc: Global, files: &[(&str, u32, u8, FaultKind, u32)]) -> Result<(), Fail> {
    for (text, line, field, kind, earlier) in files {
        let mut wanted = duplicate_at(FileKind::Placement, *line, *field, *earlier);
        wanted.kind = *kind;
        if text.len() > 1024 {
            return Err(Fail::new("a long text"));
        }
        if read_alone(alloc, text.as_bytes()).err() != Some(TableStop::Fault(wanted)) {
            return Err(Fail::new("another fault"));
        }
    }
    Ok(())
}

#[test]
fn requests_may_repeat(rt: HostRuntime) -> Result<(), Fail> {
    let text = "\u{FEFF}candidate\r\n3\r\n\n99999999999\n003";
    let requests = read_requests(rt.alloc(), text.as_bytes())?;
    let numbers = [3, 99_999_999_999, 3];
    if requests.len() != numbers.len() {
        return Err(Fail::new("more or fewer requests"));
    }
    for (request, number) in requests.iter().zip(numbers.iter()) {
        if request.get() != *number {
            return Err(Fail::new("another request"));
        }
    }
    let none = read_requests(rt.alloc(), b"candidate\n")?;
    if !none.is_empty() {
        return Err(Fail::new("a request of nobody"));
    }
    Ok(())
}

// A registrations file, and its fault's line, field and kind.
const REQUESTS: [(&str, u32, u8, FaultKind); 7] = [
    ("", 1, 0, Header),
    ("\n\n", 1, 0, Header),
    ("candidates\n", 1, 0, Header),
    ("candidate\n1,2\n", 2, 0, FieldCount),
    ("candidate\n1\nx\n", 3, 1, NotNumber),
    ("candidate\n0\n", 2, 1, OutOfRange),
    ("candidate\n100000000000\n", 2, 1, OutOfRange),
];

#[test]
fn the_first_fault_of_requests_is_told(rt: HostRuntime) -> Result<(), Fail> {
    tell_requests(rt.alloc(), &REQUESTS)?;
    let mut long = Vec::from_slice(rt.alloc(), b"candidate\n")?;
    for _ in 0..1025u32 {
        long.push(b'1')?;
    }
    if long.len() > 2000 {
        return Err(Fail::new("a long text"));
    }
    let mut wanted = duplicate_at(FileKind::Registrations, 2, 0, 0);
    wanted.kind = LineTooLong;
    if read_requests(rt.alloc(), &long).err() != Some(TableStop::Fault(wanted)) {
        return Err(Fail::new("a long line is accepted"));
    }
    Ok(())
}

// Reads each registrations file, and fails where another fault is told.
fn tell_requests(alloc: Global, files: &[(&str, u32, u8, FaultKind)]) -> Result<(), Fail> {
    for (text, line, field, kind) in files {
        let mut wanted = duplicate_at(FileKind::Registrations, *line, *field, 0);
        wanted.kind = *kind;
        if text.len() > 1024 {
            return Err(Fail::new("a long text"));
        }
        if read_requests(alloc, text.as_bytes()).err() != Some(TableStop::Fault(wanted)) {
            return Err(Fail::new("another fault"));
        }
    }
    Ok(())
}
