// Second placements that can be followed by hand, and registrations files beside the candidates 7,
// 10000000146 and 8.

ghost use Rattle.std.specs.Prelude.{◌≡◌, length};

use crate::example::three_for_two;
use crate::{read_registrations, second_market};
use dictatorship::mechanism_plain;
use market::{Market, Placement};
use place_base::FaultKind::{
    self, Duplicate, FieldCount, Header, NotNumber, OutOfRange, UnknownCandidate,
};
use place_base::{FileKind, Finder};
use record_files::{TableStop, duplicate_at};
use stable_laws::mechanism_stable;
use std::alloc::{AllocError, Global};
use std::test::Fail;

// What the mechanism gives in the market of the seats left, where these have registered for what it
// gave first.
#[tactic(auto, unfolding(market::specs::Mechanism::mechanism))]
fn placed_again(alloc: Global, market: Market, registered: &[bool]) -> Result<Placement, AllocError>
    requires { length registered.now ≡ length market.lists }
{
    mechanism_stable(&market);
    let first = mechanism_plain(alloc, &market)?;
    let left = second_market(alloc, market, &first.placement, registered)?;
    let second = mechanism_plain(alloc, &left)?;
    Ok(second.placement)
}

// Who has registered of the three candidates for two seats, and what the second placement gives.
const SECONDS: [([bool; 3], [Option<u32>; 3]); 4] = [
    ([true, false, false], [None, None, Some(1)]),
    ([true, true, false], [None, None, None]),
    ([true, false, true], [None, None, Some(1)]),
    ([false, false, false], [None, None, Some(1)]),
];

#[test]
fn who_held_none_gets_a_seat_that_nobody_keeps(rt: HostRuntime) -> Result<(), Fail> {
    for (registered, held) in &SECONDS {
        let market = three_for_two(rt.alloc())?;
        let second = placed_again(rt.alloc(), market, registered)?;
        if second.held() != held.as_slice() {
            return Err(Fail::new("another second placement"));
        }
    }
    Ok(())
}

const NUMBERS: [u64; 3] = [7, 10_000_000_146, 8];

// The candidates' numbers.
struct Candidates;

impl Finder for Candidates {
    ghost use Rattle.second_placement.specs.declared.tests.TheConstants.{NUMBERS};

    ghost numbers = { λ _. NUMBERS };

    fn count(&self) -> u32 {
        3
    }

    fn number_at(&self, index: u32) -> u64 {
        NUMBERS[index as usize]
    }

    fn find(&self, number: u64) -> Option<u32> {
        let index = NUMBERS.iter().position(|other| number == *other)?;
        Some(index as u32)
    }
}

// A registrations file, and who has registered.
const REGISTRATIONS: [(&str, [bool; 3]); 3] = [
    ("candidate\n", [false, false, false]),
    ("\u{FEFF}candidate\r\n\r\n8\r\n\n007", [true, false, true]),
    ("candidate\n10000000146\n", [false, true, false]),
];

#[test]
fn whom_a_row_names_has_registered(rt: HostRuntime) -> Result<(), Fail> {
    for (text, registered) in &REGISTRATIONS {
        if text.len() > 1024 {
            return Err(Fail::new("a long text"));
        }
        let read = read_registrations(rt.alloc(), text.as_bytes(), &Candidates)?;
        if read.as_slice() != registered.as_slice() {
            return Err(Fail::new("others have registered"));
        }
    }
    Ok(())
}

// A registrations file, and its fault's line, field, kind and earlier line.
const FILES: [(&str, u32, u8, FaultKind, u32); 9] = [
    ("", 1, 0, Header, 0),
    ("candidate,programme\n", 1, 0, Header, 0),
    ("candidate\n7,101\n", 2, 0, FieldCount, 0),
    ("candidate\n7\n\nx\n", 4, 1, NotNumber, 0),
    ("candidate\n0\n", 2, 1, OutOfRange, 0),
    ("candidate\n9\n", 2, 1, UnknownCandidate, 0),
    ("candidate\n9\n9\n", 2, 1, UnknownCandidate, 0),
    ("candidate\n7\n\n007\n", 4, 1, Duplicate, 2),
    ("candidate\n8\n7\n8\n9\n", 4, 1, Duplicate, 2),
];

#[test]
fn the_first_fault_is_told(rt: HostRuntime) -> Result<(), Fail> {
    for (text, line, field, kind, earlier) in &FILES {
        let mut wanted = duplicate_at(FileKind::Registrations, *line, *field, *earlier);
        wanted.kind = *kind;
        if text.len() > 1024 {
            return Err(Fail::new("a long text"));
        }
        let read = read_registrations(rt.alloc(), text.as_bytes(), &Candidates);
        if read.err() != Some(TableStop::Fault(wanted)) {
            return Err(Fail::new("another fault"));
        }
    }
    Ok(())
}
