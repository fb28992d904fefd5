// The opening of a desk, and the parts of its clerks.

ghost use Rattle.std.specs.Prelude.{◌≡◌, ◌<◌, ◌≤◌, IfOk, [], None, length, vec_len, vec_capacity};
ghost use Rattle.registration_desk.specs.Clerks.{first_clerk, part_of};
ghost use Rattle.registration_desk.specs.Desks.{AllNew, key_of, at_opening, shares_of};
ghost use Rattle.registration_desk.specs.States.{IsFresh};

use crate::desk::{Clerk, Desk, MOST_CLERKS};
use crate::rule::{DeskKey, DeskSeat, DeskTable, ShareMove};
use crate::state::DeskState;
use place_base::CandidateNo;
use place_base::limits::MOST_REQUESTS;
use placement_file::SeatList;
use std::alloc::{AllocError, Global};
use std::snapshot::Snapshot;

impl Desk {
    /// A desk with no reply yet, and its 1 to 64 clerks. Each has its part of the requests to
    /// serve, whichever these turn out to be. All memory of the desk is taken here.
    pub fn open(
        alloc: Global,
        seats: SeatList,
        requests: Vec<CandidateNo>,
        clerks: u32,
    ) -> Result<(Desk, Vec<Clerk>), AllocError>
        requires few { length requests.items ≤ MOST_REQUESTS }
        requires clerks { (1 ≤ clerks) × (clerks ≤ MOST_CLERKS) }
        ensures desk { IfOk result (λ r. IsFresh seats requests.items (at_opening r.0)) }
        ensures clerks { IfOk result (λ r. (key_of r.0).clerks ≡ clerks) }
        ensures count { IfOk result (λ r. length r.1.items ≡ clerks) }
        ensures new { IfOk result (λ r. AllNew r.0 r.1.items) }
        ensures shares { IfOk result (λ r. shares_of r.1.items ≡ clerks) }
    {
        let state = DeskState::new(alloc, seats, requests)?;
        let count = state.requests();
        let key = DeskKey {
            desk: Snapshot::of(&state),
            clerks,
        };
        let mut crew = Vec::with_capacity(alloc, clerks as usize)?;
        let mut slots = Vec::with_capacity(alloc, 1)?;
        slots.push_reserved(Some(state));
        let Ok((table, first)) = DeskTable::new(alloc, &[0], slots, &key) else {
            return Err(AllocError);
        };
        let desk = Desk { table };
        split_all(&desk, first, count, clerks, &mut crew);
        Ok((desk, crew))
    }
}

// Splits the first seat into one clerk each.
fn split_all(desk: &Desk, first: DeskSeat, count: u32, clerks: u32, crew: &mut Vec<Clerk>)
    requires table { first.table_id ≡ desk.now.table.shared.table_id }
    requires first { first.me
        ≡ (first_clerk (at_opening desk.now).seats (at_opening desk.now).requests clerks, []) }
    requires clerks { (1 ≤ clerks) × (clerks ≤ MOST_CLERKS)
        × ((key_of desk.now).clerks ≡ clerks) }
    requires count { (count ≡ length (at_opening desk.now).requests) × (count ≤ MOST_REQUESTS) }
    requires empty { (crew.old.items ≡ []) × (vec_len crew.old ≡ 0) }
    requires room { clerks ≤ vec_capacity crew.old }
    ensures new { AllNew desk.now crew.new.items }
    ensures count { length crew.new.items ≡ clerks }
{
    let mut rest = first;
    for number in 1..clerks {
        let next = desk.table.shared.split_seat::<ShareMove>(&mut rest);
        crew.push_reserved(new_clerk(rest, part(count, clerks, number - 1)));
        rest = next;
    }
    crew.push_reserved(new_clerk(rest, part(count, clerks, clerks - 1)));
}

// How many of so many requests the clerk with this number has to serve.
fn part(requests: u32, clerks: u32, number: u32) -> u32
    requires few { requests ≤ MOST_REQUESTS }
    requires clerks { (number < clerks) × (clerks ≤ MOST_CLERKS) }
    ensures part { result ≡ part_of requests clerks number }
    ensures within { result ≤ requests }
{
    (number + 1) * requests / clerks - number * requests / clerks
}

// A clerk at the opening.
fn new_clerk(seat: DeskSeat, left: u32) -> Clerk
    requires left { (seat.me.0.left ≡ left) × (left ≤ MOST_REQUESTS) }
    requires served { seat.me.0.served ≡ 0 }
    requires share { seat.me.0.share ≡ 1 }
    requires free { seat.me.0.holds ≡ None }
    requires bare { seat.me.1 ≡ [] }
    ensures { result.seat ≡ seat }
{
    Clerk {
        seat,
        left,
        served: 0,
    }
}
