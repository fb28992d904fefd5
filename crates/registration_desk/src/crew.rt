// All clerks of a desk at work.

ghost use Rattle.std.specs.Prelude.{◌≡◌, ◌+◌, ◌<◌, ◌≤◌, IfOk, ℕ, length, slice_index_or};
ghost use Rattle.registration_desk.specs.Crew.{HasCome, HasWorked};
ghost use Rattle.registration_desk.specs.Desks.{AllNew, IsNew};
ghost use Rattle.registration_desk.specs.Replies.{IsHistory};
ghost use Rattle.registration_desk.specs.declared.desk.Clerk.{Clerk};

use crate::desk::{Clerk, Desk, MOST_CLERKS};
use crate::gate::{DeskGate, DeskPoint};
use crate::serving::serve_next;
use crate::state::DeskState;
use place_base::CandidateNo;
use place_base::limits::MOST_REQUESTS;
use placement_file::SeatList;
use std::alloc::{AllocError, Global};
use std::sync::Wait;
use std::thread;
use std::thread::Threads;

/// Answers every request, by 1 to 64 clerks who share one desk. That two of them are at work at the
/// same time is tested.
pub fn serve_all<R: Threads + Wait + Sync, G: DeskGate>(
    rt: &R,
    alloc: Global,
    seats: SeatList,
    requests: Vec<CandidateNo>,
    clerks: u32,
    gate: &G,
) -> Result<DeskState, AllocError>
    requires few { length requests.items ≤ MOST_REQUESTS }
    requires clerks { (1 ≤ clerks) × (clerks ≤ MOST_CLERKS) }
    ensures seats { IfOk result (λ desk. desk.seats ≡ seats) }
    ensures requests { IfOk result (λ desk. desk.requests ≡ requests.items) }
    ensures every { IfOk result (λ desk. length desk.history ≡ length requests.items) }
    ensures history { IfOk result (λ desk. IsHistory desk.seats desk.requests desk.history) }
{
    let (desk, mut crew) = Desk::open(alloc, seats, requests, clerks)?;
    work_all(rt, &desk, crew.as_mut_slice(), gate);
    Ok(desk.close(crew))
}

// Each clerk serves its part.
fn work_all<R: Threads + Wait + Sync, G: DeskGate>(
    rt: &R,
    desk: &Desk,
    crew: &mut [Clerk],
    gate: &G,
)
    requires some { (0 < length crew.old) × (length crew.old ≤ MOST_CLERKS) }
    requires new { AllNew desk.now crew.old }
    ensures { (i : ℕ) (d : Clerk) → i < length crew.old
        → HasWorked (slice_index_or crew.old i d) (slice_index_or crew.new i d) }
{
    let clerks = crew.len();
    thread::for_each_mut(
        rt,
        crew,
        clerks,
        &|number, clerk: &mut Clerk|
            requires { IsNew desk.now number clerk.old × (number < MOST_CLERKS) }
            ensures { HasWorked clerk.old clerk.new }
        { work(rt, desk, number as u32, clerk, gate) },
    );
}

// Serves until the clerk with this number has no request left.
fn work<R: Wait, G: DeskGate>(rt: &R, desk: &Desk, number: u32, clerk: &mut Clerk, gate: &G)
    requires { IsNew desk.now number clerk.old }
    ensures { HasWorked clerk.old clerk.new }
{
    for call in 0..clerk.left() {
        pass(desk, number, clerk, call, DeskPoint::Before, gate);
        serve_next(rt, desk, clerk);
        pass(desk, number, clerk, call, DeskPoint::After, gate);
    }
}

// Lets the clerk with this number pass the gate at a point of a call that it has come to.
fn pass<G: DeskGate>(desk: &Desk, number: u32, clerk: &Clerk, call: u32, point: DeskPoint, gate: &G)
    requires { HasCome desk.now number clerk.now call point }
{
    gate.at(number, call, point);
}
