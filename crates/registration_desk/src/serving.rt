// One request, served by a clerk under the lock.

ghost use Rattle.std.specs.Prelude.{◌≡◌, ◌+◌, ◌<◌, [], MatchBool};
ghost use Rattle.registration_desk.specs.Clerks.{released};
ghost use Rattle.registration_desk.specs.Desks.{IsClerkOf, Stays, knows};
ghost use Rattle.registration_desk.specs.Steps.{IsHolding, IsIdle, IsTake};

use crate::desk::{Clerk, Desk};
use crate::rule::{DeskSeat, ReleaseStep, TakeStep};
use std::sync::Wait;
use std::thread;
use std::time::Duration;

// How often a clerk looks again at once, before it sleeps between its tries.
const QUICK_TRIES: u32 = 32;

// How long a clerk sleeps at most, in microseconds.
const NAP: u64 = 1_000;

/// Serves the first request that has no reply, once no other clerk holds the desk.
pub fn serve_next<R: Wait>(rt: &R, desk: &Desk, clerk: &mut Clerk)
    requires of_desk { IsClerkOf desk.now clerk.old }
    requires left { 0 < (knows clerk.old).left }
    ensures stays { Stays clerk.old clerk.new }
    ensures left { (knows clerk.new).left + 1 ≡ (knows clerk.old).left }
    ensures served { (knows clerk.new).served ≡ (knows clerk.old).served + 1 }
{
    let mut misses = 0u32;
    for _ in rt.forever() {
        if take(desk, &mut clerk.seat) {
            serve_held(desk, &mut clerk.seat);
            clerk.left -= 1;
            clerk.served += 1;
            return;
        }
        wait(rt, desk, misses);
        misses = misses.saturating_add(1);
    }
    unreachable!()
}

// Waits a little after so many misses. A clerk who has missed often sleeps while the word stays as
// it is, so that many clerks on few processors do not keep the holder from its own.
fn wait<R: Wait>(rt: &R, desk: &Desk, misses: u32) {
    if misses < QUICK_TRIES {
        thread::yield_now();
        return;
    }
    let shared = &desk.table.shared;
    let found = shared.peek(0);
    if found % 2 == 1 {
        let low = (found % (1 << 32)) as u32;
        shared.park_timeout(rt, 0, low, Duration::from_micros(NAP));
    }
}

// Takes the slot. `false` comes exactly where another clerk held it at this step.
fn take(desk: &Desk, seat: &mut DeskSeat) -> bool
    requires of_desk { seat.old.table_id ≡ desk.now.table.shared.table_id }
    requires idle { IsIdle seat.old.me }
    requires left { 0 < seat.old.me.0.left }
    ensures table { seat.new.table_id ≡ seat.old.table_id }
    ensures taken { MatchBool result (IsTake seat.old.me seat.new.me)
        (seat.new.me ≡ seat.old.me) }
{
    let found = desk.table.shared.fetch_or::<TakeStep>(seat, 0, 1);
    found % 2 == 0
}

// Serves one request by the desk that the seat holds, and gives the slot back.
fn serve_held(desk: &Desk, seat: &mut DeskSeat)
    requires of_desk { seat.old.table_id ≡ desk.now.table.shared.table_id }
    requires held { IsHolding seat.old.me }
    ensures table { seat.new.table_id ≡ seat.old.table_id }
    ensures seat { seat.new.me ≡ (released seat.old.me.0, []) }
{
    let shared = &desk.table.shared;
    let Some(mut state) = shared.exchange(seat, 0, None) else {
        unreachable!()
    };
    state.serve();
    let word = 2 * state.calls() as u64;
    shared.exchange(seat, 0, Some(state));
    shared.store::<ReleaseStep>(seat, 0, word);
}
