// The end of a desk.

ghost use Rattle.std.specs.Prelude.{◌≡◌, ◌+◌, length};
ghost use Rattle.registration_desk.specs.Desks.{AreAllClerksOf, key_of, left_by, at_opening, served_by};
ghost use Rattle.registration_desk.specs.Replies.{IsHistory, IsOnceEach, IsOnlyPlaced};
ghost use Rattle.registration_desk.specs.Steps.{IsIdle};

use crate::desk::{Clerk, Desk};
use crate::rule::{DeskSeat, ShareMove};
use crate::state::DeskState;

impl Desk {
    /// Ends the desk, whose clerks these all are, and gives its state back. It takes no memory.
    pub fn close(self, clerks: Vec<Clerk>) -> DeskState
        requires { AreAllClerksOf self clerks.items }
        ensures seats { result.seats ≡ (at_opening self).seats }
        ensures requests { result.requests ≡ (at_opening self).requests }
        ensures count { length result.history ≡ served_by clerks.items }
        ensures all { served_by clerks.items + left_by clerks.items
            ≡ length (at_opening self).requests }
        ensures history { IsHistory result.seats result.requests result.history }
        ensures once { IsOnceEach result.requests result.history }
        ensures placed { IsOnlyPlaced result.seats result.requests result.history }
    {
        let last = join_all(&self, clerks);
        let Desk { table } = self;
        let mut closed = table.close_with(last);
        let Some(state) = closed.take(0) else {
            unreachable!()
        };
        closed.free();
        state.checked();
        state
    }
}

// Joins the seats of all clerks of a desk into one.
fn join_all(desk: &Desk, mut clerks: Vec<Clerk>) -> DeskSeat
    requires { AreAllClerksOf desk.now clerks.items }
    ensures table { result.table_id ≡ desk.now.table.shared.table_id }
    ensures idle { IsIdle result.me }
    ensures all { result.me.0.share ≡ (key_of desk.now).clerks }
    ensures served { result.me.0.served ≡ served_by clerks.items }
    ensures left { result.me.0.left ≡ left_by clerks.items }
{
    let Some(first) = clerks.pop() else {
        unreachable!()
    };
    let mut seat = seat_of(first);
    while let Some(other) = clerks.pop() {
        desk.table
            .shared
            .join_seat::<ShareMove>(&mut seat, seat_of(other));
    }
    seat
}

// The clerk's seat.
fn seat_of(clerk: Clerk) -> DeskSeat
    ensures seat { result ≡ clerk.seat }
    ensures idle { IsIdle result.me }
{
    let Clerk {
        seat,
        left: _,
        served: _,
    } = clerk;
    seat
}
