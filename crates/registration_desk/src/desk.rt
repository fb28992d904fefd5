// A desk under its lock, and its clerks.

ghost use Rattle.place_base.specs.declared.limits.TheConstants.{MOST_REQUESTS};
ghost use Rattle.std.specs.Prelude.{◌≡◌, ◌+◌, ◌<◌, ◌≤◌, None, []};

use crate::rule::{DeskSeat, DeskTable};

/// The most clerks of a desk.
pub const MOST_CLERKS: u32 = 64;

/// A desk that several clerks share. Its state lies in a slot that one clerk at a time takes.
#[derive(Drop)]
pub struct Desk {
    pub(crate) table: DeskTable,
    ghost words_are: { table.shared.table_id.words ≡ 1 },
    ghost slots_are: { table.shared.table_id.slots ≡ 1 },
    ghost staffed: { 0 < table.shared.key.clerks },
}

/// A clerk of a desk. Between calls it does not hold the slot.
#[derive(Drop)]
pub struct Clerk {
    pub(crate) seat: DeskSeat,
    pub(crate) left: u32,
    pub(crate) served: u32,
    ghost left_is: { left ≡ seat.me.0.left },
    ghost served_is: { served ≡ seat.me.0.served },
    ghost few: { seat.me.0.served + seat.me.0.left ≤ MOST_REQUESTS },
    ghost live: { 0 < seat.me.0.share },
    ghost free: { seat.me.0.holds ≡ None },
    ghost bare: { seat.me.1 ≡ [] },
}

impl Clerk {
    /// How many requests it has left to serve.
    pub fn left(&self) -> u32
        ensures { result ≡ self.now.seat.me.0.left }
    {
        self.left
    }

    /// How many requests it has served.
    pub fn served(&self) -> u32
        ensures { result ≡ self.now.seat.me.0.served }
    {
        self.served
    }
}
