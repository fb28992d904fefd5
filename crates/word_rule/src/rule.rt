// The rule of a round's table, and what a table is made with.

use atomic_table::{Join, Seat, Split, Table, TableRule};
use market::Dict;
use std::alloc::Global;
use std::marker::Model;
use std::snapshot::Snapshot;

/// What a seat knows: plain data that exists in proofs alone. No value of this type is made.
pub struct SeatView {
    nothing: (),
}

impl Model for SeatView {
    ghost use Rattle.word_rule.specs.Views.{SeatKnows, spent_seat};

    ghost Value = { SeatKnows };

    ghost view = { λ _. spent_seat };
}

/// What a round's table is made with: the dictatorship, and the number of workers.
#[derive(Drop)]
pub struct RoundKey {
    /// The dictatorship, as clauses see it: it takes no bytes.
    pub dict: Snapshot<Dict>,
    /// How many workers there are.
    pub workers: u32,
}

/// Words and views together are one sound core state.
pub struct RoundRule;

impl TableRule<u8, SeatView, RoundKey> for RoundRule {
    ghost use Rattle.word_rule.specs.Rule.{IsSoundTable, first_seat_of};

    ghost holds = { IsSoundTable };

    ghost first = { first_seat_of };
}

/// The words of a round, under the rule. There are no slots.
pub type RoundTable = Table<u8, SeatView, RoundKey, RoundRule, Global>;

/// A seat of such a table.
pub type RoundSeat = Seat<u8, SeatView>;

/// Seats are split and joined: their shares move, and the core state stays as it was.
pub struct ShareMove;

impl Split<SeatView> for ShareMove {
    ghost use Rattle.word_rule.specs.Views.{kept_part, new_part};

    ghost left = { kept_part };

    ghost right = { new_part };
}

impl Join<SeatView> for ShareMove {
    ghost use Rattle.word_rule.specs.Views.{joined, spent_seat};

    ghost both = { joined };

    ghost spent = { spent_seat };
}
