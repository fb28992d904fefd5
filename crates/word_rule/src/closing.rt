// The end of a round: its words, and the choices that they show.

ghost use Rattle.std.specs.Prelude.{◌≡◌, ◌<◌, ◌≤◌, None};
ghost use Rattle.market.specs.Dictatorships.{choice};
ghost use Rattle.interleaving_core.specs.Core.{turn_count};
ghost use Rattle.word_rule.specs.Rounds.{IsSeatOf, knows, key_of, dict_of};

use crate::layout::{MARK_WORD, cell_of, cell_word, mark_number};
use crate::seat::{SharedRound, WorkSeat};
use atomic_table::Closed;
use interleaving_core::Cell;
use std::alloc::Global;
use std::marker::Model;
use std::snapshot::Snapshot;

/// The words of a round that is over. Contracts see them as the round's dictatorship and the
/// number of its committed turns, which are the first ones. Only `close_round` makes a value of
/// this type.
pub struct Words {
    closed: Closed<u8, Global>,
    programmes: u32,
    committed: u32,
    // The round as clauses see it: it takes no bytes.
    round: Snapshot<SharedRound>,
}

impl Model for Words {
    ghost use Rattle.std.specs.Prelude.{◌≡◌, length};
    ghost use Rattle.std.specs.Slots.{slots_items, slots_len, IsFull};
    ghost use Rattle.word_rule.specs.Rounds.{dict_of};
    ghost use Rattle.word_rule.specs.Closing.{RoundEnd, AreCommitted};

    ghost Value = { RoundEnd };

    ghost view = { λ w. record { dict = dict_of w.round.value; committed = w.committed } };

    ghost invariant = { λ w. IsFull w.closed.words
        × (length (slots_items w.closed.words) ≡ slots_len w.closed.words)
        × (slots_len w.closed.slots ≡ 0)
        × AreCommitted (dict_of w.round.value) (slots_items w.closed.words)
        w.programmes w.committed };
}

impl Words {
    /// The number of committed turns, at most all turns.
    pub fn committed(&self) -> u32
        ensures count { result ≡ self.now.committed }
        ensures within { self.now.committed ≤ turn_count self.now.dict }
    {
        self.committed
    }

    /// The dictatorship's choice of a committed turn: a place in its list, whose length means none.
    pub fn choice(&self, turn: u32) -> u32
        requires { turn < self.now.committed }
        ensures { result ≡ choice self.now.dict turn }
    {
        let word = self.closed.word(cell_word(self.programmes, turn));
        let Cell::Committed(place) = cell_of(word) else {
            unreachable!()
        };
        place
    }
}

impl Drop for Words {
    fn drop(self) {
        let Self {
            closed,
            programmes: _,
            committed: _,
            round: _,
        } = self;
        closed.free();
    }
}

/// Ends a round, by a seat that has every share and does not hold the mark. As many turns are
/// committed as the round's seats have committed, which that seat counts: at least as many as its
/// last release wrote. It takes no memory.
pub fn close_round(round: SharedRound, me: WorkSeat) -> Words
    requires seat { IsSeatOf round me }
    requires all { (knows me).share ≡ (key_of round).workers }
    requires free { (knows me).core.hold ≡ None }
    ensures dict { result.dict ≡ dict_of round }
    ensures sealed { (knows me).sealed ≡ result.committed }
    ensures released { (knows me).released ≤ result.committed }
    ensures within { result.committed ≤ turn_count (dict_of round) }
{
    let ended = Snapshot::of(&round);
    let SharedRound {
        table,
        turns: _,
        programmes,
    } = round;
    let WorkSeat {
        seat,
        number: _,
        claim: _,
        phase: _,
        committed: _,
    } = me;
    let closed = table.close_with(seat);
    let committed = mark_number(closed.word(MARK_WORD));
    Words {
        closed,
        programmes,
        committed,
        round: ended,
    }
}
