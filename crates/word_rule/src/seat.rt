// The table of a round, and a worker's seat.

ghost use Rattle.std.specs.Prelude.{◌≡◌, ◌+◌, ◌<◌, ◌≤◌, length, [], true};
ghost use Rattle.market.specs.Dictatorships.{IsValidDictatorship};
ghost use Rattle.interleaving_core.specs.Core.{turn_count};
ghost use Rattle.word_rule.specs.Layout.{programme_count, word_count};
ghost use Rattle.word_rule.specs.Copies.{IsInRange, holding_of};

use crate::rule::{RoundSeat, RoundTable};
use interleaving_core::{Claiming as ClaimCopy, Phase as PhaseCopy};

/// The table of words of one round: a word for the claim number, one for the mark, one for each
/// programme's seat count, one for each turn's cell, and one for each 64 programmes' flags. All
/// workers share it.
#[derive(Drop)]
pub struct SharedRound {
    /// The words, under the rule.
    pub table: RoundTable,
    /// How many turns the round's dictatorship has.
    pub turns: u32,
    /// How many programmes it has.
    pub programmes: u32,
    ghost turns_are: { turns ≡ turn_count table.shared.key.dict.value },
    ghost programmes_are: { programmes ≡ programme_count table.shared.key.dict.value },
    ghost words_are: { table.shared.table_id.words ≡ word_count table.shared.key.dict.value },
    ghost valid: { IsValidDictatorship table.shared.key.dict.value },
    ghost no_slots: { table.shared.table_id.slots ≡ 0 },
    ghost staffed: { 0 < table.shared.key.workers },
}

/// A worker's seat, with copies of what its view knows: the worker's number; its claim, if it has
/// one; how far it is with the turn that it commits, if it holds the mark; and then the number of
/// committed turns. The copies are those of the view in every value of this type.
#[derive(Drop)]
pub struct WorkSeat {
    /// The seat at the table, with its view.
    pub seat: RoundSeat,
    /// The worker's number.
    pub number: u32,
    /// The turn that the worker has drawn and not yet posted, if there is one.
    pub claim: Option<ClaimCopy>,
    /// How far it is with the first turn that is not committed, if it holds the mark.
    pub phase: Option<PhaseCopy>,
    /// How many turns are committed, where it holds the mark.
    pub committed: u32,
    ghost number_is: { number ≡ seat.me.0.number },
    ghost claim_is: { claim ≡ seat.me.0.core.claim },
    ghost hold_is: { holding_of phase committed ≡ seat.me.0.core.hold },
    ghost live: { 0 < seat.me.0.share },
    ghost narrow: { 1 < seat.me.0.share → seat.me.0.core.done ≡ true },
    ghost bare: { seat.me.1 ≡ [] },
    ghost in_range: { IsInRange seat.me.0.dict seat.me.0.core },
}

impl WorkSeat {
    /// The worker's number.
    pub fn worker(&self) -> u32
        ensures { result ≡ self.now.seat.me.0.number }
    {
        self.number
    }
}
