// The raising of a flag, as the mark's holder does it whatever it was called by.

ghost use Rattle.std.specs.Prelude.{◌≡◌};
ghost use Rattle.word_rule.specs.Rounds.{IsSeatOf, Stays, dict_of};
ghost use Rattle.word_rule.specs.Raising.{MayRaise, IsRaise};

use crate::holder_steps::RaiseStep;
use crate::layout::flag_word;
use crate::seat::{SharedRound, WorkSeat};
use interleaving_core::{Phase as PhaseCopy, flag_mask};
use market::Dict;

/// Raises the flag of the programme that the holder has just filled, by one fetch-or.
pub fn raise_step(round: &SharedRound, dict: &Dict, me: &mut WorkSeat)
    requires seat { IsSeatOf round.now me.old }
    requires dict { dict.now ≡ dict_of round.now }
    requires may { MayRaise me.old }
    ensures stays { Stays me.old me.new }
    ensures event { IsRaise me.old me.new }
{
    let Some(PhaseCopy::Seated(place, _)) = me.phase else {
        unreachable!()
    };
    let programme = dict.list(me.committed)[place as usize];
    let word = flag_word(dict.programmes(), dict.turns(), programme);
    let mask = flag_mask(programme);
    round
        .table
        .shared
        .fetch_or::<RaiseStep>(&mut me.seat, word, mask);
    me.phase = Some(PhaseCopy::Raised(place));
}
