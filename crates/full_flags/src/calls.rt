// The look at flags, and the raising of one.

ghost use Rattle.std.specs.Prelude.{◌≡◌};
ghost use Rattle.word_rule.specs.Rounds.{IsSeatOf, Stays, key_of, dict_of, knows};
ghost use Rattle.word_rule.specs.Raising.{MayRaise, IsRaise};
ghost use Rattle.full_flags.specs.Flags.{MayReadFlags, IsReadFlags, KnowsFull};

use interleaving_core::past_flags;
use market::Dict;
use word_rule::{FlagsStep, SharedRound, WorkSeat, flag_word, raise_step};

/// Looks at the word that has the flag of the next entry of the claimed turn's list, and answers
/// it: the flags of 64 programmes in one load. The entries from there on whose flags are raised in
/// it are passed. Each programme whose flag was found raised is full, at this step and from then
/// on.
pub fn read_flags(round: &SharedRound, dict: &Dict, me: &mut WorkSeat) -> u64
    requires seat { IsSeatOf round.now me.old }
    requires dict { dict.now ≡ dict_of round.now }
    requires may { MayReadFlags me.old }
    ensures stays { Stays me.old me.new }
    ensures event { IsReadFlags me.old me.new result }
    ensures full { KnowsFull (key_of round.now) (knows me.new) }
{
    let Some(claim) = me.claim else {
        unreachable!()
    };
    let programme = dict.list(claim.turn)[claim.passed as usize];
    let word = flag_word(dict.programmes(), dict.turns(), programme);
    let found = round.table.shared.load::<FlagsStep>(&mut me.seat, word);
    me.claim = Some(past_flags(dict, claim, found));
    found
}

/// Raises the flag of the programme that the holder has just filled, and no other.
pub fn raise_flag(round: &SharedRound, dict: &Dict, me: &mut WorkSeat)
    requires seat { IsSeatOf round.now me.old }
    requires dict { dict.now ≡ dict_of round.now }
    requires may { MayRaise me.old }
    ensures stays { Stays me.old me.new }
    ensures event { IsRaise me.old me.new }
{
    raise_step(round, dict, me);
}
