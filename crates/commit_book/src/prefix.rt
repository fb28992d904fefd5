// The call that takes the mark, commits posted turns and gives the mark back.

ghost use Rattle.std.specs.Prelude.{◌≡◌, ◌+◌};
ghost use Rattle.interleaving_core.specs.declared.parts.Phase.TheVariants.{Idle, Scan};
ghost use Rattle.interleaving_core.specs.Core.{hold_at};
ghost use Rattle.word_rule.specs.Rounds.{IsSeatOf, Stays, dict_of, knows};
ghost use Rattle.word_rule.specs.Holder.{having_sealed};
ghost use Rattle.commit_book.specs.Holder.{MayTake};
ghost use Rattle.commit_book.specs.Prefix.{IsSettled, HasSwept, IsPrefixCommit};

use crate::holder::{look, release, seal, seat, take, weigh};
use market::Dict;
use word_rule::{SharedRound, WorkSeat, raise_step};

/// Takes the mark, commits turns in their order until a look gives `None`, gives the mark back,
/// and answers how many turns it committed: so many turns more has its seat committed in all, and
/// so many more stand in what its release wrote than in what its take found.
/// `None` comes exactly where the take found the mark held. A done seat with every share never
/// gets `None`, and has then committed every turn of the round.
pub fn commit_prefix(round: &SharedRound, dict: &Dict, me: &mut WorkSeat) -> Option<u32>
    requires seat { IsSeatOf round.now me.old }
    requires dict { dict.now ≡ dict_of round.now }
    requires may { MayTake me.old }
    ensures stays { Stays me.old me.new }
    ensures event { IsPrefixCommit me.old me.new result }
{
    if !take(round, me) {
        return None;
    }
    Some(sweep(round, dict, me))
}

// Commits turns in their order until a look gives `None`, gives the mark back, and answers how
// many turns it committed.
fn sweep(round: &SharedRound, dict: &Dict, me: &mut WorkSeat) -> u32
    requires seat { IsSeatOf round.now me.old }
    requires dict { dict.now ≡ dict_of round.now }
    requires idle { (knows me.old).core.hold ≡ hold_at me.old.committed Idle }
    ensures stays { Stays me.old me.new }
    ensures swept { HasSwept me.old me.new result }
{
    let mut count = 0;
    while let Some(place) = look(round, me) {
        commit_turn(round, dict, me, place);
        count += 1;
    }
    release(round, me);
    count
}

/// Commits the first uncommitted turn, which was found posted at this place, and answers the turn.
pub fn commit_turn(round: &SharedRound, dict: &Dict, me: &mut WorkSeat, place: u32) -> u32
    requires seat { IsSeatOf round.now me.old }
    requires dict { dict.now ≡ dict_of round.now }
    requires scan { (knows me.old).core.hold ≡ hold_at me.old.committed (Scan place) }
    ensures stays { Stays me.old me.new }
    ensures turn { result ≡ me.old.committed }
    ensures view { knows me.new ≡ having_sealed (knows me.old) me.old.committed 1 }
{
    settle(round, dict, me, place);
    seal(round, dict, me)
}

// Weighs the entries from this place on, and takes a seat of the first that has one left; where
// that was the last one, it raises the programme's flag.
fn settle(round: &SharedRound, dict: &Dict, me: &mut WorkSeat, place: u32)
    requires seat { IsSeatOf round.now me.old }
    requires dict { dict.now ≡ dict_of round.now }
    requires scan { (knows me.old).core.hold ≡ hold_at me.old.committed (Scan place) }
    ensures stays { Stays me.old me.new }
    ensures settled { IsSettled me.old me.new }
{
    let places = dict.list(me.committed).len() as u32;
    for _entry in place..places {
        if !weigh(round, dict, me) {
            if seat(round, dict, me) {
                raise_step(round, dict, me);
            }
            return;
        }
    }
}
