// The steps of a claimant.

ghost use Rattle.std.specs.Prelude.{◌≡◌};
ghost use Rattle.word_rule.specs.Rounds.{IsSeatOf, Stays, dict_of};
ghost use Rattle.claim_words.specs.Claimant.{MayClaim, MayRead, MayPost, IsClaim, IsRead, IsPost};

use market::Dict;
use word_rule::{
    CLAIM_WORD, ClaimCopy, ClaimStep, PostStep, ReadStep, SharedRound, WorkSeat, cell_word,
    posted_at, seat_word,
};

/// Draws the next turn. `None` comes exactly where the number drawn is at least the number of
/// turns; the seat is then done.
pub fn claim(round: &SharedRound, me: &mut WorkSeat) -> Option<u32>
    requires seat { IsSeatOf round.now me.old }
    requires may { MayClaim me.old }
    ensures stays { Stays me.old me.new }
    ensures event { IsClaim me.old me.new result }
{
    let words = &round.table.shared;
    let found = words.fetch_add::<ClaimStep>(&mut me.seat, CLAIM_WORD, 1);
    if found >= round.turns as u64 {
        return None;
    }
    let turn = found as u32;
    me.claim = Some(ClaimCopy {
        turn,
        passed: 0,
        looked: false,
        met: false,
    });
    Some(turn)
}

/// Reads the seat count of the next entry of the claimed turn's list, whose flag was found lowered.
/// `true` comes exactly where it has reached the quota; the entry is then passed, and else met.
pub fn read_entry(round: &SharedRound, dict: &Dict, me: &mut WorkSeat) -> bool
    requires seat { IsSeatOf round.now me.old }
    requires dict { dict.now ≡ dict_of round.now }
    requires may { MayRead me.old }
    ensures stays { Stays me.old me.new }
    ensures event { IsRead me.old me.new result }
{
    let Some(claim) = me.claim else {
        unreachable!()
    };
    let programme = dict.list(claim.turn)[claim.passed as usize];
    let words = &round.table.shared;
    let found = words.load::<ReadStep>(&mut me.seat, seat_word(programme));
    let full = found >= dict.quota(programme) as u64;
    me.claim = Some(if full {
        ClaimCopy {
            passed: claim.passed + 1,
            looked: false,
            ..claim
        }
    } else {
        ClaimCopy {
            looked: true,
            met: true,
            ..claim
        }
    });
    full
}

/// Posts the claimed turn at the number of entries passed, and answers that place.
pub fn post(round: &SharedRound, dict: &Dict, me: &mut WorkSeat) -> u32
    requires seat { IsSeatOf round.now me.old }
    requires dict { dict.now ≡ dict_of round.now }
    requires may { MayPost me.old }
    ensures stays { Stays me.old me.new }
    ensures event { IsPost me.old me.new result }
{
    let Some(claim) = me.claim else {
        unreachable!()
    };
    let words = &round.table.shared;
    let word = cell_word(dict.programmes(), claim.turn);
    let cell = posted_at(claim.passed);
    words.store::<PostStep>(&mut me.seat, word, cell);
    me.claim = None;
    claim.passed
}
