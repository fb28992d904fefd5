// The kinds of atomic step of a claimant.

use crate::rule::SeatView;
use atomic_table::Play;

/// A worker draws the next turn: a fetch-and-add on the claim word.
pub struct ClaimStep;

impl Play<u8, SeatView> for ClaimStep {
    ghost use Rattle.word_rule.specs.Claimant.{TellsClaim};

    ghost then = { λ step. TellsClaim step.word };
}

/// A claimant looks at the flags of its next entries: a load of the word that has the flag of the
/// next one.
pub struct FlagsStep;

impl Play<u8, SeatView> for FlagsStep {
    ghost use Rattle.word_rule.specs.Claimant.{TellsFlags};

    ghost then = { λ step. TellsFlags step.word };
}

/// A claimant reads the seat count of the next entry: a load of its seat word.
pub struct ReadStep;

impl Play<u8, SeatView> for ReadStep {
    ghost use Rattle.word_rule.specs.Claimant.{TellsRead};

    ghost then = { λ step. TellsRead step.word };
}

/// A claimant posts the place that it found: a store to its turn's cell.
pub struct PostStep;

impl Play<u8, SeatView> for PostStep {
    ghost use Rattle.word_rule.specs.Claimant.{TellsPost};

    ghost then = { λ step. TellsPost step.word };
}
