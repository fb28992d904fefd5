// The kinds of atomic step of the mark's holder, and of who tries to take it.

use crate::rule::SeatView;
use atomic_table::Play;

/// A worker tries to take the mark: a fetch-or of 1 on its word.
pub struct TakeStep;

impl Play<u8, SeatView> for TakeStep {
    ghost use Rattle.word_rule.specs.Holder.{TellsTake};

    ghost then = { λ step. TellsTake step.word };
}

/// The holder looks at the first uncommitted turn: a load of its cell.
pub struct LookStep;

impl Play<u8, SeatView> for LookStep {
    ghost use Rattle.word_rule.specs.Holder.{TellsLook};

    ghost then = { λ step. TellsLook step.word };
}

/// The holder weighs the entry at its place: a load of the entry's seat word.
pub struct WeighStep;

impl Play<u8, SeatView> for WeighStep {
    ghost use Rattle.word_rule.specs.Holder.{TellsWeigh};

    ghost then = { λ step. TellsWeigh step.word };
}

/// The holder takes a seat of the entry at its place: a fetch-and-add of 1 on the entry's seat
/// word.
pub struct SeatStep;

impl Play<u8, SeatView> for SeatStep {
    ghost use Rattle.word_rule.specs.Holder.{TellsSeat};

    ghost then = { λ step. TellsSeat step.word };
}

/// The holder raises the flag of the programme that it filled: a fetch-or on the word that has it.
pub struct RaiseStep;

impl Play<u8, SeatView> for RaiseStep {
    ghost use Rattle.word_rule.specs.Holder.{TellsRaise};

    ghost then = { λ step me found after. TellsRaise step.word me after };
}

/// The holder commits its turn at its place: a store to the turn's cell.
pub struct SealStep;

impl Play<u8, SeatView> for SealStep {
    ghost use Rattle.word_rule.specs.Holder.{TellsSeal};

    ghost then = { λ step me stored after. TellsSeal step.word me after };
}

/// The holder gives the mark back: a store to its word.
pub struct ReleaseStep;

impl Play<u8, SeatView> for ReleaseStep {
    ghost use Rattle.word_rule.specs.Holder.{TellsRelease};

    ghost then = { λ step. TellsRelease step.word };
}
