//! The words that the workers of a round share, and the one rule over them.
//!
//! A round runs one dictatorship on a table of words: the claim number, the mark, a seat count for
//! each programme, a cell for each turn, and words of flags, with a flag for each programme. Each
//! worker steps on them with a seat, which has a view of what the worker knows. The rule says that
//! words and views together are one sound state of the core. Every atomic step is proved to keep
//! it, whatever the table is when the step comes. So it holds between any two steps, in whatever
//! order the workers make them.
//!
//! There are eleven kinds of atomic step, one for each event. Each tells that the event could be
//! made at this step, on the event's own word, and what the seat knows then. The table and the
//! seats are public, so whoever has both may make steps of other kinds. Those keep the rule too,
//! but may note less than the eleven do, or what is not so: a try on the mark that no view counts,
//! another number than a take found, or the number of another word as a seat count below the quota
//! or as flags that are lowered.
#![tactic(auto)]

// The words of a table by name: where each stands, and how its contents are written and read.
mod layout;
// The rule, and what a table is made with.
mod rule;
// The kinds of atomic step of a claimant.
mod claimant_steps;
// The kinds of atomic step of the mark's holder, and of who tries to take it.
mod holder_steps;
// The table of a round, and a worker's seat.
mod seat;
// The opening of a round, and the joining of its seats.
mod opening;
// The raising of a flag.
mod raising;
// The end of a round, and the choices that its words show.
mod closing;
#[cfg(test)]
mod tests;

pub use claimant_steps::{ClaimStep, FlagsStep, PostStep, ReadStep};
pub use closing::{Words, close_round};
pub use holder_steps::{LookStep, RaiseStep, ReleaseStep, SealStep, SeatStep, TakeStep, WeighStep};
pub use interleaving_core::{Claiming as ClaimCopy, Phase as PhaseCopy};
pub use layout::{
    CLAIM_WORD, FIRST_SEAT_WORD, MARK_WORD, cell_of, cell_word, committed_at, flag_word, free_mark,
    is_held, mark_number, posted_at, seat_word,
};
pub use opening::{join_all, open_round};
pub use raising::raise_step;
pub use rule::{RoundKey, RoundRule, RoundSeat, RoundTable, SeatView, ShareMove};
pub use seat::{SharedRound, WorkSeat};
