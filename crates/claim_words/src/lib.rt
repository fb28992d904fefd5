//! A claimant's steps on the words of a round: it draws the next turn, reads the seat counts of the
//! entries of the turn's list until one has a seat left, and posts the place found. Between a draw
//! or an entry passed and a reading it looks at flags (`full_flags::read_flags`).
//!
//! Each call moves its seat by one event of the core, which could be made at this step, and answers
//! by what was found there, whatever other workers do before and after. The kinds of step that it
//! makes (`word_rule`) are each bound to their own word: a load of another one is refused where it
//! stands. The clauses of the calls speak of the seat alone: they say that there is a word found,
//! and that the rule is kept; by which kind of step is how the calls are written.
#![tactic(auto)]

// The three calls.
mod claimant;

pub use claimant::{claim, post, read_entry};
