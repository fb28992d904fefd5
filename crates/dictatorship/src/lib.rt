//! The multi-category serial dictatorship in the plainest way: one dictatorship after another in
//! one pass each, and whole rounds until nobody is placed twice.
#![tactic(auto)]

// One dictatorship, turn by turn.
mod turns;
// One round: the tentative programmes of all candidates in all types.
mod round;
// Who is cut after a round, and where.
mod cutting;
// The mechanism, by whole rounds.
mod mechanism;
// The mechanism as a placer.
mod plain_placer;
#[cfg(test)]
mod tests;

pub use mechanism::mechanism_plain;
pub use plain_placer::PlainPlacer;
pub use turns::run_plain;
