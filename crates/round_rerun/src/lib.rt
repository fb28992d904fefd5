//! Places the candidates of a market by rounds over teams of workers: a team for each score type,
//! one type after the other, and after a cut only the turns from the first one that it changed.
#![tactic(auto)]

// What the turns of one type chose, a byte each.
mod turn_choices;
// What the rounds keep: the choices by candidate and by turn, and whose choices changed.
mod kept;
// One type of a round, from a turn on.
mod rerun;
// The rounds of a placement.
mod placing;
#[cfg(test)]
mod tests;

pub use placing::Rounds;
