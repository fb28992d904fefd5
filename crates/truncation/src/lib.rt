//! Cuts the lists of the candidates who take several programmes in a round, and says from which
//! turn on each type has to run again.
#![tactic(auto)]

// What a round's cuts have touched: how many lists, and the first changed turn of each type.
mod touched;
// The cuts of a round.
mod cut;
#[cfg(test)]
mod tests;

pub use cut::{cut_lists, cut_marked};
pub use touched::Touched;
