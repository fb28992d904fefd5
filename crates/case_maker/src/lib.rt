//! Markets made from a number: every word of a seeded generator, taken in turn, says a quota, how
//! many entries are drawn for a preference list, one of these entries, or a candidate's key in a
//! type, by which the type is ordered, or that the candidate has no rank in it.
#![tactic(auto)]

// How large a market is to be.
mod sizes;
// The programmes.
mod programmes;
// The preference list of a candidate.
mod draws;
// The keys of a type, and its turn order.
mod keys;
// What the candidates draw, one after the other.
mod candidates;
// The market.
mod make;
#[cfg(test)]
mod tests;

pub use make::make_market;
