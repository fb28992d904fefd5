//! A market, the definitions of the mechanism that places its candidates, and what every way of
//! running that mechanism shares.
//!
//! `specs/` says what is meant: what a market is, which placements are stable, and the
//! multi-category serial dictatorship after Balinski and Sönmez (1999). The types here hold such
//! values; their contracts see them as plain lists and numbers. Candidates, programmes and score
//! types are indexes.
#![tactic(auto)]

// The limits of a market.
mod limits;
// A list of numbers.
mod list;
// A programme: its score type, its quota and its rank bar.
mod programme;
// What each candidate holds, and the outcome of a placement.
mod placement;
// What a market is made of, as it is given.
mod parts;
// A market, its look-ups and its dictatorships.
mod market;
// How much of each preference list a round reads.
mod cuts;
// One serial dictatorship.
mod dict;
// What each candidate has chosen in each type.
mod tentative;
// The candidates with choices in several types, and the best choice of each.
mod best;
// What the turns of a dictatorship take, written down by candidate.
mod write_turn;
// A counter of turns.
mod steps;
// What can place the candidates of a market.
mod placer;
// Worked examples, as values, and what the definitions give on them.
pub mod examples;
// The tables that a market keeps.
mod build;
// The lists of a type in turn order, which a market keeps.
mod type_lists;
// The same of all types, made by several threads.
mod type_lists_by;
// Lists that lie one after another in one vector.
mod flat_lists;
#[cfg(test)]
mod tests;

pub use cuts::Cuts;
pub use dict::Dict;
pub use limits::{MAX_CANDIDATES, MAX_ENTRIES, MAX_PROGRAMMES, MAX_QUOTA, MAX_RANK, MAX_TYPES};
pub use list::List;
pub use market::Market;
pub use parts::MarketParts;
pub use placement::{Outcome, Placement};
pub use placer::Placer;
pub use programme::Prog;
pub use steps::Steps;
pub use tentative::Tentative;
