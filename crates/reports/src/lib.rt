//! Reports on a placement: the base rank of each programme, and why each list entry is held or not.
#![tactic(auto)]

// For each programme its base rank and its number of holders.
mod bases;
// Why a list entry is held or not.
mod reasons;
// The reason of a list entry in a placement.
mod explaining;
// What a full entry says, as a law over stable placements, and what a base rank says.
mod law;
#[cfg(test)]
mod tests;

pub use bases::{BaseRanks, base_ranks};
pub use explaining::reason;
pub use law::{full_entries_are_filled, only_unheld_have_no_base};
pub use reasons::Reason;
