//! The table of a candidates file: its candidates with their preference lists, or the file's first
//! fault.
#![tactic(auto)]

// The entries of one preference list.
mod entries;
// What a row of the file says.
mod row;
// What a row says by itself.
mod fields;
// The programmes of a preference list.
mod lists;
// The numbers of candidates.
mod numbers;
// The table, its reading and its look-ups.
mod table;

pub use numbers::CandidateNumbers;
pub use table::CandidateTable;

#[cfg(test)]
mod tests;
