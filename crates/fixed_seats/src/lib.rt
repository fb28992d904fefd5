//! What all stable placements of a market share: who holds no programme, and how many seats of each
//! programme are filled.
//!
//! Two laws over every stable placement, however it came about, and a report whose contract says
//! that it is the report of each of them. How the argument goes stands above its file in `proofs/`:
//! the holders of all programmes added up (`Totals`); what a stable placement shares with one that
//! gives each candidate at least as much (`Shared`); and so the report of one is that of each
//! (`Reports`).
#![tactic(auto)]

// The laws.
mod laws;
// The candidates who hold nothing, and the holders of each programme.
mod counting;
// The report.
mod report;
// A market with three stable placements.
mod example;
#[cfg(test)]
mod tests;

pub use example::three_stable_placements;
pub use laws::{better_holders, same_everywhere};
pub use report::{FixedReport, fixed_report};
