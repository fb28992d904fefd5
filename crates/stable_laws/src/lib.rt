//! The laws of the mechanism: its rounds end, its placement is stable, and it is the worst of all
//! stable placements for every candidate at once.
//!
//! Each law is a function that changes and answers nothing: its contract says the law, and its call
//! gives it to a proof. They speak of the definitions in `market` alone. How each argument goes
//! stands above its file in `proofs/`: shorter lists free seats (`FreeSeats`), so whoever was cut
//! still takes a programme (`CutCandidates`); who holds a programme and which turn took it
//! (`Holders`); the placement is stable (`Stable`); what markets share that differ in quotas alone
//! (`Widening`); no stable placement gives a candidate less (`Worst`); and a second stable
//! placement of an example (`Exchange`).
#![tactic(auto)]

// That the premises can be met, and that the last law says something.
mod example;
// The laws.
mod laws;

pub use example::exchange_stable_placements;
pub use laws::{
    mechanism_stable, mechanism_worst, prefix_lists_free_seats, rounds_bounded, worst_stable,
};
