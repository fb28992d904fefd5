//! A worker, which draws, posts and commits turns until none is left, and the team of workers that
//! runs a whole dictatorship on shared words.
//!
//! Whatever the schedule of the threads is, each turn is committed with the choice that the
//! dictatorship makes for it. A worker is written to call a gate at each point of its way: the gate
//! may hold the worker there, and so show that workers run side by side; no answer depends on it.
#![tactic(auto)]

// The points of a worker's way, at which a gate may hold it.
mod gate;
// One worker.
mod worker;
// All workers of a round.
mod team;
#[cfg(test)]
mod tests;

pub use gate::{Gate, GatePoint, OpenGate, RestingGate};
pub use team::run_team;
pub use worker::work;
