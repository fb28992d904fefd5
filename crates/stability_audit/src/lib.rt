//! The audit of a placement: the first thing that keeps it from being stable, or that it is stable.
#![tactic(auto)]

// What an audit may say.
mod verdict;
// The audit, in the order of its verdicts.
mod auditing;
// Whether one candidate holds what is acceptable, and blocks with an entry of the list.
mod candidate;
#[cfg(test)]
mod tests;

pub use auditing::audit;
pub use verdict::Verdict;
