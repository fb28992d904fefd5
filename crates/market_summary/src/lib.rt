//! The summary of a market and of what a run of the mechanism gave in it: a line for each number.
#![tactic(auto)]

// What is counted.
mod counts;
// The text.
#[cfg(test)]
mod tests;
mod text;

pub use text::summary_text;
