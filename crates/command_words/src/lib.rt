//! The grammar of the command line: the command that a list of words gives, or the first refusal.
#![tactic(auto)]

// The table of commands, and the reading of a list of words against it.
#[cfg(test)]
mod tests;
mod words;

pub use words::{Command, MAX_QUOTAS, MAX_WORKERS, WORKERS, WordsFault, read_words};
