//! The top call: from the words of the command line to a status, a text and a line of notes.
#![tactic(auto)]

// What a command has ready before its first byte is written.
mod answer;
// What each command does.
mod commands;
// The three tables of a market, read from their files.
mod inputs;
// The limits in numbers.
mod limits;
// The line of a status.
mod notes;
// A market with the mechanism's placement in it.
mod placing;
// The market of three tables.
mod problem;
// Who has registered, read from a file.
mod registrations;
// A base rank in a row.
mod rank_fields;
// The reasons of a placement, as a text that is made while it is written.
mod reason_rows;
// The top call.
mod run;
// How a run ends.
mod status;
#[cfg(test)]
mod tests;

pub use limits::limits_in_numbers;
pub use run::run_words;
pub use status::Status;
