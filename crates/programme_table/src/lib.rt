//! The table of a programmes file: its programmes with their codes, score types, quotas and bars, or
//! the file's first fault.
#![tactic(auto)]

// What a row of the file says, and the programme that it makes.
mod row;
// What a row says by itself.
mod fields;
// The table, its reading and its look-ups.
mod table;

pub use row::ProgrammeRow;
pub use table::ProgrammeTable;

#[cfg(test)]
mod tests;
