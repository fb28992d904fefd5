//! The parts of a file for readers side by side: it is cut behind line ends, each part knows the
//! number of its first line, and the rows of each can be read into a table of its own.
#![tactic(auto)]

// Where the cuts stand, and the parts between them.
mod pieces;
// The part that has the header.
mod header;
// What the rows of a part are read into.
mod part_table;
// The rows of the parts, each part read by itself.
mod ahead;
// Rows that are kept until the rows before them are in the table.
mod ahead_rows;
// A table of rows that were read ahead, part by part.
mod joined;

pub use ahead::read_parts;
pub use ahead_rows::{AheadRows, TakesAhead};
pub use header::from_header;
pub use joined::read_table;
pub use part_table::PartTable;
pub use pieces::read_pieces;

#[cfg(test)]
mod tests;
