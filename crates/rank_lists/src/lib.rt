//! The ranks file: the turn order of each score type and its ranks, or the file's first fault.
#![tactic(auto)]

// What a row of the file says.
mod row;
// What a row says by itself.
mod fields;
// What numbers are packed with.
mod keys;
// The name of a type as one number.
mod name_numbers;
// The types and candidates beside which ranks are read.
mod known;
// The ranks of known candidates in known types, gathered from the rows of a part.
mod part_ranks;
// A file without a fault, read in parts.
mod clean;
// What the rows say, gathered row by row.
mod rows;
// Numbers in order, and the first of them that stands twice.
mod repeats;
// The first row that repeats what an earlier row says.
mod duplicates;
// The ranks given in a type, and the turn order sorted from them.
mod turns;
// The turn orders and ranks of a file, and their look-ups.
mod table;

pub use table::{RankLists, RankParts};

#[cfg(test)]
mod tests;
