//! Values that are in their range by type, the faults of a file, and what a table of distinct keys
//! means to those who look keys up in it.
#![tactic(auto)]

// What can be wrong with a file.
mod fault;
// Tables that find a number or a type name.
mod finder;
/// The limits of the files, and the bytes that cut them.
pub mod limits;
// Candidate numbers and programme codes.
mod number;
// Names of score types.
mod type_name;

pub use fault::{FaultKind, FileFault, FileKind};
pub use finder::{Finder, TypeFinder};
pub use number::{CandidateNo, ProgrammeCode};
pub use type_name::TypeName;

#[cfg(test)]
mod tests;
