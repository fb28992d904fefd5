//! What a program here does around its own work: it reads named files whole, or stops with the
//! cause, and writes the line that says how it ended.
#![tactic(auto)]

// A named file, read whole.
mod file;
// Lines of notes.
mod lines;
// Why a file has no table, and why a run has no answer.
mod stop;

pub use file::read_file;
pub use lines::{write_fault, write_parts, write_stop, write_words};
pub use stop::{FileStop, Stop, table_or_stop};
