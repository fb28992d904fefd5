//! A placement file: the placement that its rows hold, beside the other files or alone, or the
//! file's first fault; the text of a placement; and the requests of a registrations file.
#![tactic(auto)]

// What a row of the file says, and what it gives its candidate.
mod row;
// What a row says by itself.
mod fields;
// The rows of the file, candidate by candidate.
mod table;
// The text of a placement.
mod texts;
// The file read without other files.
mod seats;
// The requests of a registrations file.
mod requests;

pub use requests::{read_candidate, read_requests, requests_form};
pub use seats::{SeatList, read_alone};
pub use table::read_placement;
pub use texts::placement_text;

#[cfg(test)]
mod tests;
