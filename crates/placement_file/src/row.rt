// What a row of the file says.

use place_base::{CandidateNo, ProgrammeCode};

/// The line of a row, the candidate's number, and the code held or none.
#[derive(Clone, Copy)]
pub struct Fields {
    pub line: u32,
    pub number: CandidateNo,
    pub code: Option<ProgrammeCode>,
}

/// What a row gives its candidate: its line, and the index of the programme held or none.
#[derive(Clone, Copy)]
pub struct Held {
    pub line: u32,
    pub programme: Option<u32>,
}
