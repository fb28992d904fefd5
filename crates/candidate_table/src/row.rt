// What a row of the file says.

use crate::entries::Entries;
use market::List;
use place_base::{CandidateNo, FileFault};

/// What a row of the file says, by itself.
#[derive(Drop)]
pub struct Fields {
    /// The row's line.
    pub line: u32,
    /// The candidate's number.
    pub number: CandidateNo,
    /// The codes of the preference list.
    pub codes: Entries,
}

/// What it says beside the programmes, and not yet beside the candidates before.
#[derive(Drop)]
pub struct Candidate {
    /// The row's line.
    pub line: u32,
    /// The candidate's number.
    pub number: CandidateNo,
    /// The preference list as indexes of programmes, or what is wrong with it.
    pub list: Result<List, FileFault>,
}
