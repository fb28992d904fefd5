// What a row of the file says.
ghost use Rattle.std.specs.Prelude.{◌≤◌};
ghost use Rattle.place_base.specs.declared.limits.TheConstants.{LARGEST_RANK};

use place_base::{CandidateNo, TypeName};

/// What a row of the file says, by itself.
#[derive(Clone, Copy)]
pub struct Fields {
    /// The candidate's number.
    pub candidate: CandidateNo,
    /// The name of the score type.
    pub name: TypeName,
    /// The candidate's rank in it.
    pub rank: u32,
    ghost limit: { rank ≤ LARGEST_RANK },
}
