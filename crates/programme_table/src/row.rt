// What a row of the file says, and the programme that it makes.
ghost use Rattle.std.specs.Prelude.{◌≤◌};
ghost use Rattle.std.specs.Option.{ForSome};
ghost use Rattle.place_base.specs.declared.limits.TheConstants.{LARGEST_QUOTA, LARGEST_RANK};

use place_base::{ProgrammeCode, TypeName};

/// What a row of the file says, by itself.
#[derive(Clone, Copy)]
pub struct Fields {
    /// The row's line.
    pub line: u32,
    /// The programme's code.
    pub code: ProgrammeCode,
    /// The name of its score type.
    pub name: TypeName,
    /// How many seats it has.
    pub quota: u32,
    /// The worst rank that it admits, or none.
    pub bar: Option<u32>,
    ghost limit: { quota ≤ LARGEST_QUOTA },
    ghost bar_limit: { ForSome bar (λ rank. (1 ≤ rank) × (rank ≤ LARGEST_RANK)) },
}

/// A programme: its code, the index of its score type, its quota (0 to 100,000 seats), and its bar
/// (a rank from 1 to 99,999,999, or none).
#[derive(Clone, Copy, Debug, PartialEq, Eq)]
pub struct ProgrammeRow {
    /// Its code.
    pub code: ProgrammeCode,
    /// The index of its score type among the table's types.
    pub kind: u32,
    /// How many seats it has.
    pub quota: u32,
    /// The worst rank that it admits; a file without bars has none.
    pub bar: Option<u32>,
}
