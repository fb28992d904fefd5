// What can be wrong with a file.

ghost use Rattle.std.specs.Prelude.{◌≡◌};
ghost use Rattle.place_base.specs.FaultKind.{fault_number, fault_name};
ghost use Rattle.place_base.specs.FileKind.{file_name};

/// The kinds of files.
#[derive(Clone, Copy, Debug, PartialEq, Eq)]
pub enum FileKind {
    /// Programmes with their score types and quotas.
    Programmes,
    /// Candidates with their preference lists.
    Candidates,
    /// The ranks of candidates in score types.
    Ranks,
    /// What each candidate holds: the fourth file of an audit, and the first of the desk.
    Placement,
    /// The requests that are served at the desk.
    Registrations,
}

impl FileKind {
    /// The word that stands for the file in a note.
    pub fn name(self) -> &'static str
        ensures { result.now ≡ file_name self }
    {
        match self {
            FileKind::Programmes => "programmes",
            FileKind::Candidates => "candidates",
            FileKind::Ranks => "ranks",
            FileKind::Placement => "placement",
            FileKind::Registrations => "registrations",
        }
    }
}

/// What is wrong with a file.
#[derive(Clone, Copy, Debug, PartialEq, Eq)]
pub enum FaultKind {
    /// The first row is not the header, or there is no row.
    Header,
    /// A data row has another number of fields than the header.
    FieldCount,
    /// A number is empty or has a byte that is no digit.
    NotNumber,
    /// A number is outside its limits, or there are too many score types.
    OutOfRange,
    /// A type name is not 1 to 8 bytes of `A` to `Z` and `0` to `9`.
    BadTypeName,
    /// A row repeats what an earlier row says, or a list repeats a code.
    Duplicate,
    /// A code is not in the programmes file.
    UnknownProgramme,
    /// A list has too many entries.
    ListTooLong,
    /// A data row is one more than the limit of its file.
    TooManyRows,
    /// A line has more than 1,024 bytes.
    LineTooLong,
    /// The file has more than 2^30 bytes.
    FileTooLong,
    /// A candidate of a placement file is not in the candidates file.
    UnknownCandidate,
    /// A seat is not `G` or `R` beside a programme, or not `-` beside none.
    BadSeat,
}

impl FaultKind {
    /// The number of the kind, 1 to 13 in the order of the variants.
    pub fn number(self) -> u8
        ensures { result ≡ fault_number self }
    {
        match self {
            FaultKind::Header => 1,
            FaultKind::FieldCount => 2,
            FaultKind::NotNumber => 3,
            FaultKind::OutOfRange => 4,
            FaultKind::BadTypeName => 5,
            FaultKind::Duplicate => 6,
            FaultKind::UnknownProgramme => 7,
            FaultKind::ListTooLong => 8,
            FaultKind::TooManyRows => 9,
            FaultKind::LineTooLong => 10,
            FaultKind::FileTooLong => 11,
            FaultKind::UnknownCandidate => 12,
            FaultKind::BadSeat => 13,
        }
    }

    /// The name of the kind.
    pub fn name(self) -> &'static str
        ensures { result.now ≡ fault_name self }
    {
        match self {
            FaultKind::Header => "Header",
            FaultKind::FieldCount => "FieldCount",
            FaultKind::NotNumber => "NotNumber",
            FaultKind::OutOfRange => "OutOfRange",
            FaultKind::BadTypeName => "BadTypeName",
            FaultKind::Duplicate => "Duplicate",
            FaultKind::UnknownProgramme => "UnknownProgramme",
            FaultKind::ListTooLong => "ListTooLong",
            FaultKind::TooManyRows => "TooManyRows",
            FaultKind::LineTooLong => "LineTooLong",
            FaultKind::FileTooLong => "FileTooLong",
            FaultKind::UnknownCandidate => "UnknownCandidate",
            FaultKind::BadSeat => "BadSeat",
        }
    }
}

/// A fault of a file, and where it stands.
#[derive(Clone, Copy, Debug, PartialEq, Eq)]
pub struct FileFault {
    /// The file that has the fault.
    pub file: FileKind,
    /// The line, from 1; 0 where the whole file is meant.
    pub line: u32,
    /// The field, from 1; 0 where the whole row is meant.
    pub field: u8,
    /// What is wrong there.
    pub kind: FaultKind,
    /// The line that a duplicate repeats, else 0.
    pub earlier: u32,
}
