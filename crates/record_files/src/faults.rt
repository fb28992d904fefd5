// The faults of rows and fields.
ghost use Rattle.std.specs.Prelude.{◌≡◌, Ok, Some, MatchResult};
ghost use Rattle.record_files.specs.FirstFaults.{duplicate_at, fault_at, reading_fault};

use crate::rows::RecordRow;
use place_base::{FaultKind, FileFault, FileKind};

/// A fault that repeats no line. The fields count from 1; 0 means the whole row.
pub fn fault_at(file: FileKind, line: u32, field: u8, kind: FaultKind) -> FileFault
    ensures { result ≡ fault_at file line field kind }
{
    FileFault {
        file,
        line,
        field,
        kind,
        earlier: 0,
    }
}

/// The fault of a field that repeats an earlier line, or an entry of its own list.
pub fn duplicate_at(file: FileKind, line: u32, field: u8, earlier: u32) -> FileFault
    ensures { result ≡ duplicate_at file line field earlier }
{
    FileFault {
        earlier,
        ..fault_at(file, line, field, FaultKind::Duplicate)
    }
}

/// What was read in a field of a row, or the fault of that field. The fields count from 1.
pub fn in_field<T>(
    file: FileKind,
    row: &RecordRow<'_>,
    field: u8,
    read: Result<T, FaultKind>,
) -> Result<T, FileFault>
    ensures { MatchResult result (λ value. read ≡ Ok value)
        (λ fault. reading_fault file row.now.0 field read ≡ Some fault) }
{
    match read {
        Ok(value) => Ok(value),
        Err(kind) => Err(fault_at(file, row.line(), field, kind)),
    }
}
