// What a row says by itself.

ghost use Rattle.std.specs.Prelude.{◌≡◌, ◌≤◌, length, None, Some, MatchResult};
ghost use Rattle.std.specs.Option.{ForSome};
ghost use Rattle.record_files.specs.Rows.{fields_of};
ghost use Rattle.placement_file.specs.Growth.{IsFieldsOf};
ghost use Rattle.placement_file.specs.Rows.{reading};

use crate::row::Fields;
use place_base::limits::{LARGEST_CODE, LARGEST_NUMBER};
use place_base::{CandidateNo, FileFault, FileKind, ProgrammeCode};
use record_files::{RecordRow, in_field, number, optional_number};

/// The first two fields of a row, or the first that is wrong by itself.
pub fn read_fields(row: &RecordRow<'_>) -> Result<Fields, FileFault>
    requires { 2 ≤ length (fields_of row.now) }
    ensures { MatchResult result (λ fields. (reading row.now ≡ None) × IsFieldsOf row.now fields)
        (λ fault. reading row.now ≡ Some fault) }
{
    let file = FileKind::Placement;
    let number = in_field(file, row, 1, number(row.field(0), 1, LARGEST_NUMBER))?;
    let code = in_field(file, row, 2, optional_number(row.field(1), 1, LARGEST_CODE))?;
    Ok(Fields {
        line: row.line(),
        number: CandidateNo::new(number).unwrap(),
        code: code_of(code),
    })
}

// The code of a number that was read, none for none.
fn code_of(read: Option<u64>) -> Option<ProgrammeCode>
    requires { ForSome read (λ number. (1 ≤ number) × (number ≤ LARGEST_CODE)) }
    ensures { result ≡ read }
{
    match read {
        Some(number) => ProgrammeCode::new(number as u32),
        None => None,
    }
}
