// What a row says by itself.
ghost use Rattle.std.specs.Prelude.{◌≡◌, ◌≤◌, length, None, Some, MatchResult};
ghost use Rattle.std.specs.Option.{ForSome};
ghost use Rattle.record_files.specs.Form.{IsHeaderOf};
ghost use Rattle.record_files.specs.Rows.{fields_of};
ghost use Rattle.programme_table.specs.Growth.{IsFieldsOf};
ghost use Rattle.programme_table.specs.Rows.{bar_fault, bar_of, programmes_form, reading};

use crate::row::Fields;
use place_base::limits::{LARGEST_CODE, LARGEST_QUOTA, LARGEST_RANK};
use place_base::{FileFault, FileKind, ProgrammeCode};
use record_files::{Header, RecordRow, in_field, number, optional_number, type_name};

/// The fields of a row with as many as the header, or the first that is wrong by itself.
pub fn read_fields(header: Header, row: &RecordRow<'_>) -> Result<Fields, FileFault>
    requires header { IsHeaderOf programmes_form header }
    requires fields { length (fields_of row.now) ≡ header.fields }
    ensures { MatchResult result
        (λ fields. (reading header.version row.now ≡ None)
        × IsFieldsOf header.version row.now fields)
        (λ fault. reading header.version row.now ≡ Some fault) }
{
    let file = FileKind::Programmes;
    let code = in_field(file, row, 1, number(row.field(0), 1, LARGEST_CODE))?;
    let name = in_field(file, row, 2, type_name(row.field(1)))?;
    let quota = in_field(file, row, 3, number(row.field(2), 0, LARGEST_QUOTA))?;
    let bar = read_bar(header, row)?;
    Ok(Fields {
        line: row.line(),
        code: ProgrammeCode::new(code as u32).unwrap(),
        name,
        quota: quota as u32,
        bar,
    })
}

// The bar of a row, none under the header without bars, or what is wrong with it.
fn read_bar(header: Header, row: &RecordRow<'_>) -> Result<Option<u32>, FileFault>
    requires header { IsHeaderOf programmes_form header }
    requires fields { length (fields_of row.now) ≡ header.fields }
    ensures { MatchResult result
        (λ bar. (bar_fault header.version row.now ≡ None)
        × (bar ≡ bar_of header.version row.now)
        × ForSome bar (λ rank. (1 ≤ rank) × (rank ≤ LARGEST_RANK)))
        (λ fault. bar_fault header.version row.now ≡ Some fault) }
{
    if header.version == 0 {
        return Ok(None);
    }
    let bar = optional_number(row.field(3), 1, LARGEST_RANK);
    match in_field(FileKind::Programmes, row, 4, bar)? {
        Some(bar) => Ok(Some(bar as u32)),
        None => Ok(None),
    }
}
