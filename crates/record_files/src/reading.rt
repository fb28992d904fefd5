// The reading of all rows of a file.
ghost use Rattle.std.specs.Prelude.{◌≡◌, ◌≤◌, ◌++◌, ◌∷◌, [], ℕ, List, length, None, Some, IfOk, MatchResult};
ghost use Rattle.record_files.specs.FirstFaults.{fault_behind, first_fault};
ghost use Rattle.record_files.specs.Form.{IsHeaderOf, version_in};
ghost use Rattle.record_files.specs.ReadTo.{AreRowsRead, AreRowsTaken, IsFileRead, IsRowTaken};
ghost use Rattle.record_files.specs.Rows.{Row, data_rows};

use crate::form::{FileForm, Header};
use crate::row_table::RowTable;
use crate::rows::{RecordRow, Records};
use crate::table_stop::TableStop;
use place_base::FileFault;
use place_base::limits::LARGEST_FILE;
use std::alloc::{AllocError, Global};

/// The table of the first rows, how many they are, and the fault behind them; of all rows where
/// there is none.
#[derive(Drop)]
pub struct RowsRead<T> {
    /// The table of the rows before the fault.
    pub table: T,
    /// How many these rows are.
    pub count: u32,
    /// The fault behind them.
    pub fault: Option<FileFault>,
}

/// Reads the rows of a file into an empty table, up to the file's first fault.
pub fn read_rows<B, T: RowTable<B> + Drop>(
    alloc: Global,
    bytes: &[u8],
    beside: &B,
    table: T,
) -> Result<RowsRead<T>, AllocError>
    requires size { length bytes.now ≤ LARGEST_FILE }
    requires empty { (version : ℕ) → T.has_rows beside.now version [] table }
    ensures { IfOk result
        (AreRowsRead (T.rules beside.now) bytes.now (T.has_rows beside.now)) }
{
    let mut records = Records::of_bytes(bytes);
    match T::form(beside).read_header(&mut records) {
        Ok(header) => take_rows(alloc, records, header, beside, table),
        Err(fault) => Ok(RowsRead {
            table,
            count: 0,
            fault: Some(fault),
        }),
    }
}

/// Reads the rows that are left behind a header into an empty table, up to the first with a fault.
pub fn take_rows<B, T: RowTable<B> + Drop>(
    alloc: Global,
    mut records: Records<'_>,
    header: Header,
    beside: &B,
    mut table: T,
) -> Result<RowsRead<T>, AllocError>
    requires header { IsHeaderOf (T.rules beside.now).form header }
    requires empty { (version : ℕ) → T.has_rows beside.now version [] table }
    ensures { IfOk result (AreRowsTaken (T.rules beside.now) None header (T.has_rows beside.now)
        records.entry) }
{
    let form = T::form(beside);
    let mut count = 0;
    'rows: while let Some(row) = records.next() {
        if let Some(fault) = take_row(alloc, &form, header, count, &row, beside, &mut table)? {
            return Ok(RowsRead {
                table,
                count,
                fault: Some(fault),
            });
        }
        count += 1;
    }
    Ok(RowsRead {
        table,
        count,
        fault: None,
    })
}

/// The table of a file, or the file's first fault.
pub fn read_table<B, T: RowTable<B> + Drop>(
    alloc: Global,
    bytes: &[u8],
    beside: &B,
    table: T,
) -> Result<T, TableStop>
    requires size { length bytes.now ≤ LARGEST_FILE }
    requires empty { (version : ℕ) → T.has_rows beside.now version [] table }
    ensures { IsFileRead (first_fault (T.rules beside.now) bytes.now)
        (T.has_rows beside.now (version_in (T.rules beside.now).form bytes.now)
        (data_rows bytes.now)) result }
{
    let read = read_rows(alloc, bytes, beside, table)?;
    match read.fault {
        None => Ok(read.table),
        Some(fault) => Err(TableStop::Fault(fault)),
    }
}

// Reads a row behind so many into the table, or answers what is wrong with it.
fn take_row<B, T: RowTable<B>>(
    alloc: Global,
    form: &FileForm,
    header: Header,
    count: u32,
    row: &RecordRow<'_>,
    beside: &B,
    table: &mut T,
) -> Result<Option<FileFault>, AllocError>
    requires form { form.now ≡ (T.rules beside.now).form }
    requires header { IsHeaderOf (T.rules beside.now).form header }
    requires rows { (earlier : List Row)
        × T.has_rows beside.now header.version earlier table.old
        × (length earlier ≡ count) }
    ensures { IfOk result (λ found. (earlier : List Row)
        → T.has_rows beside.now header.version earlier table.old
        → length earlier ≡ count
        → IsRowTaken (fault_behind (T.rules beside.now) header earlier row.now)
        (T.has_rows beside.now header.version earlier table.new)
        (T.has_rows beside.now header.version (earlier ++ row.now ∷ []) table.new) found) }
{
    if let Some(fault) = form.shape_fault(header.fields, count, row) {
        return Ok(Some(fault));
    }
    match T::read_fields(beside, header, row) {
        Ok(fields) => table.take(alloc, beside, fields),
        Err(fault) => Ok(Some(fault)),
    }
}
