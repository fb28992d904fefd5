// A table of rows that were read ahead, part by part.
ghost use Rattle.std.specs.Prelude.{◌≡◌, ◌≤◌, ◌<◌, ◌+◌, ◌++◌, ◌∷◌, [], ℕ, List, length, IfOk, ⊤};
ghost use Rattle.std.specs.List.{AllZip, flat_map};
ghost use Rattle.record_files.specs.FirstFaults.{first_fault};
ghost use Rattle.record_files.specs.Form.{version_in};
ghost use Rattle.record_files.specs.ReadTo.{IsFileRead, IsRowTaken};
ghost use Rattle.record_files.specs.Rows.{Row, data_rows};
ghost use Rattle.piece_reader.specs.Ahead.{AreReadAhead};
ghost use Rattle.piece_reader.specs.Joined.{by_themselves, meanings};

use crate::ahead::read_parts;
use crate::ahead_rows::{AheadRows, TakesAhead};
use place_base::FileFault;
use place_base::limits::{LARGEST_FILE, MOST_PIECES};
use record_files::TableStop;
use std::alloc::{AllocError, Global};
use std::thread::Threads;

/// The table of a file that is read in so many parts side by side, or the file's first fault.
///
/// Where a row is wrong by itself, the file is read again from its start, row by row.
pub fn read_table<R: Threads + Sync, B: Sync, A: Send + Drop, T: TakesAhead<B, A> + Send + Drop>(
    rt: &R,
    alloc: Global,
    bytes: &[u8],
    pieces: u32,
    beside: &B,
    table: T,
) -> Result<T, TableStop>
    requires size { length bytes.now ≤ LARGEST_FILE }
    requires pieces { (1 ≤ pieces) × (pieces ≤ MOST_PIECES) }
    requires empty { (version : ℕ) → T.has_rows beside.now version [] table }
    ensures { IsFileRead (first_fault (T.rules beside.now) bytes.now)
        (T.has_rows beside.now (version_in (T.rules beside.now).form bytes.now)
        (data_rows bytes.now)) result }
{
    match read_parts::<R, B, AheadRows<A, T>>(rt, alloc, bytes, pieces, beside)? {
        Some(parts) => join(alloc, bytes, parts, beside, table),
        None => record_files::read_table(alloc, bytes, beside, table),
    }
}

// The table of the rows of all parts, or the fault of the first that is wrong beside those before
// it.
fn join<B, A: Drop, T: TakesAhead<B, A> + Drop>(
    alloc: Global,
    bytes: &[u8],
    parts: Vec<AheadRows<A, T>>,
    beside: &B,
    table: T,
) -> Result<T, TableStop>
    requires empty { (version : ℕ) → T.has_rows beside.now version [] table }
    requires parts { AreReadAhead (by_themselves (T.rules beside.now))
        (λ version rows part. AllZip (T.keeps beside.now version) rows part.rows.items)
        bytes.now parts.items }
    ensures { IsFileRead (first_fault (T.rules beside.now) bytes.now)
        (T.has_rows beside.now (version_in (T.rules beside.now).form bytes.now)
        (data_rows bytes.now)) result }
{
    let mut table = table;
    let mut left = parts.into_iter();
    'parts: while let Some(part) = left.next() {
        if let Some(fault) = take_part(alloc, part.rows, beside, &mut table)? {
            return Err(TableStop::Fault(fault));
        }
    }
    Ok(table)
}

// Adds the rows of a part, or answers what is wrong with the first that is wrong beside the table.
fn take_part<B, A: Drop, T: TakesAhead<B, A>>(
    alloc: Global,
    rows: Vec<A>,
    beside: &B,
    table: &mut T,
) -> Result<Option<FileFault>, AllocError>
    requires { (version : ℕ) × (earlier : List Row) × (more : List Row)
        × T.has_rows beside.now version earlier table.old
        × AllZip (T.keeps beside.now version) more rows.items
        × (length earlier + length more ≤ (T.rules beside.now).form.most_rows) }
    ensures { IfOk result (λ found. (version : ℕ) (earlier : List Row) (more : List Row)
        → T.has_rows beside.now version earlier table.old
        → AllZip (T.keeps beside.now version) more rows.items
        → IsRowTaken (meanings (T.rules beside.now) version earlier more) ⊤
        (T.has_rows beside.now version (earlier ++ more) table.new) found) }
{
    let mut left = rows.into_iter();
    'rows: while let Some(row) = left.next() {
        if let Some(fault) = table.take_ahead(alloc, beside, row)? {
            return Ok(Some(fault));
        }
    }
    Ok(None)
}
