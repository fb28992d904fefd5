// The rows of the parts of a file, read side by side, each part by itself.
ghost use Rattle.std.specs.Prelude.{◌≡◌, ◌≤◌, ◌<◌, ◌++◌, ◌∷◌, ℕ, List, [], All, drop, length, if◌then◌else◌, IfOk, IfSome, IsTrue, None};
ghost use Rattle.record_files.specs.Form.{IsHeaderOf};
ghost use Rattle.record_files.specs.Rows.{Row, part_rows};
ghost use Rattle.record_files.specs.declared.form.Header.{Header as FileHeader};
ghost use Rattle.piece_reader.specs.Ahead.{AreReadAhead, ArePartsRead, AreTablesOf, IsClean, IsPartRead};
ghost use Rattle.piece_reader.specs.Header.{data_lists};
ghost use Rattle.piece_reader.specs.Parts.{IsPartOf};

use crate::header::from_header;
use crate::part_table::PartTable;
use crate::pieces::read_pieces;
use place_base::limits::{LARGEST_FILE, MOST_PIECES};
use record_files::{Header, Records, RowPart, RowsRead, take_rows};
use std::alloc::{AllocError, Global};
use std::thread::{self, Threads};

/// Reads the rows of each part of a file into a table of its own, side by side.
///
/// Where tables are answered, the file has no fault that its header or a row shows by itself, and
/// no row too many. `None` says nothing of the file: the caller then reads it row by row. It comes
/// where such a fault was seen, or where a table told one of a row beside those of its part; no
/// clause says so, nor in how many parts a file was read, and tests show both.
pub fn read_parts<R: Threads + Sync, B: Sync, G: PartTable<B> + Send + Drop>(
    rt: &R,
    alloc: Global,
    bytes: &[u8],
    pieces: u32,
    beside: &B,
) -> Result<Option<Vec<G>>, AllocError>
    requires size { length bytes.now ≤ LARGEST_FILE }
    requires pieces { (1 ≤ pieces) × (pieces ≤ MOST_PIECES) }
    ensures { IfOk result (λ read. IfSome read (λ tables.
        AreReadAhead (G.rules beside.now) (G.has_rows beside.now) bytes.now tables.items)) }
{
    let form = G::form(beside);
    let Ok(header) = form.read_header(&mut Records::of_bytes(bytes)) else {
        return Ok(None);
    };
    let parts = read_pieces(rt, alloc, bytes, pieces)?;
    let read = read_each(rt, alloc, bytes, from_header(bytes, &parts), header, beside)?;
    whole(alloc, read, beside)
}

// Reads each part; the first of them has the header, which is passed.
fn read_each<R: Threads + Sync, B: Sync, G: PartTable<B> + Send + Drop>(
    rt: &R,
    alloc: Global,
    bytes: &[u8],
    parts: &[RowPart],
    header: Header,
    beside: &B,
) -> Result<Vec<Result<Option<RowsRead<G>>, AllocError>>, AllocError>
    requires size { length bytes.now ≤ LARGEST_FILE }
    requires parts { All (IsPartOf bytes.now) parts.now }
    requires header { IsHeaderOf (G.rules beside.now).form header }
    ensures { IfOk result (λ read. ArePartsRead (G.rules beside.now) header
        (G.has_rows beside.now) (data_lists bytes.now parts.now) read.items) }
{
    let read = thread::map_indices(
        rt,
        alloc,
        parts.len(),
        &|index| { read_part(alloc, bytes, parts[index], index == 0, header, beside) },
    )?;
    Ok(read)
}

// Reads the rows of a part, without its first where that is the header.
fn read_part<B, G: PartTable<B> + Drop>(
    alloc: Global,
    bytes: &[u8],
    part: RowPart,
    first: bool,
    header: Header,
    beside: &B,
) -> Result<Option<RowsRead<G>>, AllocError>
    requires size { length bytes.now ≤ LARGEST_FILE }
    requires part { IsPartOf bytes.now part }
    requires header { IsHeaderOf (G.rules beside.now).form header }
    ensures { IfOk result (λ read. IfSome read (IsPartRead (G.rules beside.now) header
        (G.has_rows beside.now) (drop (if first then 1 else 0) (part_rows bytes.now part)))) }
{
    let records = data_records(bytes, part, first);
    let table = G::empty(alloc, beside)?;
    let read = take_rows(alloc, records, header, beside, table)?;
    match read.fault {
        None => Ok(Some(read)),
        Some(_fault) => Ok(None),
    }
}

// The rows of a part, without its first where that is the header.
fn data_records(bytes: &[u8], part: RowPart, first: bool) -> Records<'_>
    requires size { length bytes.now ≤ LARGEST_FILE }
    requires part { IsPartOf bytes.now part }
    ensures { result ≡ drop (if first then 1 else 0) (part_rows bytes.now part) }
{
    let mut records = Records::of_part(bytes, part);
    if first {
        let _header = records.next();
    }
    records
}

// The tables of all parts, where each was read and they hold no more rows than the file may have.
fn whole<B, G: PartTable<B> + Drop>(
    alloc: Global,
    parts: Vec<Result<Option<RowsRead<G>>, AllocError>>,
    beside: &B,
) -> Result<Option<Vec<G>>, AllocError>
    ensures { IfOk result (λ read. IfSome read (λ tables. (header : FileHeader)
        (lists : List (List Row))
        → ArePartsRead (G.rules beside.now) header (G.has_rows beside.now) lists parts.items
        → AreTablesOf (G.rules beside.now) header (G.has_rows beside.now) lists tables.items)) }
{
    let most_rows = G::most_rows(beside);
    let mut tables = Vec::with_capacity(alloc, parts.len())?;
    let mut rows = 0;
    let mut left = parts.into_iter();
    'parts: while let Some(part) = left.next() {
        let Some(part) = part? else {
            return Ok(None);
        };
        if part.count > most_rows - rows {
            return Ok(None);
        }
        rows += part.count;
        tables.push(part.table)?;
    }
    Ok(Some(tables))
}
