// Cuts at line ends, and files read over the parts.
ghost use Rattle.std.specs.Prelude.{◌≤◌, length};

use super::{TakesAhead, from_header, read_pieces, read_table};
use place_base::FaultKind::{self, Duplicate, FieldCount, TooManyRows};
use place_base::{FileFault, FileKind};
use record_files::{FileForm, Header, RecordRow, RowPart, RowTable, TableStop, duplicate_at};
use std::alloc::{AllocError, Global};
use std::test::Fail;
use std::thread::Threads;

// A file, the number of pieces, and the start, end and line of each part.
const FILES: [(&[u8], u32, &[(u32, u32, u32)]); 8] = [
    (b"ab\ncd\nef", 2, &[(0, 6, 1), (6, 8, 3)]),
    (b"ab\ncd\nef", 1, &[(0, 8, 1)]),
    (b"", 2, &[]),
    (b"abc", 3, &[(0, 3, 1)]),
    (b"a\nb", 64, &[(0, 2, 1), (2, 3, 2)]),
    (b"a\r\nb", 2, &[(0, 3, 1), (3, 4, 2)]),
    (b"\n\n\n\n\nh\nx", 2, &[(0, 4, 1), (4, 8, 5)]),
    (
        b"\n\n\n\n\nh\nx",
        64,
        &[
            (0, 1, 1),
            (1, 2, 2),
            (2, 3, 3),
            (3, 4, 4),
            (4, 5, 5),
            (5, 7, 6),
            (7, 8, 7),
        ],
    ),
];

#[test]
fn parts_begin_behind_line_ends(rt: HostRuntime) -> Result<(), Fail> {
    cut_all(&rt, rt.alloc(), &FILES)
}

// Cuts each file, and fails where the parts are others.
fn cut_all<R: Threads + Sync>(
    rt: &R,
    alloc: Global,
    files: &[(&[u8], u32, &[(u32, u32, u32)])],
) -> Result<(), Fail> {
    for (bytes, pieces, wanted) in files {
        if bytes.len() > 1024 || *pieces == 0 || *pieces > 64 {
            return Err(Fail::new("a long file"));
        }
        let parts = read_pieces(rt, alloc, bytes, *pieces)?;
        let mut expected = Vec::new(alloc);
        for (start, end, line) in *wanted {
            expected.push(RowPart {
                start: *start,
                end: *end,
                line: *line,
            })?;
        }
        if parts.as_slice() != expected.as_slice() {
            return Err(Fail::new("other parts"));
        }
    }
    Ok(())
}

#[test]
fn the_header_stands_behind_empty_lines(rt: HostRuntime) -> Result<(), Fail> {
    let bytes = b"\n\n\n\n\nh\nx";
    let parts = read_pieces(&rt, rt.alloc(), bytes, 64)?;
    let rest = from_header(bytes, &parts);
    let first = RowPart {
        start: 5,
        end: 7,
        line: 6,
    };
    assert_eq!(rt; rest.first(), Some(&first));
    Ok(())
}

// The line of a row.
#[derive(Clone, Copy)]
struct Line(u32);

// How many rows were read. A file has at most three of them, and a row at line 9 is wrong: its
// fault tells how many stand before it.
#[derive(Drop)]
struct RowCount(u32);

impl RowTable<()> for RowCount {
    ghost use Rattle.std.specs.Prelude.{◌≡◌, ◌==◌, None, codes, length};
    ghost use Rattle.place_base.specs.declared.fault.FileKind.TheVariants.{Programmes};
    ghost use Rattle.record_files.specs.FirstFaults.{duplicate_at, fault_if};
    ghost use Rattle.record_files.specs.Form.{one_header};

    type Fields = Line;

    ghost rules = { λ _. record {
      form = one_header Programmes (codes "h") 3;
      reading = λ version row. None;
      meaning = λ version earlier row.
          fault_if (row.0 == 9) (duplicate_at Programmes 9 1 (length earlier));
    } };

    ghost says = { λ version row line. line.0 ≡ row.0 };

    ghost has_rows = { λ _ version rows table. table.0 ≡ length rows };

    fn form(_beside: &()) -> FileForm {
        FileForm::new(FileKind::Programmes, &[b"h"], 3)
    }

    fn read_fields(_beside: &(), _header: Header, row: &RecordRow<'_>) -> Result<Line, FileFault> {
        Ok(Line(row.line()))
    }

    fn take(
        &mut self,
        alloc: Global,
        beside: &(),
        fields: Line,
    ) -> Result<Option<FileFault>, AllocError> {
        self.take_ahead(alloc, beside, fields)
    }
}

impl TakesAhead<(), Line> for RowCount {
    ghost use Rattle.std.specs.Prelude.{◌≡◌};

    ghost keeps = { λ _ version row line. line.0 ≡ row.0 };

    fn most_rows(_beside: &()) -> u32 {
        3
    }

    fn keep(_alloc: Global, _beside: &(), fields: Line) -> Result<Line, AllocError> {
        Ok(fields)
    }

    fn take_ahead(
        &mut self,
        _alloc: Global,
        _beside: &(),
        row: Line,
    ) -> Result<Option<FileFault>, AllocError> {
        if row.0 == 9 {
            return Ok(Some(duplicate_at(FileKind::Programmes, 9, 1, self.0)));
        }
        self.0 += 1;
        Ok(None)
    }
}

// How many rows a file has that is read in so many pieces, or its fault.
fn count_rows<R: Threads + Sync>(
    rt: &R,
    alloc: Global,
    bytes: &[u8],
    pieces: u32,
) -> Result<u32, TableStop>
    requires size { length bytes.now ≤ 1024 }
    requires pieces { (1 ≤ pieces) × (pieces ≤ 64) }
{
    let count = read_table::<R, (), Line, RowCount>(rt, alloc, bytes, pieces, &(), RowCount(0))?;
    Ok(count.0)
}

// A file, and its fault's line, field, kind and earlier line.
const FAULTS: [(&[u8], u32, u8, FaultKind, u32); 5] = [
    (b"x\n1", 1, 0, FaultKind::Header, 0),
    (b"h\na\nb,c\nd", 3, 0, FieldCount, 0),
    (b"\n\nh\na\nb\nc\nd", 7, 0, TooManyRows, 0),
    (b"h\n\n\n\nx\n\n\ny\nz", 9, 1, Duplicate, 2),
    (b"h\n\n\n\n\n\n\n\na\nb,c", 9, 1, Duplicate, 0),
];

#[test]
fn the_first_fault_is_told_for_each_number_of_pieces(rt: HostRuntime) -> Result<(), Fail> {
    for pieces in &[1, 2, 7, 64] {
        tell_faults(&rt, rt.alloc(), *pieces, &FAULTS)?;
    }
    Ok(())
}

// Reads each file, and fails where another fault is told; and a file without one.
fn tell_faults<R: Threads + Sync>(
    rt: &R,
    alloc: Global,
    pieces: u32,
    files: &[(&[u8], u32, u8, FaultKind, u32)],
) -> Result<(), Fail> {
    if pieces == 0 || pieces > 64 {
        return Err(Fail::new("a number of pieces"));
    }
    for (bytes, line, field, kind, earlier) in files {
        let mut wanted = duplicate_at(FileKind::Programmes, *line, *field, *earlier);
        wanted.kind = *kind;
        if bytes.len() > 1024 {
            return Err(Fail::new("a long file"));
        }
        if count_rows(rt, alloc, bytes, pieces).err() != Some(TableStop::Fault(wanted)) {
            return Err(Fail::new("another fault"));
        }
    }
    if count_rows(rt, alloc, b"\n\n\nh\nx\n\ny\nz", pieces) != Ok(3) {
        return Err(Fail::new("another table"));
    }
    Ok(())
}
