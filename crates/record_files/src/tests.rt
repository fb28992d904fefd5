// Rows, fields and faults of files.
ghost use Rattle.std.specs.Prelude.{◌≡◌, ◌≤◌, [], length};

use crate::{
    Field, FileForm, RecordRow, Records, RowBuffer, RowPart, number, put_row_1, put_row_2,
    put_row_3, put_row_4, type_name,
};
use place_base::limits::LARGEST_FILE;
use place_base::{FaultKind, FileKind};
use std::alloc::{AllocError, Global};
use std::process::Abort;
use std::test::Fail;

/// A file, and the lines and texts of its rows.
#[derive(Clone, Copy)]
struct File {
    bytes: &'static [u8],
    rows: &'static [(u32, &'static [u8])],
}

// The line and the text of the next row.
fn next_text<'a>(records: &mut Records<'a>) -> Option<(u32, &'a [u8])> {
    match records.next() {
        Some(row) => Some((row.line(), row.bytes())),
        None => None,
    }
}

// Compares the rows that are left, of which there is no other.
fn check_rows(rt: &impl Abort, records: &mut Records<'_>, rows: &[(u32, &[u8])]) {
    for row in rows {
        assert_eq!(rt; next_text(records), Some(*row));
    }
    assert_eq!(rt; next_text(records), None);
}

#[test]
fn rows_of_files(rt: HostRuntime) {
    for file in [
        File {
            bytes: b"",
            rows: &[],
        },
        File {
            bytes: b"\n\r\n",
            rows: &[],
        },
        File {
            bytes: b"a",
            rows: &[(1, b"a")],
        },
        File {
            bytes: b"a\r\nb\n\n\nc\r",
            rows: &[(1, b"a"), (2, b"b"), (5, b"c")],
        },
        File {
            bytes: b"a\r\r\n\r\r",
            rows: &[(1, b"a\r"), (2, b"\r")],
        },
        File {
            bytes: b"\xEF\xBB\xBFa,b\n",
            rows: &[(1, b"a,b")],
        },
        File {
            bytes: b"a\n\xEF\xBB\xBFb\n",
            rows: &[(1, b"a"), (2, b"\xEF\xBB\xBFb")],
        },
    ] {
        let mut records = Records::of_bytes(file.bytes);
        check_rows(&rt, &mut records, file.rows);
    }
}

// Compares the fields of a row.
fn check_fields(rt: &impl Abort, row: &RecordRow<'_>, fields: &[&[u8]]) {
    assert_eq!(rt; row.field_count() as usize, fields.len());
    for (index, field) in fields.iter().enumerate() {
        assert_eq!(rt; row.field(index as u32), *field);
    }
}

// Compares the only row that is left, with its line and its fields.
fn check_only_row(rt: &impl Abort, records: &mut Records<'_>, line: u32, fields: &[&[u8]]) {
    let row = records.next().expect(rt, "a row is left");
    assert_eq!(rt; row.line(), line);
    check_fields(rt, &row, fields);
    assert_eq!(rt; next_text(records), None);
}

#[test]
fn fields_and_parts(rt: HostRuntime) {
    let bytes = b"first\na,,ccc,d,,f\nlast\n";
    let part = RowPart {
        start: 6,
        end: 18,
        line: 2,
    };
    let mut records = Records::of_part(bytes, part);
    check_only_row(&rt, &mut records, 2, &[b"a", b"", b"ccc", b"d", b"", b"f"]);
}

// Fields, with the lowest and the highest number that is allowed, and what is read.
const NUMBERS: [(&[u8], u64, u64, Result<u64, FaultKind>); 11] = [
    (b"", 0, u64::MAX, Err(FaultKind::NotNumber)),
    (b"+5", 0, u64::MAX, Err(FaultKind::NotNumber)),
    (b"5 ", 0, u64::MAX, Err(FaultKind::NotNumber)),
    (b"99999999999999999999x", 0, 1, Err(FaultKind::NotNumber)),
    (b"007", 7, 7, Ok(7)),
    (b"0", 1, 9, Err(FaultKind::OutOfRange)),
    (b"100001", 0, 100_000, Err(FaultKind::OutOfRange)),
    (b"18446744073709551615", 0, u64::MAX, Ok(u64::MAX)),
    (b"0000018446744073709551615", 0, u64::MAX, Ok(u64::MAX)),
    (
        b"18446744073709551616",
        0,
        u64::MAX,
        Err(FaultKind::OutOfRange),
    ),
    (
        b"99999999999999999999999999999999",
        0,
        u64::MAX,
        Err(FaultKind::OutOfRange),
    ),
];

#[test]
fn numbers_and_names(rt: HostRuntime) {
    for (text, low, high, read) in &NUMBERS {
        assert_eq!(rt; number(text, *low, *high), *read);
    }
    let names = (type_name(b"SAY").is_ok(), type_name(b"ea").is_ok());
    assert_eq!(rt; names, (true, false));
}

// The version and the fields of the header of a file, or the kind of its fault.
fn header_of(form: &FileForm, bytes: &[u8]) -> Result<(usize, u32), FaultKind>
    requires { length bytes.now ≤ LARGEST_FILE }
{
    let mut records = Records::of_bytes(bytes);
    match form.read_header(&mut records) {
        Ok(header) => Ok((header.version, header.fields)),
        Err(fault) => Err(fault.kind),
    }
}

#[test]
fn first_rows(rt: HostRuntime) {
    let form = FileForm::new(
        FileKind::Ranks,
        &[b"candidate,type,rank", b"candidate,rank"],
        2,
    );
    for (bytes, read) in [
        ("", Err(FaultKind::Header)),
        ("candidate,type", Err(FaultKind::Header)),
        ("\n\u{FEFF}candidate,type,rank", Err(FaultKind::Header)),
        ("\u{FEFF}candidate,type,rank\r\n", Ok((0, 3))),
        ("\n\ncandidate,rank", Ok((1, 2))),
    ] {
        assert_eq!(rt; header_of(&form, bytes.as_bytes()), read);
    }
}

// A line of these fields, and so many digits behind them.
fn padded_line(alloc: Global, fields: &str, padding: u32) -> Result<Vec<u8>, AllocError> {
    let mut line = Vec::from_slice(alloc, fields.as_bytes())?;
    for _ in 0..padding {
        line.push(b'7')?;
    }
    line.extend_from_slice(b"\r\n")?;
    Ok(line)
}

// The kind of the fault of a line's row, after so many others.
fn shape_of(rt: &impl Abort, line: &[u8], index: u32) -> Option<FaultKind> {
    let form = FileForm::new(FileKind::Ranks, &[b"candidate,type,rank"], 2);
    assert!(rt; line.len() < 2000);
    let row = Records::of_bytes(line).next().expect(rt, "a row");
    form.shape_fault(3, index, &row).map(|fault| fault.kind)
}

#[test]
fn shapes_of_rows(rt: HostRuntime) -> Result<(), Fail> {
    for (fields, index, padding, kind) in [
        ("1,2,", 1, 1020, None),
        ("1,2,", 1, 1021, Some(FaultKind::LineTooLong)),
        ("1,2,", 2, 0, Some(FaultKind::TooManyRows)),
        ("1,2", 2, 1022, Some(FaultKind::LineTooLong)),
        ("1,2", 1, 0, Some(FaultKind::FieldCount)),
        ("1,2,3,", 1, 0, Some(FaultKind::FieldCount)),
    ] {
        let line = padded_line(rt.alloc(), fields, padding)?;
        assert_eq!(rt; shape_of(&rt, &line, index), kind);
    }
    Ok(())
}

#[test]
fn texts_of_rows(rt: HostRuntime) -> Result<(), Fail> {
    let (number, text) = (Field::Number(900), Field::Text(b"-"));
    let mut out = Vec::new(rt.alloc());
    put_row_1(&mut out, number)?;
    put_row_2(&mut out, number, text)?;
    put_row_3(&mut out, text, Field::Text(b""), number)?;
    put_row_4(&mut out, text, number, number, text)?;
    assert_eq!(rt;
        out.as_slice(),
        b"900\n900,-\n-,,900\n-,900,900,-\n".as_slice()
    );
    Ok(())
}

// Two rows, after one that is cleared again.
fn check_buffer(rt: &impl Abort, buffer: &mut RowBuffer)
    requires { buffer.old ≡ [] }
{
    let (number, text) = (Field::Number(u64::MAX), Field::Text(b"-"));
    assert_eq!(rt; buffer.room(), 4096);
    buffer.put_row_4(text, text, number, number);
    buffer.clear();
    buffer.put_row_4(number, text, Field::Text(b""), number);
    assert_eq!(rt; buffer.room(), 4096 - 45);
    buffer.put_row_4(
        text,
        Field::Number(0),
        text,
        Field::Text(b"NEITHER_LAST_ONE"),
    );
    assert_eq!(rt;
        buffer.bytes(),
        b"18446744073709551615,-,,18446744073709551615\n-,0,-,NEITHER_LAST_ONE\n".as_slice()
    );
    assert_eq!(rt; buffer.room(), 4096 - 45 - 23);
}

#[test]
fn rows_of_a_buffer(rt: HostRuntime) {
    check_buffer(&rt, &mut RowBuffer::new());
}
